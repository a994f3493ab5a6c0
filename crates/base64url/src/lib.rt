// base64url: a condition's or fulfilment's text of 43 letters and its 32 bytes, and the form of a packet.
#![tactic(auto)]

ghost use Rattle.std.specs.Prelude.{◌≡◌, ◌≤◌, ◌<◌, map, length};
ghost use Rattle.form.specs.Regex.{judge};
ghost use Rattle.form.specs.Listings.{packet_form};
ghost use Rattle.form.specs.Writing.{buffer_after};
ghost use Rattle.base64url.specs.Letters.{letter_of, value_of};
ghost use Rattle.base64url.specs.Condition.{four_values, read_condition, condition_text, write_condition};
ghost use Rattle.base64url.specs.Scan.{four_letters, group_of, letters_first, Passed, past_pad};

use form::{Stop, Unwritten};

// The reading table: the value of each byte that is a letter, and for every other the refuse mark, 255.
const VALUE: [u8; 256] = *b"\
    \xff\xff\xff\xff\xff\xff\xff\xff\xff\xff\xff\xff\xff\xff\xff\xff\xff\xff\xff\xff\xff\xff\xff\xff\xff\xff\xff\xff\xff\xff\xff\xff\
    \xff\xff\xff\xff\xff\xff\xff\xff\xff\xff\xff\xff\xff\x3e\xff\xff\x34\x35\x36\x37\x38\x39\x3a\x3b\x3c\x3d\xff\xff\xff\xff\xff\xff\
    \xff\x00\x01\x02\x03\x04\x05\x06\x07\x08\x09\x0a\x0b\x0c\x0d\x0e\x0f\x10\x11\x12\x13\x14\x15\x16\x17\x18\x19\xff\xff\xff\xff\x3f\
    \xff\x1a\x1b\x1c\x1d\x1e\x1f\x20\x21\x22\x23\x24\x25\x26\x27\x28\x29\x2a\x2b\x2c\x2d\x2e\x2f\x30\x31\x32\x33\xff\xff\xff\xff\xff\
    \xff\xff\xff\xff\xff\xff\xff\xff\xff\xff\xff\xff\xff\xff\xff\xff\xff\xff\xff\xff\xff\xff\xff\xff\xff\xff\xff\xff\xff\xff\xff\xff\
    \xff\xff\xff\xff\xff\xff\xff\xff\xff\xff\xff\xff\xff\xff\xff\xff\xff\xff\xff\xff\xff\xff\xff\xff\xff\xff\xff\xff\xff\xff\xff\xff\
    \xff\xff\xff\xff\xff\xff\xff\xff\xff\xff\xff\xff\xff\xff\xff\xff\xff\xff\xff\xff\xff\xff\xff\xff\xff\xff\xff\xff\xff\xff\xff\xff\
    \xff\xff\xff\xff\xff\xff\xff\xff\xff\xff\xff\xff\xff\xff\xff\xff\xff\xff\xff\xff\xff\xff\xff\xff\xff\xff\xff\xff\xff\xff\xff\xff";

// The letter of each value.
const LETTER: [u8; 64] = *b"ABCDEFGHIJKLMNOPQRSTUVWXYZabcdefghijklmnopqrstuvwxyz0123456789-_";

// What the table has for the character c.
#[tactic(auto, using(crate::proofs::Table::value_at))]
fn value_of(c: u8) -> u8
    ensures { result ≡ value_of c }
{
    VALUE[usize::from(c)]
}

// Whether four characters are all letters, by one test.
fn four_letters(four: &[u8; 4]) -> bool
    ensures { result ≡ four_letters four.now }
{
    (value_of(four[0]) < 64)
        & (value_of(four[1]) < 64)
        & (value_of(four[2]) < 64)
        & (value_of(four[3]) < 64)
}

// Letters that the text begins with, counted four a turn (one a turn takes up to 1.8 times C's time); the caller counts the last few.
fn fours_first(s: &[u8]) -> usize
    ensures within { result ≤ length s.now }
    ensures passed { Passed (length s.now) s.now (letters_first (length s.now) s.now) result }
{
    let (fours, _) = s.as_chunks::<4>();
    for (k, four) in fours.iter().enumerate() {
        if !four_letters(four) {
            return k * 4;
        }
    }
    fours.len() * 4
}

// How many letters the text begins with, counted to most.
fn letters_first(s: &[u8], most: usize) -> usize
    ensures { result ≡ letters_first most s.now }
{
    let text = &s[..s.len().min(most)];
    for i in fours_first(text)..text.len() {
        if 64 <= value_of(text[i]) {
            return i;
        }
    }
    text.len()
}

// The three bytes of four letters.
#[tactic(auto, unfolding(crate::specs::Scan::group_of))]
fn group_of(four: &[u8; 4]) -> Option<[u8; 3]>
    ensures { result ≡ group_of four.now }
{
    if !four_letters(four) {
        return None;
    }
    let (a, b, c, d) = (
        value_of(four[0]),
        value_of(four[1]),
        value_of(four[2]),
        value_of(four[3]),
    );
    Some([a * 4 + b / 16, b % 16 * 16 + c / 4, c % 4 * 64 + d])
}

// Where a text that is no condition stops.
fn stop_of(s: &[u8]) -> Stop
    ensures { result.at ≡ letters_first 43 s.now }
{
    Stop {
        at: letters_first(s, 43),
    }
}

/// A condition or fulfilment: 43 letters, 32 bytes. Ten groups of four, and three letters more, whose last two bits are dropped.
pub fn read_condition(s: &[u8]) -> Result<[u8; 32], Stop>
    ensures { result ≡ read_condition s.now }
{
    if s.len() != 43 {
        return Err(stop_of(s));
    }
    let mut bytes = [0u8; 32];
    let (fours, _) = s.as_chunks::<4>();
    for (k, four) in fours.iter().enumerate() {
        let three = group_of(four).ok_or_else(|| stop_of(s))?;
        bytes[k * 3..k * 3 + 3].copy_from_slice(&three);
    }
    // An A, of value 0, fills the last group; its third byte is not taken.
    let last = group_of(&[s[40], s[41], s[42], b'A']).ok_or_else(|| stop_of(s))?;
    bytes[30..].copy_from_slice(&last[..2]);
    Ok(bytes)
}

// The place past a `=` at i, if there is one within the limit.
#[tactic(auto, unfolding(crate::specs::Scan::past_pad))]
fn past_pad(s: &[u8], i: usize) -> usize
    ensures { result ≡ past_pad s.now i }
{
    if i < s.len() && i < 32768 && s[i] == b'=' {
        return i + 1;
    }
    i
}

/// A packet: 1 to 32,768 characters, letters and then at most two `=`.
pub fn read_packet(s: &[u8]) -> Result<(), Stop>
    ensures { result ≡ judge packet_form s.now }
{
    let letters = letters_first(s, 32768);
    if letters == 0 {
        return Err(Stop { at: 0 });
    }
    let padded = past_pad(s, letters);
    let end = past_pad(s, padded);
    if end < s.len() {
        return Err(Stop { at: end });
    }
    Ok(())
}

// The letter of a value below 64.
#[tactic(auto, using(crate::proofs::Table::letter_at))]
fn letter_of(v: u8) -> u8
    requires { v < 64 }
    ensures { result ≡ letter_of v }
{
    LETTER[usize::from(v)]
}

// The letters of three bytes.
fn letters_of(x: u8, y: u8, z: u8) -> [u8; 4]
    ensures { result ≡ map letter_of (four_values x y z) }
{
    [
        letter_of(x / 4),
        letter_of(x % 4 * 16 + y / 16),
        letter_of(y % 16 * 4 + z / 64),
        letter_of(z % 64),
    ]
}

// Stores the text of 32 bytes.
fn put_text(bytes: &[u8], text: &mut [u8; 43])
    requires { length bytes.now ≡ 32 }
    ensures { text.new ≡ condition_text bytes.now }
{
    let (threes, _) = bytes.as_chunks::<3>();
    for (k, [x, y, z]) in threes.iter().enumerate() {
        text[k * 4..k * 4 + 4].copy_from_slice(&letters_of(*x, *y, *z));
    }
    // A third byte of zeros fills the last group; its letter is not written.
    let last = letters_of(bytes[30], bytes[31], 0);
    text[40..].copy_from_slice(&last[..3]);
}

/// The text of a condition or fulfilment; what lies past it in the buffer stays.
#[tactic(auto, using(crate::proofs::Write::text_lengths), unfolding(crate::specs::Condition::write_condition))]
pub fn write_condition(bytes: &[u8], out: &mut [u8]) -> Result<usize, Unwritten>
    ensures { (result ≡ write_condition bytes.now (length out.old))
        × (out.new ≡ buffer_after result (condition_text bytes.now) out.old) }
{
    if bytes.len() != 32 {
        return Err(Unwritten::NotInForm);
    }
    let Some(text) = out.first_chunk_mut::<43>() else {
        return Err(Unwritten::NoRoom);
    };
    put_text(bytes, text);
    Ok(43)
}
