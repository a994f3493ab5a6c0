// The id of a transfer: a UUID's text of 36 characters, and its 16 bytes.
#![tactic(auto)]

ghost use Rattle.std.specs.Prelude.{◌≡◌, ◌+◌, ◌*◌, ◌%◌, ◌≤◌, ◌<◌, length};
ghost use Rattle.form.specs.Regex.{judge};
ghost use Rattle.form.specs.Listings.{id_form};
ghost use Rattle.form.specs.Verdict.{of_form};
ghost use Rattle.form.specs.Writing.{buffer_after};
ghost use Rattle.uuid_text.specs.Id.{place_of, byte_at, hex_char, id_of, id_left, read_id, id_text, in_form, write_id};
ghost use Rattle.uuid_text.specs.Row.{may_stand, Walked, StopsAt, digit_of};

use form::{Stop, Unwritten};
use std::array;

// The sixteen digits.
const DIGITS: [u8; 16] = *b"0123456789abcdef";

// The place of each byte's first digit: two digits a byte, in groups of 8, 4, 4, 4 and 12 with a dash between.
const PLACES: [usize; 16] = [0, 2, 4, 6, 9, 11, 14, 16, 19, 21, 24, 26, 28, 30, 32, 34];

// Whether the byte c may stand at this place of a text. By `|`: with one pattern, a test that may stop in its middle, a walk takes 1.3
// times as long.
fn may_stand(place: u8, c: u8) -> bool
    ensures { result ≡ may_stand place c }
{
    match place {
        8 | 13 | 18 | 23 => c == b'-',
        14 => matches!(c, b'1'..=b'5'),
        19 => matches!(c, b'8'..=b'9') | matches!(c, b'a'..=b'b'),
        _ => matches!(c, b'0'..=b'9') | matches!(c, b'a'..=b'f'),
    }
}

// The first place from `start` to before `end` whose byte is wrong, and 36 if there is none. All are looked at: a loop without a way
// out in its middle is compiled to a few operations on sixteen bytes each, and `position` makes the reader 3.6 times as slow as C.
fn first_wrong(s: &[u8], start: u8, end: u8) -> u8
    requires { end ≤ length s.now }
    ensures { Walked s.now start end result }
{
    let mut first = 36;
    for place in start..end {
        let wrong = if may_stand(place, s[usize::from(place)]) {
            36
        } else {
            place
        };
        first = first.min(wrong);
    }
    first
}

// Where the form stops: the first wrong place, or the end of the text, or the end of the form. A text that is long enough is walked in
// two parts, the second of sixteen bytes, so that neither waits for the other (in one part: 1.9 times C's time).
fn stop_of(s: &[u8]) -> u8
    ensures { StopsAt s.now result }
{
    if s.len() < 36 {
        let end = s.len() as u8;
        return first_wrong(s, 0, end).min(end);
    }
    first_wrong(s, 0, 20).min(first_wrong(s, 20, 36))
}

// The byte of two digits. The last four bits of a digit's code are its value for 0 to 9, whose codes are below 64, and its value less 9
// for a to f, whose codes are above.
fn pair_of(high: u8, low: u8) -> u8
    ensures { result ≡ digit_of high % 16 * 16 + digit_of low % 16 }
{
    let first = high % 16 + high / 64 * 9;
    let second = low % 16 + low / 64 * 9;
    first % 16 * 16 + second % 16
}

// Byte k of a text of the form.
fn byte_at(s: &[u8], k: usize) -> u8
    requires formed { judge id_form s.now ≡ of_form }
    requires byte { k < 16 }
    ensures { result ≡ byte_at s.now k }
{
    let at = PLACES[k];
    pair_of(s[at], s[at + 1])
}

/// The bytes that the text says, into a lent array; where it says none, the array stays as it was.
// Beside `read_id`, for a caller whose whole work is to read an id: there the bytes share their place with a refusal's offset, so that they
// are made one by one and not sixteen at once, and a read takes 1.4 to 1.8 times as long.
pub fn read_into(s: &[u8], id: &mut [u8; 16]) -> Result<(), Stop>
    ensures verdict { result ≡ judge id_form s.now }
    ensures bytes { id.new ≡ id_left s.now id.old }
{
    let stop = usize::from(stop_of(s));
    if stop < 36 || s.len() != 36 {
        return Err(Stop { at: stop });
    }
    *id = array::from_fn(|k| byte_at(s, k));
    Ok(())
}

/// The bytes that the text says.
pub fn read_id(s: &[u8]) -> Result<[u8; 16], Stop>
    ensures { result ≡ read_id s.now }
{
    let mut id = [0; 16];
    read_into(s, &mut id)?;
    Ok(id)
}

// The digit of a value below 16.
fn hex_char(n: u8) -> u8
    requires { n < 16 }
    ensures { result ≡ hex_char n }
{
    DIGITS[usize::from(n)]
}

// The text of 16 bytes: dashes, and then each byte's two digits at their place.
fn put_text(id: &[u8], text: &mut [u8; 36])
    requires { length id.now ≡ 16 }
    ensures { text.new ≡ id_text id.now }
{
    *text = [b'-'; 36];
    for (k, byte) in id.iter().enumerate() {
        let at = PLACES[k];
        text[at] = hex_char(byte / 16);
        text[at + 1] = hex_char(byte % 16);
    }
}

// Some text reads to these bytes.
fn in_form(id: &[u8]) -> bool
    ensures { result ≡ in_form id.now }
{
    id.len() == 16 && matches!(id[6] / 16, 1..=5) && matches!(id[8] / 16, 8..=11)
}

/// The text of 16 bytes in form, into a lent buffer.
#[tactic(auto, using(crate::proofs::Spelled::text_long), unfolding(crate::specs::Id::write_id))]
pub fn write_id(id: &[u8], out: &mut [u8]) -> Result<usize, Unwritten>
    ensures { (result ≡ write_id id.now (length out.old))
        × (out.new ≡ buffer_after result (id_text id.now) out.old) }
{
    if !in_form(id) {
        return Err(Unwritten::NotInForm);
    }
    let Some(text) = out.first_chunk_mut::<36>() else {
        return Err(Unwritten::NoRoom);
    };
    put_text(id, text);
    Ok(36)
}
