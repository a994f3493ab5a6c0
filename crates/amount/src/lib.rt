// The Amount text of 001, 4.2.13: read to whole units and ten-thousandths, and written back.
#![tactic(auto)]

ghost use Rattle.std.specs.Prelude.{◌≡◌, ℕ, ◌+◌, ◌-◌, ◌*◌, ◌≤◌, ◌<◌, ◌^◌, ◌++◌, length, drop, get_or};
ghost use Rattle.std.proofs.lemmas.List.Edits.{sets};
ghost use Rattle.octets.specs.Decimal.{in_digits};
ghost use Rattle.form.specs.Writing.{buffer_after};
ghost use Rattle.amount.specs.Amount.{read_amount, whole_text, fraction_text, amount_text, write_amount};
ghost use Rattle.amount.specs.Rest.{whole_rest, places_rest, ReadTo};
ghost use Rattle.amount.specs.Digits.{pointed, Tables};

use form::{Stop, Unwritten};

// So many whole units and ten-thousandths of a unit.
#[derive(Clone, Copy, Debug, PartialEq, Eq, PartialOrd, Ord)]
pub struct Amount {
    pub units: u64,
    pub remainder: u16,
}

// The digits before the point: their number, and the offset of the first byte past them.
#[derive(Clone, Copy)]
struct Whole {
    units: u64,
    end: usize,
}

// The digits after the point, with no 0 at the end: so many places of a number.
#[derive(Clone, Copy)]
struct Places {
    number: u64,
    count: usize,
}

// The amount that the text says.
pub fn read_amount(s: &[u8]) -> Result<Amount, Stop>
    ensures { result ≡ read_amount s.now }
{
    match s.first() {
        Some(b'0'..=b'9') => {
            let Whole { units, end } = whole_digits(s);
            after_whole(s, end, units)
        }
        _ => Err(Stop { at: 0 }),
    }
}

// The whole part of a text that begins with a digit: a 0 alone, or at most 18 digits.
fn whole_digits(s: &[u8]) -> Whole
    requires { (0 < length s.now) × (48 ≤ get_or s.now 0 0) × (get_or s.now 0 0 ≤ 57) }
    ensures { ReadTo result.end result.units s.now }
{
    let first = s[0];
    if first == b'0' {
        return Whole { units: 0, end: 1 };
    }
    let limit = s.len().min(18);
    // `as`, here and in the other sums: a `From` would be a call more in each turn of the loop.
    let mut units = (first - b'0') as u64;
    for i in 1..limit {
        let b = s[i];
        if (b < b'0') | (b'9' < b) {
            return Whole { units, end: i };
        }
        units = units * 10 + (b - b'0') as u64;
    }
    Whole { units, end: limit }
}

// No digit may follow: the text ends, or the point comes.
fn after_whole(s: &[u8], end: usize, units: u64) -> Result<Amount, Stop>
    requires { end ≤ length s.now }
    ensures { result ≡ whole_rest 0 end units (drop end s.now) }
{
    match s.get(end) {
        None => Ok(Amount {
            units,
            remainder: 0,
        }),
        Some(b'.') => after_point(s, end + 1, units),
        Some(_) => Err(Stop { at: end }),
    }
}

// One to four digits up to the end of the text, the last not 0.
fn after_point(s: &[u8], from: usize, units: u64) -> Result<Amount, Stop>
    requires { from ≤ length s.now }
    ensures { result ≡ places_rest 4 46 from units 0 (drop from s.now) }
{
    let mut remainder: u16 = 0;
    // What a digit counts for in the next place, divided on by ten: 0 where no place is left.
    let mut weight: u16 = 1000;
    let mut last = b'.';
    for i in from..s.len() {
        let b = s[i];
        if weight == 0 {
            return Err(Stop { at: i });
        }
        if (b < lowest(weight)) | (b'9' < b) {
            return Err(Stop { at: i });
        }
        remainder += (b - b'0') as u16 * weight;
        weight /= 10;
        last = b;
    }
    if last <= b'0' {
        return Err(Stop { at: s.len() });
    }
    Ok(Amount { units, remainder })
}

// The lowest digit that may stand in a place of this weight: the last of four is not 0.
fn lowest(weight: u16) -> u8
    ensures { (48 ≤ result) × (result ≤ 49) × (weight ≡ 1 → result ≡ 49) × ((weight ≡ 1 → ⊥) → result ≡ 48) }
{
    if weight == 1 {
        return b'1';
    }
    b'0'
}

// The text of the amount, from the first byte of the buffer.
pub fn write_amount(a: Amount, out: &mut [u8]) -> Result<usize, Unwritten>
    ensures { (result ≡ write_amount a (length out.old))
        × (out.new ≡ buffer_after result (amount_text a) out.old) }
{
    let Amount { units, remainder } = a;
    if (1_000_000_000_000_000_000 <= units) | (10_000 <= remainder) {
        return Err(Unwritten::NotInForm);
    }
    let whole = digit_count(units);
    let places = trimmed(remainder);
    let length = text_length(whole, places.count);
    if out.len() < length {
        return Err(Unwritten::NoRoom);
    }
    put_text(units, whole, places, out);
    Ok(length)
}

// The number of digits of a whole part.
fn digit_count(n: u64) -> usize
    requires { n < 10 ^ 18 }
    ensures { (result ≤ 18) × (whole_text 18 n ≡ in_digits result n) }
{
    let mut count = 1;
    let mut power: u64 = 1;
    // By hand: a power grows up to the number, and no index is counted.
    while power <= n / 10000 {
        power = power * 10000;
        count += 4;
    }
    while power <= n / 10 {
        power = power * 10;
        count += 1;
    }
    count
}

// The places of so many ten-thousandths, less the zeros at the end.
fn trimmed(remainder: u16) -> Places
    requires { remainder < 10 ^ 4 }
    ensures { (result.count ≤ 4) × (fraction_text remainder ≡ pointed result.count result.number) }
{
    let mut number = remainder as u64;
    let mut count = 4;
    if number == 0 {
        return Places { number, count: 0 };
    }
    // By hand: a number is divided while its last digit is 0, and no index is counted.
    while number % 10 == 0 {
        number /= 10;
        count -= 1;
    }
    Places { number, count }
}

// The length of a text with so many digits before the point and after it.
fn text_length(whole: usize, count: usize) -> usize
    requires { (whole ≤ 18) × (count ≤ 4) }
    ensures { (n : ℕ) → result ≡ whole + length (pointed count n) }
{
    if count == 0 {
        return whole;
    }
    whole + 1 + count
}

// The digits of the whole part, and the point and its places if there are any, into a buffer with room for them.
fn put_text(units: u64, whole: usize, places: Places, out: &mut [u8])
    requires { whole + length (pointed places.count places.number) ≤ length out.old }
    ensures { out.new ≡ sets out.old 0 (in_digits whole units ++ pointed places.count places.number) }
{
    let Places { number, count } = places;
    put_whole(units, out, whole);
    if count == 0 {
        return;
    }
    out[whole] = b'.';
    let from = whole + 1;
    let to = from + count;
    put_digits(number, out, from, to);
}

// The digits of the whole part. Tables pay for themselves only where there are many.
fn put_whole(units: u64, out: &mut [u8], whole: usize)
    requires { whole ≤ length out.old }
    ensures { out.new ≡ sets out.old 0 (in_digits whole units) }
{
    if whole < 9 {
        put_digits(units, out, 0, whole);
        return;
    }
    put_many(units, out, whole);
}

// The same for many digits.
fn put_many(units: u64, out: &mut [u8], whole: usize)
    requires { whole ≤ length out.old }
    ensures { out.new ≡ sets out.old 0 (in_digits whole units) }
{
    // Two texts of a hundred digits: one text of pairs would be no plainer.
    let tens =
        b"0000000000111111111122222222223333333333444444444455555555556666666666777777777788888888889999999999";
    let ones =
        b"0123456789012345678901234567890123456789012345678901234567890123456789012345678901234567890123456789";
    put_pairs(units, out, 0, whole, tens, ones);
}

// The last digits of n into the places from `from` up to `to`, filled from the back.
fn put_digits(n: u64, out: &mut [u8], from: usize, to: usize)
    requires { (from ≤ to) × (to ≤ length out.old) }
    ensures { out.new ≡ sets out.old from (in_digits (to - from) n) }
{
    let mut rest = n;
    for k in (from..to).rev() {
        out[k] = b'0' + (rest % 10) as u8;
        rest /= 10;
    }
}

// The last digits of n into the same places, two at a time, by tables of the digits of each number below 100.
fn put_pairs(n: u64, out: &mut [u8], from: usize, to: usize, tens: &[u8], ones: &[u8])
    requires { (from ≤ to) × (to ≤ length out.old) × Tables tens.now ones.now }
    ensures { out.new ≡ sets out.old from (in_digits (to - from) n) }
{
    let mut rest = n;
    let mut k = to;
    // By hand: two places a turn, from the back, and one may be left over.
    while 1 < k - from {
        let pair = (rest % 100) as usize;
        rest = rest / 100;
        k -= 1;
        out[k] = ones[pair];
        k -= 1;
        out[k] = tens[pair];
    }
    if from < k {
        out[from] = b'0' + (rest % 10) as u8;
    }
}
