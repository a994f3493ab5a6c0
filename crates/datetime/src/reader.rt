// Reading a text, part by part: each part has a value, or no text of the form goes on at a byte of it.
ghost use Rattle.std.specs.Prelude.{◌≡◌, ◌+◌, ◌^◌, ◌≤◌, ◌<◌, IfOk};
ghost use Rattle.std.proofs.Math.IntN.{sub_ℕ};
ghost use Rattle.datetime.specs.Reading.{two, pair_stop, two_digits, marked, date, clock, offset, zoned};
ghost use Rattle.datetime.specs.Reading.{ended as text_ended};

use crate::calendar::{Date, Year, month_days};
use form::Stop;

// 1970-01-01T00:00:00.000Z, in milliseconds from 0000-01-01T00:00:00.000Z.
pub const EPOCH: u64 = 62167219200000;

// The number that two digits show.
fn two(a: u8, b: u8) -> Option<u64>
    ensures { result ≡ two a b }
{
    if a.is_ascii_digit() & b.is_ascii_digit() {
        return Some(u64::from((a - b'0') * 10 + (b - b'0')));
    }
    None
}

// Where two digits stop that show no number from least to most: at the first, unless some such number begins with it.
fn pair_stop(s: &[u8], i: usize, least: u64, most: u64) -> usize
    requires { (i < 100) × (least < 100) × (most < 100) }
    ensures { result ≡ pair_stop s.now i least most }
{
    let tens = u64::from(octets::at(s, i));
    if (48 + least / 10 <= tens) & (tens <= 48 + most / 10) {
        return i + 1;
    }
    i
}

// The number from least to most that two digits show. The text's length is tested once for both.
fn two_digits(s: &[u8], i: usize, least: u64, most: u64) -> Result<u64, Stop>
    requires { (i < 100) × (least < 100) × (most < 100) }
    ensures value { result ≡ two_digits s.now i least most }
    ensures range { IfOk result (λ v. (least ≤ v) × (v ≤ most)) }
{
    if i + 1 < s.len() {
        if let Some(v) = two(s[i], s[i + 1]) {
            if (least <= v) & (v <= most) {
                return Ok(v);
            }
        }
    }
    Err(Stop {
        at: pair_stop(s, i, least, most),
    })
}

// The same with a mark before them.
fn marked(s: &[u8], i: usize, mark: u8, least: u64, most: u64) -> Result<u64, Stop>
    requires { (i < 99) × (least < 100) × (most < 100) }
    ensures value { result ≡ marked s.now i mark least most }
    ensures range { IfOk result (λ v. (least ≤ v) × (v ≤ most)) }
{
    if octets::at(s, i) != mark {
        return Err(Stop { at: i });
    }
    two_digits(s, i + 1, least, most)
}

// The number of the date's day.
pub fn date(s: &[u8]) -> Result<u64, Stop>
    ensures value { result ≡ date s.now }
    ensures range { IfOk result (λ n. n < 4000000) }
{
    let century = two_digits(s, 0, 10, 99)?;
    let place = two_digits(s, 2, 0, 99)?;
    let year = Year { century, place };
    let month = marked(s, 4, b'-', 1, 12)?;
    let day = marked(s, 7, b'-', 1, month_days(year.is_leap(), month))?;
    Ok(Date { year, month, day }.number())
}

// The milliseconds of the day.
pub fn clock(s: &[u8]) -> Result<u64, Stop>
    ensures value { result ≡ clock s.now }
    ensures range { IfOk result (λ n. n < 100000000) }
{
    let hour = marked(s, 10, b'T', 0, 23)?;
    let minute = marked(s, 13, b':', 0, 59)?;
    let second = marked(s, 16, b':', 0, 59)?;
    let hundredth = marked(s, 19, b'.', 0, 99)?;
    let last = octets::at(s, 22);
    if !last.is_ascii_digit() {
        return Err(Stop { at: 22 });
    }
    Ok(hour * 3600000 + minute * 60000 + second * 1000 + (hundredth * 10 + u64::from(last - b'0')))
}

// Nothing goes on after the place n.
fn ended(s: &[u8], n: usize) -> Result<(), Stop>
    ensures { result ≡ text_ended s.now n }
{
    if s.len() != n {
        return Err(Stop { at: n });
    }
    Ok(())
}

// The milliseconds of an offset's hours and minutes, with which the text ends.
fn offset(s: &[u8]) -> Result<u64, Stop>
    ensures value { result ≡ offset s.now }
    ensures range { IfOk result (λ n. n < 100000000) }
{
    let hour = two_digits(s, 24, 0, 19)?;
    let minute = marked(s, 26, b':', 0, 59)?;
    ended(s, 29)?;
    Ok(hour * 3600000 + minute * 60000)
}

// The difference of two counts of milliseconds, which may be negative.
fn difference(up: u64, down: u64) -> i64
    requires { (up < 2 ^ 62) × (down < 2 ^ 62) }
    ensures { result ≡ sub_ℕ up down }
{
    up as i64 - down as i64
}

// The instant, by the text's zone, of so many milliseconds on its own clock.
pub fn zoned(s: &[u8], n: u64) -> Result<i64, Stop>
    requires { n < 2 ^ 61 }
    ensures { result ≡ zoned s.now n }
{
    match octets::at(s, 23) {
        b'Z' => {
            ended(s, 24)?;
            Ok(difference(n, EPOCH))
        }
        b'+' => Ok(difference(n, EPOCH + offset(s)?)),
        b'-' => Ok(difference(n + offset(s)?, EPOCH)),
        _ => Err(Stop { at: 23 }),
    }
}
