// The text of an instant: 24 bytes, always with `Z`.
ghost use Rattle.std.specs.Prelude.{◌≡◌, true, ◌+◌, ◌*◌, ◌/◌, ◌≤◌, ◌<◌, ◌+ℤ◌, pos, nat_abs};
ghost use Rattle.datetime.specs.Instant.{last_digit, epoch, civil_on, utc_text, date_time_text, in_years};

use crate::calendar::{Date, Year};
use crate::reader::EPOCH;

// The instants that the writer takes: the years 1000 to 9999 UTC.
pub fn in_years(ms: i64) -> bool
    ensures { result ≡ in_years ms }
{
    (-30610224000000 <= ms) & (ms <= 253402300799999)
}

// Milliseconds from 0000-01-01T00:00:00.000Z.
fn since_zero(ms: i64) -> u64
    requires { in_years ms ≡ true }
    ensures { (result ≡ nat_abs (ms +ℤ pos epoch)) × (31556995200000 ≤ result) ×
        (result < 315569520000000) }
{
    (ms + EPOCH as i64) as u64
}

fn tens(x: u64) -> u8
    requires { x < 100 }
    ensures { result ≡ last_digit (x / 10) }
{
    b'0' + x as u8 / 10
}

fn ones(x: u64) -> u8
    requires { x < 100 }
    ensures { result ≡ last_digit x }
{
    b'0' + x as u8 % 10
}

// A date, and so many milliseconds into the day, spelled.
fn spell(date: Date, t: u64) -> [u8; 24]
    requires { t < 86400000 }
    ensures { result ≡
        utc_text (civil_on (date.year.century * 100 + date.year.place) date.month date.day t) }
{
    let Date { year, month, day } = date;
    let Year { century, place } = year;
    let hour = t / 3600000;
    let minute = t / 60000 % 60;
    let second = t / 1000 % 60;
    let milli = t % 1000;
    let hundredth = milli / 10;
    [
        tens(century),
        ones(century),
        tens(place),
        ones(place),
        b'-',
        tens(month),
        ones(month),
        b'-',
        tens(day),
        ones(day),
        b'T',
        tens(hour),
        ones(hour),
        b':',
        tens(minute),
        ones(minute),
        b':',
        tens(second),
        ones(second),
        b'.',
        tens(hundredth),
        ones(hundredth),
        b'0' + (milli % 10) as u8,
        b'Z',
    ]
}

// The text of an instant that the writer takes.
pub fn text_of(ms: i64) -> [u8; 24]
    requires { in_years ms ≡ true }
    ensures { result ≡ date_time_text ms }
{
    let n = since_zero(ms);
    let day = n / 86400000;
    let t = n % 86400000;
    spell(crate::calendar::date_of(day), t)
}
