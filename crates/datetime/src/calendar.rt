// The Gregorian calendar without tables: the number of a date's day, and the date of a day's number.
ghost use Rattle.std.specs.Prelude.{◌≡◌, cond, eqb, ◌+◌, ◌-◌, ◌*◌, ◌/◌, ◌%◌, ◌≤◌, ◌<◌};
ghost use Rattle.datetime.specs.Calendar.{year_days, month_days, before, day_number};
ghost use Rattle.datetime.specs.Calendar.{last_begun, year_of, month_of, day_of};
ghost use Rattle.datetime.specs.Plain.{leap_in, month_length, even_day, before_century};

// A year: its century, counted from 0, and its place in it.
#[derive(Clone, Copy)]
pub struct Year {
    pub century: u64,
    pub place: u64,
    ghost in_range: { (century ≤ 99) × (place ≤ 99) },
}

#[derive(Clone, Copy)]
pub struct Date {
    pub year: Year,
    pub month: u64,
    pub day: u64,
    ghost in_range: { (1 ≤ month) × (month ≤ 12) × (1 ≤ day) × (day ≤ 31) },
}

impl Year {
    pub fn is_leap(self) -> bool
        ensures { result ≡ leap_in (eqb (self.century % 4) 0) self.place }
    {
        (self.place % 4 == 0) & ((self.century % 4 == 0) | (self.place != 0))
    }

    // The days before it: a leap day for each fourth year of the century that began, but for a first year without it.
    fn days_before(self) -> u64
        ensures { (result ≡ before year_days (self.century * 100 + self.place)) × (result ≤ 3800000) }
    {
        let first_lacks = (self.century % 4 != 0) & (self.place != 0);
        before_century(self.century) + (365 * self.place + (self.place + 3) / 4)
            - u64::from(first_lacks)
    }
}

impl Date {
    // The number of its day. Inlined: a call would take the date through memory, and a text is read 1.1 times slower.
    #[inline(always)]
    pub fn number(self) -> u64
        ensures { (result ≡ day_number (self.year.century * 100 + self.year.place) self.month self.day) ×
            (result < 4000000) }
    {
        self.year.days_before() + before_month(self.year.is_leap(), self.month) + (self.day - 1)
    }
}

// The days of a month: 31 and 30 by turns, beginning again in August.
pub fn month_days(l: bool, m: u64) -> u64
    requires { m < 256 }
    ensures { (result ≡ month_length l m) × (result ≤ 31) }
{
    if m == 2 {
        return 28 + u64::from(l);
    }
    30 + (m + m / 8) % 2
}

// The days before a century: a leap day for each fourth year but the hundredths, and for each fourth century that began.
fn before_century(c: u64) -> u64
    requires { c ≤ 99 }
    ensures { (result ≡ before_century c) × (result ≤ 3700000) }
{
    36524 * c + (c + 3) / 4
}

// The days that February lacks of 30.
fn lack(l: bool) -> u64
    ensures { (result ≡ cond l 1 2) × (result ≤ 2) }
{
    2 - u64::from(l)
}

// The days of the year before a month. Were February 30 days long, 367 / 12 would give them for every month.
fn before_month(l: bool, m: u64) -> u64
    requires { (1 ≤ m) × (m ≤ 12) }
    ensures { (result ≡ before (month_days l) m) × (result ≤ 335) }
{
    let even = (367 * m + 10) / 12 - 31;
    let less = lack(l);
    if m <= 2 {
        return even;
    }
    even - less
}

// The century of a day: 146,097 days are four.
fn century_of(n: u64) -> u64
    requires { (365243 ≤ n) × (n < 3652425) }
    ensures { (result ≡ 4 * n / 146097) × (result ≤ 99) × (before_century result ≤ n) }
{
    4 * n / 146097
}

// A day of a century, after a day is put in where its first year lacks one.
fn filled(c: u64, day: u64) -> u64
    requires { day < 4000000 }
    ensures { (result ≡ cond (eqb (c % 4) 0) day (day + 1)) × (result ≤ 4000000) }
{
    day + u64::from(c % 4 != 0)
}

// The year of a day: 1,461 days of a century that was filled are four.
fn year_of(n: u64) -> Year
    requires { (365243 ≤ n) × (n < 3652425) }
    ensures { result.century * 100 + result.place ≡ year_of n }
{
    let century = century_of(n);
    let day = n - before_century(century);
    let place = 4 * filled(century, day) / 1461;
    Year { century, place }
}

// A day's place in the year, as if February had 30 days.
fn evened(l: bool, k: u64) -> u64
    requires { k < cond l 366 365 }
    ensures { (result ≡ even_day l k) × (result < 367) }
{
    let more = lack(l);
    if k < 61 - more {
        return k;
    }
    k + more
}

// The month of the day at the place k of the year.
fn month_of(l: bool, k: u64) -> u64
    requires { k < cond l 366 365 }
    ensures { (result ≡ last_begun (month_days l) k 12) × (1 ≤ result) × (result ≤ 12) }
{
    (12 * evened(l, k) + 373) / 367
}

// And its day of the month: what is left there, by twelfths.
fn day_of(l: bool, k: u64) -> u64
    requires { k < cond l 366 365 }
    ensures { (result ≡ k - before (month_days l) (last_begun (month_days l) k 12) + 1) × (1 ≤ result) ×
        (result ≤ 31) }
{
    (12 * evened(l, k) + 373) % 367 / 12 + 1
}

pub fn date_of(n: u64) -> Date
    requires { (365243 ≤ n) × (n < 3652425) }
    ensures { (result.year.century * 100 + result.year.place ≡ year_of n) × (result.month ≡ month_of n) ×
        (result.day ≡ day_of n) }
{
    let year = year_of(n);
    let l = year.is_leap();
    let k = n - year.days_before();
    let month = month_of(l, k);
    let day = day_of(l, k);
    Date { year, month, day }
}
