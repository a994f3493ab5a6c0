// Open: both books and the account places are filled with zeros, and the head has the currency and the first book time.
#![tactic(auto)]

ghost use Rattle.std.specs.Prelude.{◌≡◌, ◌&&◌, true, false, MatchResult, length};
ghost use Rattle.form.specs.Listings.{currency_form, date_time_form};
ghost use Rattle.datetime.specs.Instant.{instant_of};
ghost use Rattle.rules.specs.Calls.{is_of};
ghost use Rattle.book.specs.Step.{book_of, outcome};
ghost use Rattle.open_book.specs.Effect.{open_step};
ghost use Rattle.open_book.specs.Inner.{records_in, fresh_for};

use account::{BLANK, Head};
use book::Answered;
use form::Stop;
use rules::Answer;

// "An open book (1 to 1,024 records) and a finished book (1 to 65,535)": 01's numbers, which the shape tests too and says where it does.
const MOST_SLOTS: u16 = 1_024;

const MOST_PLACES: u16 = 65_535;

// How many records a book of so many bytes has: whole ones, 1 to so many at most.
fn records_in(bytes: usize, most: u16) -> Option<u16>
    ensures { result ≡ records_in most bytes }
{
    let records = u16::try_from(bytes / 160).ok()?;
    (bytes % 160 == 0 && (1..=most).contains(&records)).then_some(records)
}

// The head of a book afresh, where both books have room for so many records.
#[tactic(auto, unfolding(octets::specs::Parts::zeros))]
fn fresh(opened: usize, ended: usize, currency: &[u8], time: i64) -> Option<Head>
    requires { length currency.now ≡ 3 }
    ensures { result ≡ fresh_for opened ended currency.now time }
{
    let slots = records_in(opened, MOST_SLOTS)?;
    let places = records_in(ended, MOST_PLACES)?;
    let mut letters = [0; 3];
    letters.copy_from_slice(currency);
    Some(Head {
        accounts: [BLANK; 32],
        count: 0,
        currency: letters,
        time,
        slots,
        places,
        finished: 0,
    })
}

// The book time, where both fields are in form.
#[tactic(auto, unfolding(datetime::specs::Instant::read_date_time))]
fn read_fields(currency: &[u8], time: &[u8]) -> Result<i64, Stop>
    ensures { let fit = is_of currency_form currency.now && is_of date_time_form time.now in
        MatchResult result (λ t. (fit ≡ true) × (t ≡ instant_of time.now)) (λ _. fit ≡ false) }
{
    tokens::read_currency(currency)?;
    datetime::read_datetime(time)
}

// Open: 1, 20. Refused, it gives back the head that it was given.
pub fn open_book(
    h: Head,
    opened: &mut [u8],
    ended: &mut [u8],
    currency: &[u8],
    time: &[u8],
) -> Answered
    ensures { outcome result opened.new ended.new
        ≡ open_step (book_of h opened.old ended.old) currency.now time.now }
{
    let Ok(instant) = read_fields(currency, time) else {
        return book::reply(h, Answer::NotInForm, 0);
    };
    let Some(next) = fresh(opened.len(), ended.len(), currency, instant) else {
        return book::reply(h, Answer::BadLengths, 0);
    };
    opened.fill(0);
    ended.fill(0);
    book::reply(next, Answer::Done, 0)
}
