// Join: an FSP gets an account.
#![tactic(auto)]

ghost use Rattle.std.specs.Prelude.{◌≡◌, ◌≤◌, ◌<◌, ◌&&◌, true, false, MatchResult, ltb, length};
ghost use Rattle.form.specs.Listings.{name_form, amount_form};
ghost use Rattle.amount.specs.Amount.{ten_thousandths, amount_of};
ghost use Rattle.account.specs.Position.{worth};
ghost use Rattle.account.specs.Head.{Named};
ghost use Rattle.rules.specs.Calls.{is_of};
ghost use Rattle.rules.specs.Rules.{highest_cap};
ghost use Rattle.book.specs.Step.{book_of, outcome};
ghost use Rattle.join.specs.Effect.{with_account, join_step};
ghost use Rattle.join.specs.Inner.{name_in, account_of, joined};

use account::{Account, HIGHEST_CAP, Head, Position};
use amount::Amount;
use book::Answered;
use form::Stop;
use rules::Answer;

// "The accounts travel with the head by value, at most 32".
const MOST_ACCOUNTS: u8 = 32;

// The name in its place: zeros stand after it.
fn padded(name: &[u8]) -> [u8; 32]
    requires { length name.now ≤ 32 }
    ensures { result ≡ name_in name.now }
{
    let mut place = [0; 32];
    place[..name.len()].copy_from_slice(name);
    place
}

fn too_high(cap: Amount) -> bool
    requires { cap.remainder < 10000 }
    ensures { result ≡ ltb highest_cap (worth cap) }
{
    cap > HIGHEST_CAP
}

// The head with one account more, its position 0.
fn with_account(h: Head, name: &[u8], cap: Amount) -> Head
    requires { (h.count < 32) × (length name.now ≤ 32) }
    ensures { result ≡ with_account h (account_of name.now cap) }
{
    let mut next = h;
    next.accounts[usize::from(h.count)] = Account {
        name: padded(name),
        length: name.len() as u8,
        cap,
        position: Position {
            units: 0,
            remainder: 0,
        },
    };
    next.count += 1;
    next
}

// 19, 17, 18; else the head with the account.
fn joined(h: Head, name: &[u8], cap: Amount) -> Result<Head, Answer>
    requires { Named h × (cap.remainder < 10000) × (length name.now ≤ 32) }
    ensures { result ≡ joined h name.now cap }
{
    if too_high(cap) {
        return Err(Answer::CapTooHigh);
    }
    if account::place_of(h, name).is_some() {
        return Err(Answer::NameHeld);
    }
    if MOST_ACCOUNTS <= h.count {
        return Err(Answer::AccountsFull);
    }
    Ok(with_account(h, name, cap))
}

// The cap, where both fields are in form.
#[tactic(auto, unfolding(amount::specs::Amount::read_amount))]
fn read_fields(name: &[u8], cap: &[u8]) -> Result<Amount, Stop>
    ensures { let fit = is_of name_form name.now && is_of amount_form cap.now in
        MatchResult result
        (λ a. (fit ≡ true) × (a ≡ amount_of (ten_thousandths cap.now)))
        (λ _. fit ≡ false) }
{
    tokens::read_name(name)?;
    amount::read_amount(cap)
}

// Join: 21, 1, 19, 17, 18.
pub fn join(h: Head, opened: &[u8], ended: &[u8], name: &[u8], cap: &[u8]) -> Answered
    ensures { outcome result opened.now ended.now
        ≡ join_step (book_of h opened.now ended.now) name.now cap.now }
{
    if !shape::is_sound(h, opened, ended) {
        return book::reply(h, Answer::OutOfShape, 0);
    }
    let Ok(limit) = read_fields(name, cap) else {
        return book::reply(h, Answer::NotInForm, 0);
    };
    match joined(h, name, limit) {
        Ok(next) => book::reply(next, Answer::Done, 0),
        Err(answer) => book::reply(h, answer, 0),
    }
}
