// Prepare: the payer's amount is reserved under a new record, in the lowest free slot.
#![tactic(auto)]

mod fields;

ghost use Rattle.std.specs.Prelude.{◌≡◌, ◌*◌, ◌≤◌, ◌<◌, length};
ghost use Rattle.std.proofs.lemmas.List.Edits.{sets};
ghost use Rattle.octets.specs.Lists.{count};
ghost use Rattle.account.specs.Position.{InRange};
ghost use Rattle.account.specs.Head.{Named};
ghost use Rattle.record.specs.Layout.{num, new_row, remainder_field};
ghost use Rattle.rules.specs.declared.Answer.TheVariants.{Done};
ghost use Rattle.rules.specs.Rules.{same_content};
ghost use Rattle.shape.specs.Reading.{names_of, transfer_of, is_taken};
ghost use Rattle.shape.specs.Sound.{Sound};
ghost use Rattle.book.specs.Step.{book_of, outcome};
ghost use Rattle.prepare.specs.Effect.{prepare_step, raised};
ghost use Rattle.prepare.specs.Inner.{said, same_values, Comparable, on_record, parties_at, passes, CanRise};
ghost use Rattle.prepare.specs.Inner.{new_decision, NewRises, decided, CanReserve};

use account::Head;
use book::Answered;
use record::{Content, Row};
use rules::Answer;

/// Who pays whom, and in which currency, as the call names them.
#[derive(Clone, Copy)]
struct Parties<'a> {
    payer: &'a [u8],
    payee: &'a [u8],
    currency: &'a [u8],
}

/// The parties' account numbers.
#[derive(Clone, Copy)]
struct Accounts {
    payer: usize,
    payee: usize,
}

/// Where an accepted prepare writes, and what it is answered with.
#[derive(Clone, Copy)]
struct Reservation {
    accounts: Accounts,
    slot: usize,
    number: u32,
}

/// Why nothing is written, and the number of the record that has the id; 0 where none has.
#[derive(Clone, Copy)]
struct Refusal {
    answer: Answer,
    mark: u32,
}

fn same_values(row: &Row, c: Content) -> bool
    requires { (num remainder_field row.now < 10000) × InRange c.amount }
    ensures { result ≡ same_values row.now c }
{
    record::amount_of(row) == c.amount
        && row[40..72] == c.condition[..]
        && record::expiration_of(row) == c.expiration
        && row[104..136] == c.packet[..]
}

// Whether a record is the same transfer: its parties by their names, its values.
fn same_content(h: Head, row: &Row, parties: Parties, c: Content) -> bool
    requires { Comparable h row.now c }
    ensures { result ≡ same_content (transfer_of (names_of h) row.now).content
        (said parties.entry.payer.now parties.entry.payee.now c) }
{
    account::is_named(h.accounts[record::payer_of(row)], parties.payer)
        && account::is_named(h.accounts[record::payee_of(row)], parties.payee)
        && same_values(row, c)
}

// A slot is taken if its state is not 0.
fn is_taken(row: &Row) -> bool
    ensures { result ≡ is_taken row.now }
{
    row[16] != 0
}

// How many slots are taken.
fn taken(slots: &[Row]) -> usize
    ensures { result ≡ count is_taken slots.now }
{
    slots.iter().filter(|row| is_taken(row)).count()
}

fn passes_cap(h: Head, payer: usize, c: Content) -> bool
    requires { CanRise h payer c.amount }
    ensures { result ≡ passes h payer c.amount }
{
    let payer = h.accounts[payer];
    !payer.position.raised(c.amount).is_at_most(payer.cap)
}

// An id that no book holds: the answer on the parties, or 7, 8, 9, 10.
fn decide_new(
    h: Head,
    opened: &[u8],
    parties: Result<Accounts, Answer>,
    c: Content,
) -> Result<Reservation, Answer>
    requires { (h.slots * 160 ≤ length opened.now) × NewRises h parties c.amount }
    ensures { result ≡ new_decision h opened.now parties c }
{
    let accounts = parties?;
    if c.expiration <= h.time {
        return Err(Answer::Expired);
    }
    let slots = &record::records(opened)[..usize::from(h.slots)];
    let Some(slot) = record::free_slot(slots) else {
        return Err(Answer::OpenBookFull);
    };
    let records = taken(slots) + usize::from(h.finished);
    if usize::from(h.places) <= records {
        return Err(Answer::NoPlaceLeft);
    }
    if passes_cap(h, accounts.payer, c) {
        return Err(Answer::CapPassed);
    }
    Ok(Reservation {
        accounts,
        slot,
        number: records as u32 + 1,
    })
}

// An id that a book holds: the answer on the parties, or 24, 6; in any case with that record's number.
fn on_record(
    h: Head,
    row: &Row,
    names: Parties,
    c: Content,
    parties: Result<Accounts, Answer>,
) -> Refusal
    requires { Comparable h row.now c }
    ensures { result ≡ on_record h row.now names.entry.payer.now names.entry.payee.now c parties }
{
    let answer = match parties {
        Ok(_) => book::resend(same_content(h, row, names, c)),
        Err(answer) => answer,
    };
    Refusal {
        answer,
        mark: record::number_of(row),
    }
}

// 2, 3, 4, 5; else the parties' account numbers.
fn decide_parties(h: Head, parties: Parties) -> Result<Accounts, Answer>
    requires { Named h }
    ensures { result ≡ parties_at h parties.entry.payer.now parties.entry.payee.now
        parties.entry.currency.now }
{
    let Some(payer) = account::place_of(h, parties.payer) else {
        return Err(Answer::NoPayer);
    };
    let Some(payee) = account::place_of(h, parties.payee) else {
        return Err(Answer::NoPayee);
    };
    if parties.payer == parties.payee {
        return Err(Answer::PayerIsPayee);
    }
    if parties.currency != h.currency.as_slice() {
        return Err(Answer::OtherCurrency);
    }
    Ok(Accounts { payer, payee })
}

// 2, 3, 4, 5; 24 or 6 if the id is held; 7, 8, 9, 10.
fn decide(
    h: Head,
    opened: &[u8],
    ended: &[u8],
    names: Parties,
    c: Content,
) -> Result<Reservation, Refusal>
    requires { Sound (book_of h opened.now ended.now) × InRange c.amount }
    ensures { result ≡ decided (book_of h opened.now ended.now) names.entry.payer.now
        names.entry.payee.now names.entry.currency.now c }
{
    let parties = decide_parties(h, names);
    let Some(place) = book::find(h, opened, ended, c.id) else {
        return decide_new(h, opened, parties, c).map_err(|answer| Refusal { answer, mark: 0 });
    };
    let row = book::record_at(opened, ended, place);
    Err(on_record(h, row, names, c, parties))
}

// The payer's position rises, and the record is written from the first byte of its slot.
fn reserve(h: Head, opened: &mut [u8], c: Content, r: Reservation) -> Answered
    requires { CanReserve h opened.old c r }
    ensures { (result ≡ record { answer = Done; mark = r.number; head = raised h r.accounts.payer c })
        × (opened.new ≡ sets opened.old (r.slot * 160) (new_row c r.accounts.payer r.accounts.payee r.number)) }
{
    let payer = r.accounts.payer;
    let payee = r.accounts.payee;
    let position = h.accounts[payer].position.raised(c.amount);
    let next = account::with_position(h, payer, position);
    let at = r.slot * 160;
    record::write_new(
        &mut opened[at..at + 160],
        c,
        payer as u8,
        payee as u8,
        r.number,
    );
    book::reply(next, Answer::Done, r.number)
}

// Prepare: 21, 1, 2, 3, 4, 5; 24 or 6 if the id is held; 7, 8, 9, 10.
// Head, books and texts come one by one, as a host lends them and as the promise names them.
pub fn prepare(
    h: Head,
    opened: &mut [u8],
    ended: &[u8],
    id: &[u8],
    payer: &[u8],
    payee: &[u8],
    currency: &[u8],
    amount: &[u8],
    condition: &[u8],
    expiration: &[u8],
    packet: &[u8],
) -> Answered
    ensures { outcome result opened.new ended.now ≡ prepare_step (book_of h opened.old ended.now)
        (record {
          id = id.now;
          payer = payer.now;
          payee = payee.now;
          currency = currency.now;
          amount = amount.now;
          condition = condition.now;
          expiration = expiration.now;
          packet = packet.now;
        }) }
{
    if !shape::is_sound(h, opened, ended) {
        return book::reply(h, Answer::OutOfShape, 0);
    }
    let parties = Parties {
        payer,
        payee,
        currency,
    };
    let Ok(c) = fields::content(parties, id, amount, condition, expiration, packet) else {
        return book::reply(h, Answer::NotInForm, 0);
    };
    match decide(h, opened, ended, parties, c) {
        Ok(reservation) => reserve(h, opened, c, reservation),
        Err(refusal) => book::reply(h, refusal.answer, refusal.mark),
    }
}
