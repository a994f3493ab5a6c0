// What the calls share: an answer with the head that it leaves, the record of an id, the payee's own word, the end of a record.
#![tactic(auto)]

ghost use Rattle.std.specs.Prelude.{◌≡◌, ◌*◌, ◌≤◌, length, get_or, []};
ghost use Rattle.std.specs.Fn.{FnReturnsAt};
ghost use Rattle.std.proofs.lemmas.List.Edits.{sets};
ghost use Rattle.octets.specs.Lists.{index};
ghost use Rattle.octets.specs.Parts.{same, zeros};
ghost use Rattle.record.specs.Layout.{num, ended_row, payee_field};
ghost use Rattle.record.specs.Rows.{rows, row, holds};
ghost use Rattle.rules.specs.declared.Answer.{Answer};
ghost use Rattle.rules.specs.View.{Transfer};
ghost use Rattle.shape.specs.Reading.{names_of};
ghost use Rattle.shape.specs.Sound.{Sound};
ghost use Rattle.book.specs.Step.{book_of, outcome, where_is, record_in};
ghost use Rattle.book.specs.Ending.{settled as settled_head};
ghost use Rattle.book.specs.Inner.{resent, first_of, InBooks, Inside, PayeeNamed, ByState, Decided};
ghost use Rattle.book.specs.Inner.{CanSettle, CanEnd, CanCarryOut, CarriesOut};

use account::Head;
use record::{Ending, Row};
use rules::Answer;

/// What a call hands back beside the bytes that it was lent.
#[derive(Clone, Copy)]
pub struct Answered {
    pub answer: Answer,
    pub mark: u32,
    pub head: Head,
}

/// What is decided with the books as they are; the slot counts where the answer is 0.
// No enum of done and refused: a rule has 0 among its answers, so each would be taken apart here and put together again in `Answered`.
#[derive(Clone, Copy)]
pub struct Decision {
    pub answer: Answer,
    pub mark: u32,
    pub slot: usize,
}

/// Where the record of an id is: a slot of the open book, or a place of the finished book.
#[derive(Clone, Copy, Debug, PartialEq, Eq)]
pub enum Place {
    Opened(usize),
    Ended(usize),
}

pub fn reply(h: Head, answer: Answer, mark: u32) -> Answered
    ensures { result ≡ record { answer = answer; mark = mark; head = h } }
{
    Answered {
        answer,
        mark,
        head: h,
    }
}

pub fn decided(answer: Answer, mark: u32, slot: usize) -> Decision
    ensures { result ≡ record { answer = answer; mark = mark; slot = slot } }
{
    Decision { answer, mark, slot }
}

/// The same content again, or another.
pub fn resend(same: bool) -> Answer
    ensures { result ≡ resent same }
{
    if same {
        Answer::Resend
    } else {
        Answer::OtherContent
    }
}

// The first of n records of a book that has an id.
fn first(book: &[u8], n: u16, id: [u8; 16]) -> Option<usize>
    requires { n * 160 ≤ length book.now }
    ensures { result ≡ first_of (index (holds id) (rows n book.now)) n }
{
    record::find(&record::records(book)[..usize::from(n)], id)
}

// The head and the two books go as three parameters, no struct: C lends a book that is written to, and each call would make a second one of
// the same three for what only reads.
/// The record of an id: the open book's lowest slot counts first, then the lowest finished place.
pub fn find(h: Head, opened: &[u8], ended: &[u8], id: [u8; 16]) -> Option<Place>
    requires { InBooks (book_of h opened.now ended.now) }
    ensures { result ≡ where_is (book_of h opened.now ended.now) id }
{
    first(opened, h.slots, id)
        .map(Place::Opened)
        .or_else(|| first(ended, h.finished, id).map(Place::Ended))
}

/// The record's own bytes, in whichever book holds it.
pub fn record_at<'a>(opened: &'a [u8], ended: &'a [u8], place: Place) -> &'a Row
    requires { Inside opened.now ended.now place }
    ensures { result.now ≡ record_in opened.now ended.now place }
{
    match place {
        Place::Opened(k) => &record::records(opened)[k],
        Place::Ended(k) => &record::records(ended)[k],
    }
}

// Whether the sender is the payee of a record.
fn is_payee(h: Head, row: &Row, sender: &[u8]) -> bool
    requires { PayeeNamed h row.now }
    ensures { result ≡ same (get_or (names_of h) (num payee_field row.now) []) sender.now }
{
    account::is_named(h.accounts[record::payee_of(row)], sender)
}

/// What is decided on the record of an id, of which only the payee may say more: 11, 12, or the answer by its state.
pub fn decide<R: Fn(&Row) -> Answer>(
    h: Head,
    opened: &[u8],
    ended: &[u8],
    sender: &[u8],
    id: [u8; 16],
    by_state: R,
) -> Decision
    requires sound { Sound (book_of h opened.now ended.now) }
    requires rule { R.IsAlwaysCallable by_state }
    ensures { (rule : Transfer → Answer) → ByState (FnReturnsAt R.Fn by_state) (names_of h) rule
        → Decided (book_of h opened.now ended.now) sender.now id rule result }
{
    let Some(place) = find(h, opened, ended, id) else {
        return decided(Answer::UnknownId, 0, 0);
    };
    let row = record_at(opened, ended, place);
    let mark = record::number_of(row);
    if !is_payee(h, row, sender) {
        return decided(Answer::NotThePayee, mark, 0);
    }
    let slot = match place {
        Place::Opened(slot) => slot,
        Place::Ended(_) => 0,
    };
    decided(by_state(row), mark, slot)
}

// The head when a record ends: the party's position falls by the record's amount, and one record more is finished.
fn settle(h: Head, row: &Row, party: usize) -> Head
    requires { CanSettle h party row.now }
    ensures { result ≡ settled_head h party row.now }
{
    let position = h.accounts[party].position.lowered(record::amount_of(row));
    let mut next = account::with_position(h, party, position);
    next.finished = h.finished + 1;
    next
}

/// The record of a slot ends: the position of the party, an account number, falls, and the record moves to the next place of the
/// finished book.
pub fn end_record(
    h: Head,
    opened: &mut [u8],
    ended: &mut [u8],
    slot: usize,
    party: usize,
    e: Ending,
) -> Head
    requires { CanEnd (book_of h opened.old ended.old) slot party }
    ensures { (result ≡ settled_head h party (row opened.old slot))
        × (opened.new ≡ sets opened.old (slot * 160) (zeros 160))
        × (ended.new ≡ sets ended.old (h.finished * 160)
        (ended_row e.state e.by e.code e.fulfilment (row opened.old slot))) }
{
    let next = settle(h, &record::records(opened)[slot], party);
    record::move_ended(opened, ended, slot, usize::from(h.finished), e);
    next
}

/// What is decided is carried out: where it is 0 the record of the slot ends, and the position of the party that it names falls.
pub fn carry_out<P: Fn(&Row) -> usize>(
    h: Head,
    opened: &mut [u8],
    ended: &mut [u8],
    d: Decision,
    party: P,
    e: Ending,
) -> Answered
    requires number { P.IsAlwaysCallable party }
    requires ends { CanCarryOut (FnReturnsAt P.Fn party) (book_of h opened.old ended.old) d }
    ensures { CarriesOut (FnReturnsAt P.Fn party) (book_of h opened.old ended.old) d
        (ended_row e.state e.by e.code e.fulfilment) (outcome result opened.new ended.new) }
{
    if !d.answer.is_done() {
        return reply(h, d.answer, d.mark);
    }
    let account = party(&record::records(opened)[d.slot]);
    let next = end_record(h, opened, ended, d.slot, account, e);
    reply(next, d.answer, d.mark)
}
