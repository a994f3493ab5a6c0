// Lookup: the record of an id, its own 160 bytes.
#![tactic(auto)]

ghost use Rattle.std.specs.Prelude.{◌≡◌, Some, None, MatchResult};
ghost use Rattle.record.specs.Layout.{num, number_field};
ghost use Rattle.rules.specs.declared.Answer.TheVariants.{Done};
ghost use Rattle.book.specs.Step.{book_of, outcome, record_in};
ghost use Rattle.book.specs.Inner.{kept, Inside};
ghost use Rattle.lookup.specs.Effect.{lookup_step, lookup_place, part_at};

use account::Head;
use book::{Answered, Place};
use rules::Answer;

// Where the record is, or what refuses the call: 21, 1, 11.
fn find(h: Head, opened: &[u8], ended: &[u8], id: &[u8]) -> Result<Place, Answer>
    ensures { let b = book_of h opened.now ended.now in
        MatchResult result
        (λ p. Inside opened.now ended.now p
        × (kept b Done (num number_field (record_in opened.now ended.now p)) ≡ lookup_step b id.now)
        × (Some p ≡ lookup_place b id.now))
        (λ a. (kept b a 0 ≡ lookup_step b id.now) × (None ≡ lookup_place b id.now)) }
{
    if !shape::is_sound(h, opened, ended) {
        return Err(Answer::OutOfShape);
    }
    let Ok(id) = uuid_text::read_id(id) else {
        return Err(Answer::NotInForm);
    };
    book::find(h, opened, ended, id).ok_or(Answer::UnknownId)
}

/// Where the record is; nowhere also where the call is refused.
pub fn place(h: Head, opened: &[u8], ended: &[u8], id: &[u8]) -> Option<Place>
    ensures { result ≡ lookup_place (book_of h opened.now ended.now) id.now }
{
    find(h, opened, ended, id).ok()
}

/// Lookup: 21, 1, 11.
pub fn lookup(h: Head, opened: &[u8], ended: &[u8], id: &[u8]) -> Answered
    ensures { outcome result opened.now ended.now
        ≡ lookup_step (book_of h opened.now ended.now) id.now }
{
    match find(h, opened, ended, id) {
        Ok(place) => {
            let row = book::record_at(opened, ended, place);
            book::reply(h, Answer::Done, record::number_of(row))
        }
        Err(answer) => book::reply(h, answer, 0),
    }
}

/// The record's own bytes, a part of the book that holds it; an empty part where the call is refused.
pub fn part<'a>(h: Head, opened: &'a [u8], ended: &'a [u8], id: &[u8]) -> &'a [u8]
    ensures { result.now ≡ (let b = book_of h opened.now ended.now in part_at b (lookup_place b id.now)) }
{
    match place(h, opened, ended, id) {
        Some(place) => book::record_at(opened, ended, place),
        None => &[],
    }
}
