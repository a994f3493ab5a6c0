// Whether a book is of the shape: one pass over everything that a call is lent.
#![tactic(auto)]

mod accounts;
mod balance;
mod records;

ghost use Rattle.std.specs.Prelude.{◌≡◌};
ghost use Rattle.shape.specs.Shape.{shape, lengths_ok};
ghost use Rattle.shape.specs.Scan.{open_book_ok, Sized, Judged};

use account::Head;

// Whether the books have the lengths that were noted at opening.
fn lengths_ok(h: Head, opened: &[u8], ended: &[u8]) -> bool
    ensures { result ≡ lengths_ok (record { head = h; opened = opened.now; ended = ended.now }) }
{
    // "An open book (1 to 1,024 records) and a finished book (1 to 65,535)" (01); the places are sixteen bits, so at most 65,535.
    let slots = usize::from(h.slots);
    let places = usize::from(h.places);
    opened.len() == slots * 160
        && 1 <= slots
        && slots <= 1024
        && ended.len() == places * 160
        && 1 <= places
}

// The open book beside the head: its slots, the places that its transfers will want, and the balance.
fn open_ok(h: Head, opened: &[u8]) -> bool
    requires { Sized h.slots opened.now × Judged h }
    ensures { result ≡ open_book_ok h opened.now }
{
    let Some(held) = records::scan_open(record::records(opened), h.count) else {
        return false;
    };
    let Some(sum) = balance::total(h) else {
        return false;
    };
    let places = usize::from(h.places);
    let finished = usize::from(h.finished);
    held.taken + finished <= places && sum == held.reserved.cast_signed()
}

/// Whether the head and the two books fit each other and are of the shape.
#[tactic(auto, using(crate::proofs::Together::together))]
pub fn is_sound(h: Head, opened: &[u8], ended: &[u8]) -> bool
    ensures { result ≡ shape (record { head = h; opened = opened.now; ended = ended.now }) }
{
    lengths_ok(h, opened, ended)
        && (accounts::all_ok(h)
            && (open_ok(h, opened)
                && records::ended_book_ok(ended, usize::from(h.finished), h.count)))
}
