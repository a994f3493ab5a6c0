// Lookup: its answer, and where the record is, asked for apart.
ghost use Rattle.std.specs.Prelude.{◌≡◌};
ghost use Rattle.lookup.specs.Effect.{lookup_step};
ghost use Rattle.vaikshurd.specs.Face.{called, place_word, place_left};
ghost use Rattle.vaikshurd.specs.Inner.{Low};

use crate::answers::packed;
use book::Place;
use rules::Answer;

// Lookup: 21, 1, 11.
#[unsafe(no_mangle)]
pub extern "C" fn vaik_lookup(head: &[u8], opened: &[u8], ended: &[u8], id: &[u8]) -> u64
    ensures { result
        ≡ (called head.now opened.now ended.now (λ b. lookup_step b id.now)).answer }
{
    if !head_form::is_formed(head) {
        return packed(Answer::OutOfShape, 0);
    }
    let h = head_form::decode(head);
    let r = lookup::lookup(h, opened, ended, id);
    packed(r.answer, r.mark)
}

// The book in the high half, 1 the open and 2 the finished one, and the record's first byte in the low half.
fn place_word(found: Option<Place>) -> u64
    requires { Low found }
    ensures { result ≡ place_word found }
{
    match found {
        Some(Place::Opened(k)) => 4294967296 + (k as u64) * 160,
        Some(Place::Ended(k)) => 8589934592 + (k as u64) * 160,
        None => 0,
    }
}

// Where the record is; 0 where the lookup is refused.
#[unsafe(no_mangle)]
pub extern "C" fn vaik_lookup_place(head: &[u8], opened: &[u8], ended: &[u8], id: &[u8]) -> u64
    ensures { result ≡ place_left head.now opened.now ended.now id.now }
{
    if head_form::is_formed(head) {
        let h = head_form::decode(head);
        return place_word(lookup::place(h, opened, ended, id));
    }
    0
}
