// Fulfil: the payee shows the fulfilment, and the transfer is committed.
#![tactic(auto)]

ghost use Rattle.std.specs.Prelude.{◌≡◌, true, false, cond, List, ℕ, MatchResult};
ghost use Rattle.octets.specs.Parts.{same as is_same};
ghost use Rattle.uuid_text.specs.Id.{id_of};
ghost use Rattle.record.specs.Layout.{get, condition_field};
ghost use Rattle.rules.specs.declared.Answer.TheVariants.{Done, NoMatch};
ghost use Rattle.rules.specs.Calls.{fulfil as fulfil_call, in_form, condition_of, condition_for};
ghost use Rattle.shape.specs.Reading.{transfer_of};
ghost use Rattle.book.specs.Step.{book_of, outcome};
ghost use Rattle.fulfil.specs.Effect.{fulfil_step};
ghost use Rattle.fulfil.specs.Inner.{by_state};

use account::Head;
use book::Answered;
use form::Stop;
use record::{Ending, Row};
use rules::Answer;

// The condition is the fulfilment's SHA-256.
fn matching(row: &Row, fulfilment: [u8; 32]) -> Answer
    ensures { result ≡ cond (is_same (condition_for fulfilment) (get condition_field row.now)) Done NoMatch }
{
    if sha256::hash(&fulfilment)[..] == row[40..72] {
        Answer::Done
    } else {
        Answer::NoMatch
    }
}

// COMMITTED: 24 or 6. Expired: 7. Aborted by the payee: 13. RESERVED: 14, or 0.
fn by_state(row: &Row, fulfilment: [u8; 32]) -> Answer
    ensures { (names : List (List ℕ)) → result ≡ by_state fulfilment (transfer_of names row.now) }
{
    match row[16] {
        record::RESERVED => matching(row, fulfilment),
        record::COMMITTED => book::resend(row[72..104] == fulfilment[..]),
        _ if row[19] == record::BY_PAYEE => Answer::EndedAnotherWay,
        _ => Answer::Expired,
    }
}

// The id and the fulfilment that the texts say, all three in form.
#[tactic(auto, unfolding(uuid_text::specs::Id::read_id, base64url::specs::Condition::read_condition))]
fn fields(sender: &[u8], id: &[u8], fulfilment: &[u8]) -> Result<([u8; 16], [u8; 32]), Stop>
    ensures { MatchResult result
        (λ v. (in_form (fulfil_call sender.now id.now fulfilment.now) ≡ true)
        × (id_of id.now ≡ v.0) × (condition_of fulfilment.now ≡ v.1))
        (λ _. in_form (fulfil_call sender.now id.now fulfilment.now) ≡ false) }
{
    tokens::read_name(sender)?;
    let id = uuid_text::read_id(id)?;
    let fulfilment = base64url::read_condition(fulfilment)?;
    Ok((id, fulfilment))
}

/// Fulfil: 21, 1, 11, 12, then by the state; committed, the payee's position falls by the amount.
pub fn fulfil(
    h: Head,
    opened: &mut [u8],
    ended: &mut [u8],
    sender: &[u8],
    id: &[u8],
    fulfilment: &[u8],
) -> Answered
    ensures { outcome result opened.new ended.new ≡ fulfil_step (book_of h opened.old ended.old)
        sender.now id.now fulfilment.now }
{
    if !shape::is_sound(h, opened, ended) {
        return book::reply(h, Answer::OutOfShape, 0);
    }
    let Ok(read) = fields(sender, id, fulfilment) else {
        return book::reply(h, Answer::NotInForm, 0);
    };
    let (id, fulfilment) = read;
    let rule = |row: &Row| by_state(row, fulfilment);
    let d = book::decide(h, opened, ended, sender, id, rule);
    let ending = Ending::committed(fulfilment);
    book::carry_out(h, opened, ended, d, record::payee_of, ending)
}
