// Abort: the payee gives the transfer up, and the payer's amount is released.
#![tactic(auto)]

ghost use Rattle.std.specs.Prelude.{◌≡◌, true, false, List, ℕ, MatchResult};
ghost use Rattle.uuid_text.specs.Id.{id_of};
ghost use Rattle.rules.specs.Calls.{abort as abort_call, in_form, code_of};
ghost use Rattle.shape.specs.Reading.{transfer_of};
ghost use Rattle.book.specs.Step.{book_of, outcome};
ghost use Rattle.abort.specs.Effect.{abort_step};
ghost use Rattle.abort.specs.Inner.{by_state};

use account::Head;
use book::Answered;
use form::Stop;
use record::{Ending, Row};
use rules::Answer;

// COMMITTED: 13. Expired: 7. Aborted by the payee: 24 for the same code, else 6. RESERVED: 0.
fn by_state(row: &Row, code: u16) -> Answer
    ensures { (names : List (List ℕ)) → result ≡ by_state code (transfer_of names row.now) }
{
    match row[16] {
        record::RESERVED => Answer::Done,
        record::COMMITTED => Answer::EndedAnotherWay,
        _ if row[19] == record::BY_PAYEE => book::resend(record::code_of(row) == code),
        _ => Answer::Expired,
    }
}

// The id and the code that the texts say, all three in form.
#[tactic(auto, unfolding(uuid_text::specs::Id::read_id, tokens::specs::Code::read_code))]
fn fields(sender: &[u8], id: &[u8], code: &[u8]) -> Result<([u8; 16], u16), Stop>
    ensures { MatchResult result
        (λ v. (in_form (abort_call sender.now id.now code.now) ≡ true)
        × (id_of id.now ≡ v.0) × (code_of code.now ≡ v.1))
        (λ _. in_form (abort_call sender.now id.now code.now) ≡ false) }
{
    tokens::read_name(sender)?;
    let id = uuid_text::read_id(id)?;
    let code = tokens::read_code(code)?;
    Ok((id, code))
}

/// Abort: 21, 1, 11, 12, then by the state; aborted with that code, the payer's position falls.
pub fn abort(
    h: Head,
    opened: &mut [u8],
    ended: &mut [u8],
    sender: &[u8],
    id: &[u8],
    code: &[u8],
) -> Answered
    ensures { outcome result opened.new ended.new
        ≡ abort_step (book_of h opened.old ended.old) sender.now id.now code.now }
{
    if !shape::is_sound(h, opened, ended) {
        return book::reply(h, Answer::OutOfShape, 0);
    }
    let Ok(read) = fields(sender, id, code) else {
        return book::reply(h, Answer::NotInForm, 0);
    };
    let (id, code) = read;
    let d = book::decide(h, opened, ended, sender, id, |row| by_state(row, code));
    book::carry_out(h, opened, ended, d, record::payer_of, Ending::aborted(code))
}
