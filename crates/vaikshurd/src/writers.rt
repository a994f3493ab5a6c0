// The writers: a value's text at the front of the lent buffer; bytes past the text stay. The text's length is in the place of the mark.
ghost use Rattle.std.specs.Prelude.{◌≡◌, length};
ghost use Rattle.amount.specs.Amount.{write_amount, amount_text};
ghost use Rattle.uuid_text.specs.Id.{write_id, id_text};
ghost use Rattle.datetime.specs.Instant.{write_date_time, date_time_text};
ghost use Rattle.base64url.specs.Condition.{write_condition, condition_text};
ghost use Rattle.vaikshurd.specs.Texts.{amount_held, written_word, text_left};
ghost use Rattle.vaikshurd.specs.Inner.{Short};

use crate::answers::packed;
use amount::Amount;
use form::Unwritten;
use rules::Answer;

// A writer's answer in one number.
fn written(w: Result<usize, Unwritten>) -> u64
    requires { Short w }
    ensures { result ≡ written_word w }
{
    match w {
        Ok(n) => packed(Answer::Done, n as u32),
        Err(Unwritten::NotInForm) => packed(Answer::NotInForm, 0),
        Err(Unwritten::OutsideYears) => packed(Answer::OutsideYears, 0),
        Err(Unwritten::NoRoom) => packed(Answer::NoRoom, 0),
    }
}

// Amount: 1, 23.
#[unsafe(no_mangle)]
#[tactic(auto, using(crate::proofs::Lengths::amount_short))]
pub extern "C" fn vaik_write_amount(units: u64, remainder: u16, out: &mut [u8]) -> u64
    ensures { (result, out.new) ≡ text_left (write_amount (amount_held units remainder) (length out.old))
        (amount_text (amount_held units remainder)) out.old }
{
    written(amount::write_amount(Amount { units, remainder }, out))
}

// Id: 1, 23.
#[unsafe(no_mangle)]
#[tactic(auto, using(crate::proofs::Lengths::id_short))]
pub extern "C" fn vaik_write_id(id: &[u8], out: &mut [u8]) -> u64
    ensures { (result, out.new)
        ≡ text_left (write_id id.now (length out.old)) (id_text id.now) out.old }
{
    written(uuid_text::write_id(id, out))
}

// DateTime: 22, 23.
#[unsafe(no_mangle)]
#[tactic(auto, using(crate::proofs::Lengths::datetime_short))]
pub extern "C" fn vaik_write_datetime(instant: i64, out: &mut [u8]) -> u64
    ensures { (result, out.new)
        ≡ text_left (write_date_time instant (length out.old)) (date_time_text instant) out.old }
{
    written(datetime::write_datetime(instant, out))
}

// Condition and fulfilment: 1, 23.
#[unsafe(no_mangle)]
#[tactic(auto, using(crate::proofs::Lengths::condition_short))]
pub extern "C" fn vaik_write_condition(condition: &[u8], out: &mut [u8]) -> u64
    ensures { (result, out.new) ≡ text_left (write_condition condition.now (length out.old))
        (condition_text condition.now) out.old }
{
    written(base64url::write_condition(condition, out))
}
