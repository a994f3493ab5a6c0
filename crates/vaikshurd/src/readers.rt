// The readers: a text in form is read into the lent numbers or bytes; any other answers 1 and writes nothing.
ghost use Rattle.std.specs.Prelude.{◌≡◌};
ghost use Rattle.amount.specs.Amount.{read_amount};
ghost use Rattle.uuid_text.specs.Id.{read_id};
ghost use Rattle.datetime.specs.Instant.{read_date_time};
ghost use Rattle.base64url.specs.Condition.{read_condition};
ghost use Rattle.vaikshurd.specs.Texts.{amount_left, instant_left, bytes_left};

use crate::answers::packed;
use form::Stop;
use rules::Answer;

// Amount: 1.
#[unsafe(no_mangle)]
pub extern "C" fn vaik_read_amount(text: &[u8], units: &mut u64, remainder: &mut u16) -> u64
    ensures { (result, units.new, remainder.new)
        ≡ amount_left (read_amount text.now) units.old remainder.old }
{
    match amount::read_amount(text) {
        Ok(a) => {
            *units = a.units;
            *remainder = a.remainder;
            packed(Answer::Done, 0)
        }
        Err(_) => packed(Answer::NotInForm, 0),
    }
}

// DateTime: 1.
#[unsafe(no_mangle)]
pub extern "C" fn vaik_read_datetime(text: &[u8], instant: &mut i64) -> u64
    ensures { (result, instant.new) ≡ instant_left (read_date_time text.now) instant.old }
{
    match datetime::read_datetime(text) {
        Ok(t) => {
            *instant = t;
            packed(Answer::Done, 0)
        }
        Err(_) => packed(Answer::NotInForm, 0),
    }
}

// The bytes that were read, at the front of the lent buffer: 1, 23.
fn hand_over<const N: usize>(read: Result<[u8; N], Stop>, out: &mut [u8]) -> u64
    ensures { (result, out.new) ≡ bytes_left read.entry out.old }
{
    let Ok(value) = read else {
        return packed(Answer::NotInForm, 0);
    };
    if out.len() < value.len() {
        return packed(Answer::NoRoom, 0);
    }
    octets::put(out, 0, &value);
    packed(Answer::Done, 0)
}

// Id: 1; 23 where fewer than 16 bytes are lent. By `read_into`: here reading is all the work, and `read_id` takes 1.4 times as long.
#[unsafe(no_mangle)]
#[tactic(auto, unfolding(uuid_text::specs::Id::read_id))]
pub extern "C" fn vaik_read_id(text: &[u8], id: &mut [u8]) -> u64
    ensures { (result, id.new) ≡ bytes_left (read_id text.now) id.old }
{
    let mut value = [0; 16];
    if uuid_text::read_into(text, &mut value).is_err() {
        return packed(Answer::NotInForm, 0);
    }
    hand_over(Ok(value), id)
}

// Condition and fulfilment: 1; 23 where fewer than 32 bytes are lent.
#[unsafe(no_mangle)]
pub extern "C" fn vaik_read_condition(text: &[u8], condition: &mut [u8]) -> u64
    ensures { (result, condition.new) ≡ bytes_left (read_condition text.now) condition.old }
{
    hand_over(base64url::read_condition(text), condition)
}
