// The fields of a prepare, read to their values.
ghost use Rattle.std.specs.Prelude.{◌≡◌, ◌&&◌, true, false, MatchResult};
ghost use Rattle.prepare.specs.Inner.{names_fit, texts_fit, values_in};

use crate::Parties;
use form::Stop;
use record::Content;

// What the fields say, where all are in form. The packet, the long field, is hashed last.
#[tactic(auto, unfolding(uuid_text::specs::Id::read_id, amount::specs::Amount::read_amount, base64url::specs::Condition::read_condition, datetime::specs::Instant::read_date_time))]
pub(crate) fn content(
    parties: Parties,
    id: &[u8],
    amount: &[u8],
    condition: &[u8],
    expiration: &[u8],
    packet: &[u8],
) -> Result<Content, Stop>
    ensures { let fit = names_fit parties.entry.payer.now parties.entry.payee.now
        parties.entry.currency.now
        && texts_fit id.now amount.now condition.now expiration.now packet.now in
        MatchResult result
        (λ c. (fit ≡ true) × (c ≡ values_in id.now amount.now condition.now expiration.now packet.now))
        (λ _. fit ≡ false) }
{
    tokens::read_name(parties.payer)?;
    tokens::read_name(parties.payee)?;
    tokens::read_currency(parties.currency)?;
    let id = uuid_text::read_id(id)?;
    let amount = amount::read_amount(amount)?;
    let condition = base64url::read_condition(condition)?;
    let expiration = datetime::read_datetime(expiration)?;
    base64url::read_packet(packet)?;
    Ok(Content {
        id,
        amount,
        condition,
        expiration,
        packet: sha256::hash(packet),
    })
}
