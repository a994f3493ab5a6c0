// The records' part of the shape.
ghost use Rattle.std.specs.Prelude.{◌≡◌, ◌*◌, ◌≤◌, length, IfSome};
ghost use Rattle.octets.specs.Lists.{all};
ghost use Rattle.shape.specs.Shape.{record_ok, open_ok, ended_ok};
ghost use Rattle.shape.specs.Scan.{most_reserved, held_in_book, ended_book_ok};

use record::Row;

// 32 times 10^17 units, in ten-thousandths: no position is above 10^17 units and there are at most 32, so no positions sum to more.
const MOST_RESERVED: u128 = 32_000_000_000_000_000_000_000;

// What the open book holds: how many slots are taken, and what their amounts are together, in ten-thousandths.
#[derive(Clone, Copy)]
pub(crate) struct Held {
    pub taken: usize,
    pub reserved: u128,
}

// Parties are existing accounts and differ, the amount is in range.
#[tactic(auto, using(record::proofs::Fields::num_byte), unfolding(crate::specs::Shape::record_ok))]
fn record_ok(row: &Row, accounts: u8) -> bool
    ensures { result ≡ record_ok accounts row.now }
{
    let payer = row[17];
    let payee = row[18];
    let amount = record::amount_of(row);
    (payer < accounts)
        & (payee < accounts)
        & (payer != payee)
        & (amount.units < 1000000000000000000)
        & (amount.remainder < 10000)
}

// A slot: free, which is all zeros, or RESERVED and ended by nothing.
#[tactic(auto, using(record::proofs::Fields::num_byte), unfolding(crate::specs::Shape::open_ok))]
fn open_ok(row: &Row, accounts: u8) -> bool
    ensures { result ≡ open_ok accounts row.now }
{
    if row[16] == 0 {
        return octets::all_zero(row);
    }
    row[16] == record::RESERVED && row[19] == 0 && record_ok(row, accounts)
}

// COMMITTED by a fulfilment, or ABORTED by the payee or by expiry.
#[tactic(auto, using(record::proofs::Fields::num_byte), unfolding(crate::specs::Shape::ended_ok))]
fn ended_ok(row: &Row, accounts: u8) -> bool
    ensures { result ≡ ended_ok accounts row.now }
{
    let state = row[16];
    let by = row[19];
    let committed = (state == record::COMMITTED) & (by == record::BY_FULFILMENT);
    let aborted = (state == record::ABORTED)
        & ((by == record::BY_PAYEE) | (by == record::BY_EXPIRY));
    (committed | aborted) & record_ok(row, accounts)
}

// What the slots hold together, where each is of the shape and positions can sum to it.
pub(crate) fn scan_open(slots: &[Row], accounts: u8) -> Option<Held>
    requires { length slots.now ≤ 1024 }
    ensures found { result ≡ held_in_book accounts slots.now }
    ensures small { IfSome result (λ held. (held.taken ≤ 1024) × (held.reserved ≤ most_reserved)) }
{
    let mut taken = 0;
    let mut reserved = 0;
    for row in slots {
        if !open_ok(row, accounts) {
            return None;
        }
        let amount = record::amount_of(row);
        taken += usize::from(row[16] != 0);
        reserved += u128::from(amount.units) * 10000 + u128::from(amount.remainder);
        if MOST_RESERVED < reserved {
            return None;
        }
    }
    Some(Held { taken, reserved })
}

// The records of the finished book. This is the pass that a call's time goes to: `all` would have a branch for a record, and take a third
// longer.
fn all_ended(records: &[Row], accounts: u8) -> bool
    ensures { result ≡ all (ended_ok accounts) records.now }
{
    records
        .iter()
        .fold(true, |right, row| right & ended_ok(row, accounts))
}

// The finished records are of the shape, and the rest of the book is zero.
pub(crate) fn ended_book_ok(ended: &[u8], finished: usize, accounts: u8) -> bool
    requires { finished * 160 ≤ length ended.now }
    ensures { result ≡ ended_book_ok accounts finished ended.now }
{
    all_ended(&record::records(ended)[..finished], accounts)
        && octets::all_zero(&ended[finished * 160..])
}
