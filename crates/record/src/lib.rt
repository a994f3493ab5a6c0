// One record of a book: its 160 bytes, read and written (01, "The two books").
#![tactic(auto)]

ghost use Rattle.std.specs.Prelude.{◌≡◌, [], ◌∷◌, ◌+◌, ◌*◌, ◌/◌, ◌≤◌, length, position, replicate};
ghost use Rattle.std.proofs.lemmas.List.Edits.{sets};
ghost use Rattle.std.specs.Int.{w64};
ghost use Rattle.std.proofs.Common.{of_z};
ghost use Rattle.octets.specs.Numbers.{big_endian};
ghost use Rattle.octets.specs.Parts.{zeros};
ghost use Rattle.record.specs.Layout.{bytes, get, num, expiration_of, with, ◌≔◌, new_row, ended_row, is_free};
ghost use Rattle.record.specs.Layout.{id_field, state_field, payer_field, payee_field, code_field, remainder_field, units_field, expiration_field, condition_field, packet_field, number_field};
ghost use Rattle.record.specs.Rows.{rows, row, holds};

use amount::Amount;

/// A record's own bytes.
pub type Row = [u8; 160];

/// The states of byte 16; 0 is a free slot.
pub const RESERVED: u8 = 2;

pub const COMMITTED: u8 = 3;

pub const ABORTED: u8 = 4;

/// What ended a record, byte 19; 0 is nothing yet.
pub const BY_FULFILMENT: u8 = 1;

pub const BY_PAYEE: u8 = 2;

pub const BY_EXPIRY: u8 = 3;

/// What a prepare says, without its parties.
#[derive(Clone, Copy, Debug, PartialEq, Eq)]
pub struct Content {
    pub id: [u8; 16],
    pub amount: Amount,
    pub condition: [u8; 32],
    pub expiration: i64,
    pub packet: [u8; 32],
}

/// How a record ends: the bytes that are set anew.
// State and end are numbers and no enum, since `move_ended` promises any that it is given (docs/PROMISES.md).
#[derive(Clone, Copy, Debug, PartialEq, Eq)]
pub struct Ending {
    pub state: u8,
    pub by: u8,
    pub code: u16,
    pub fulfilment: [u8; 32],
}

impl Ending {
    pub fn committed(fulfilment: [u8; 32]) -> Ending
        ensures { result ≡ record { state = COMMITTED; by = BY_FULFILMENT; code = 0; fulfilment = fulfilment } }
    {
        Ending {
            state: COMMITTED,
            by: BY_FULFILMENT,
            code: 0,
            fulfilment,
        }
    }

    /// Given up by the payee, with a code of 001, 7.6.
    #[tactic(auto, unfolding(octets::specs::Parts::zeros))]
    pub fn aborted(code: u16) -> Ending
        ensures { result ≡ record { state = ABORTED; by = BY_PAYEE; code = code; fulfilment = zeros 32 } }
    {
        Ending {
            state: ABORTED,
            by: BY_PAYEE,
            code,
            fulfilment: [0; 32],
        }
    }

    /// Given up by the clock: 3303, transfer expired.
    #[tactic(auto, unfolding(octets::specs::Parts::zeros))]
    pub fn expired() -> Ending
        ensures { result ≡ record { state = ABORTED; by = BY_EXPIRY; code = 3303; fulfilment = zeros 32 } }
    {
        Ending {
            state: ABORTED,
            by: BY_EXPIRY,
            code: 3303,
            fulfilment: [0; 32],
        }
    }
}

/// The records of a book.
pub fn records(book: &[u8]) -> &[Row]
    ensures { result.now ≡ rows (length book.now / 160) book.now }
{
    book.as_chunks::<160>().0
}

// A field's bytes, as many as the type asks for.
#[tactic(auto, unfolding(crate::specs::Layout::get))]
fn field<const N: usize>(row: &Row, at: usize) -> [u8; N]
    requires { at + N ≤ 160 }
    ensures { result ≡ get (bytes at N) row.now }
{
    let mut bytes = [0; N];
    bytes.copy_from_slice(&row[at..at + N]);
    bytes
}

/// The acceptance number.
#[tactic(auto, using(crate::proofs::Numbers::number_four))]
pub fn number_of(row: &Row) -> u32
    ensures { result ≡ num number_field row.now }
{
    u32::from_be_bytes(field(row, 136))
}

#[tactic(auto, using(crate::proofs::Numbers::number_two))]
pub fn code_of(row: &Row) -> u16
    ensures { result ≡ num code_field row.now }
{
    u16::from_be_bytes(field(row, 20))
}

/// The payer's account number.
#[tactic(auto, using(crate::proofs::Fields::num_byte))]
pub fn payer_of(row: &Row) -> usize
    ensures { result ≡ num payer_field row.now }
{
    usize::from(row[17])
}

/// The payee's account number.
#[tactic(auto, using(crate::proofs::Fields::num_byte))]
pub fn payee_of(row: &Row) -> usize
    ensures { result ≡ num payee_field row.now }
{
    usize::from(row[18])
}

/// The whole units.
#[tactic(auto, using(crate::proofs::Numbers::number_eight))]
pub fn units_of(row: &Row) -> u64
    ensures { result ≡ num units_field row.now }
{
    u64::from_be_bytes(field(row, 24))
}

#[tactic(auto, using(crate::proofs::Numbers::number_two))]
pub fn amount_of(row: &Row) -> Amount
    ensures { (result.units ≡ num units_field row.now) × (result.remainder ≡ num remainder_field row.now) }
{
    Amount {
        units: units_of(row),
        remainder: u16::from_be_bytes(field(row, 22)),
    }
}

#[tactic(auto, using(crate::proofs::Numbers::number_eight))]
pub fn expiration_of(row: &Row) -> i64
    ensures { result ≡ expiration_of row.now }
{
    i64::from_be_bytes(field(row, 32))
}

/// Whether the record is one, and not a free slot, with this id. The id comes first: its first byte tells most records apart, and the state
/// often lies in another line of the cache.
#[tactic(auto, using(crate::proofs::Rows::holds_by_bytes))]
pub fn has_id(row: &Row, id: [u8; 16]) -> bool
    ensures { result ≡ holds id row.now }
{
    row[..16] == id[..] && row[16] != 0
}

/// The place of the first record that has the id.
pub fn find(records: &[Row], id: [u8; 16]) -> Option<usize>
    ensures { result ≡ position (holds id) records.now }
{
    records.iter().position(|row| has_id(row, id))
}

#[tactic(auto, using(crate::proofs::Fields::num_byte))]
fn is_free(row: &Row) -> bool
    ensures { result ≡ is_free row.now }
{
    row[16] == 0
}

/// The lowest free slot.
pub fn free_slot(records: &[Row]) -> Option<usize>
    ensures { result ≡ position is_free records.now }
{
    records.iter().position(|row| is_free(row))
}

// The writers take a part of the book and no Row: of rows to be written the library does not say what the book then holds.
fn put_parties(part: &mut [u8], id: [u8; 16], payer: u8, payee: u8)
    requires { length part.old ≡ 160 }
    ensures { part.new ≡ with ((id_field ≔ id) ∷ (state_field ≔ (RESERVED ∷ [])) ∷ (payer_field ≔ (payer ∷ [])) ∷ (payee_field ≔ (payee ∷ [])) ∷ [])
        part.old }
{
    octets::put(part, 0, &id);
    part[16] = RESERVED;
    part[17] = payer;
    part[18] = payee;
}

fn put_amount(part: &mut [u8], amount: Amount, expiration: i64)
    requires { length part.old ≡ 160 }
    ensures { part.new ≡ with ((remainder_field ≔ big_endian 2 amount.remainder) ∷ (units_field ≔ big_endian 8 amount.units)
        ∷ (expiration_field ≔ big_endian 8 (of_z w64 expiration)) ∷ []) part.old }
{
    octets::put_number(part, 22, u64::from(amount.remainder), 2);
    octets::put_number(part, 24, amount.units, 8);
    octets::put_number(part, 32, expiration.cast_unsigned(), 8);
}

fn put_hashes(part: &mut [u8], condition: [u8; 32], packet: [u8; 32], number: u32)
    requires { length part.old ≡ 160 }
    ensures { part.new ≡ with ((condition_field ≔ condition) ∷ (packet_field ≔ packet) ∷ (number_field ≔ big_endian 4 number) ∷ [])
        part.old }
{
    octets::put(part, 40, &condition);
    octets::put(part, 104, &packet);
    octets::put_number(part, 136, u64::from(number), 4);
}

/// The record of an accepted prepare, into a free slot's own bytes.
#[tactic(auto, unfolding(crate::specs::Layout::new_row, octets::specs::Parts::zeros))]
pub fn write_new(part: &mut [u8], c: Content, payer: u8, payee: u8, number: u32)
    requires { part.old ≡ zeros 160 }
    ensures { part.new ≡ new_row c payer payee number }
{
    put_parties(part, c.id, payer, payee);
    put_amount(part, c.amount, c.expiration);
    put_hashes(part, c.condition, c.packet, number);
}

#[tactic(auto, unfolding(crate::specs::Layout::ended_row))]
fn set_ending(part: &mut [u8], e: Ending)
    requires { length part.old ≡ 160 }
    ensures { part.new ≡ ended_row e.state e.by e.code e.fulfilment part.old }
{
    part[16] = e.state;
    part[19] = e.by;
    octets::put_number(part, 20, u64::from(e.code), 2);
    octets::put(part, 72, &e.fulfilment);
}

/// A record ends: it moves from its slot to a place of the finished book, and its slot is freed.
pub fn move_ended(opened: &mut [u8], ended: &mut [u8], slot: usize, place: usize, e: Ending)
    requires { (slot * 160 + 160 ≤ length opened.old) × (place * 160 + 160 ≤ length ended.old) }
    ensures { (opened.new ≡ sets opened.old (slot * 160) (zeros 160)) × (ended.new ≡ sets
        ended.old (place * 160) (ended_row e.state e.by e.code e.fulfilment (row opened.old slot))) }
{
    let from = slot * 160;
    let to = place * 160;
    // By value: straight from one lent book into the other would be a memmove, which the library does not ask of a C host.
    let mut row = [0; 160];
    row.copy_from_slice(&opened[from..from + 160]);
    set_ending(&mut row, e);
    octets::put(ended, to, &row);
    octets::clear(&mut opened[from..from + 160]);
}
