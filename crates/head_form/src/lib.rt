// The head as bytes (docs/HEAD.md): whether a slice is of the form, its head, and the bytes of a head.
#![tactic(auto)]

ghost use Rattle.std.specs.Prelude.{◌≡◌, cond, ◌&&◌, ◌+◌, ◌-◌, ◌≤◌, length, get_or};
ghost use Rattle.octets.specs.Parts.{all_zero, part};
ghost use Rattle.head_form.specs.Form.{account_bytes, account_from, front_bytes, head_bytes, head_from};
ghost use Rattle.head_form.specs.Form.{is_formed as formed};

use account::{Account, Head, Position};
use amount::Amount;
use std::array;

// N bytes from a place on. A record has the same three lines for its fields, by the definition of a field.
fn bytes_at<const N: usize>(b: &[u8], at: usize) -> [u8; N]
    requires { at + N ≤ length b.now }
    ensures { result ≡ part b.now at N }
{
    let mut bytes = [0u8; N];
    bytes.copy_from_slice(&b[at..at + N]);
    bytes
}

// The account of an account place.
fn account_of(place: &[u8; 64]) -> Account
    ensures { result ≡ account_from place.now 0 }
{
    Account {
        name: bytes_at(place, 0),
        length: place[52],
        cap: Amount {
            units: u64::from_be_bytes(bytes_at(place, 32)),
            remainder: u16::from_be_bytes(bytes_at(place, 48)),
        },
        position: Position {
            units: i64::from_be_bytes(bytes_at(place, 40)),
            remainder: u16::from_be_bytes(bytes_at(place, 50)),
        },
    }
}

// The head of a slice of the form: all 32 accounts, those past the count with them, since what they hold is the form's matter.
// A slice and not an array of 2,080 bytes, here and in `encode`: the callers in C lend one, and `is_formed` alone judges its length.
pub fn decode(b: &[u8]) -> Head
    requires { length b.now ≡ 2080 }
    ensures { result ≡ head_from b.now }
{
    let (places, _) = b[32..].as_chunks::<64>();
    Head {
        accounts: array::from_fn(|k| account_of(&places[k])),
        count: b[11],
        currency: bytes_at(b, 8),
        time: i64::from_be_bytes(bytes_at(b, 0)),
        slots: u16::from_be_bytes(bytes_at(b, 12)),
        places: u16::from_be_bytes(bytes_at(b, 14)),
        finished: u16::from_be_bytes(bytes_at(b, 16)),
    }
}

// The 64 bytes of an account.
fn account_place(a: Account) -> [u8; 64]
    ensures { result ≡ account_bytes a }
{
    let mut place = [0u8; 64];
    octets::put(&mut place, 0, &a.name);
    octets::put(&mut place, 32, &a.cap.units.to_be_bytes());
    octets::put(&mut place, 40, &a.position.units.to_be_bytes());
    octets::put(&mut place, 48, &a.cap.remainder.to_be_bytes());
    octets::put(&mut place, 50, &a.position.remainder.to_be_bytes());
    place[52] = a.length;
    place
}

// The 32 bytes before the accounts.
fn front(h: Head) -> [u8; 32]
    ensures { result ≡ front_bytes h }
{
    let mut bytes = [0u8; 32];
    octets::put(&mut bytes, 0, &h.time.to_be_bytes());
    octets::put(&mut bytes, 8, &h.currency);
    bytes[11] = h.count;
    octets::put(&mut bytes, 12, &h.slots.to_be_bytes());
    octets::put(&mut bytes, 14, &h.places.to_be_bytes());
    octets::put(&mut bytes, 16, &h.finished.to_be_bytes());
    bytes
}

// The bytes of a head.
pub fn encode(b: &mut [u8], h: Head)
    requires { length b.old ≡ 2080 }
    ensures { b.new ≡ head_bytes h }
{
    octets::put(b, 0, &front(h));
    for (k, a) in h.accounts.iter().enumerate() {
        octets::put(b, 32 + k * 64, &account_place(*a));
    }
}

// Whether the bytes of an account place that are not in use are zero.
fn place_formed(place: &[u8; 64], used: bool) -> bool
    ensures { let n = get_or place.now 52 0 in result ≡ cond used
        (all_zero (part place.now n (32 - n)) && all_zero (part place.now 53 11))
        (all_zero place.now) }
{
    if !used {
        return octets::all_zero(place);
    }
    let n = usize::from(place[52]);
    let name_ends = 32 < n || octets::all_zero(&place[n..32]);
    name_ends && octets::all_zero(&place[53..])
}

// Whether a slice is of the form.
pub fn is_formed(b: &[u8]) -> bool
    ensures { result ≡ formed b.now }
{
    if b.len() != 2080 {
        return false;
    }
    let count = usize::from(b[11]);
    let (places, _) = b[32..].as_chunks::<64>();
    octets::all_zero(&b[18..32])
        && places
            .iter()
            .enumerate()
            .all(|(k, place)| place_formed(place, k < count))
}
