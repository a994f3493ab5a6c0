// The accounts and the head of a book, by value: positions that rise and fall, and the search for a name.
#![tactic(auto)]

ghost use Rattle.std.specs.Prelude.{◌≡◌, ◌≤◌, ◌<◌, take, position};
ghost use Rattle.octets.specs.Parts.{same};
ghost use Rattle.account.specs.Position.{raised_by, lowered_by, within, Room, InRange};
ghost use Rattle.account.specs.Head.{named, accounts_of, with_position, Named};

use amount::Amount;

/// What an account has taken out of the system less what it has brought in: whole units rounded down, and a remainder 0 to 9,999.
#[derive(Clone, Copy, Debug, PartialEq, Eq)]
pub struct Position {
    pub units: i64,
    pub remainder: u16,
}

/// The highest cap of an account, and the highest position: "cap at most 10^17" units (01).
pub const HIGHEST_CAP: Amount = Amount {
    units: 100_000_000_000_000_000,
    remainder: 0,
};

// A name is its place and its length: memory is fixed, and a head that C lends may hold any length, which the shape judges.
#[derive(Clone, Copy, Debug, PartialEq, Eq)]
pub struct Account {
    pub name: [u8; 32],
    pub length: u8,
    pub cap: Amount,
    pub position: Position,
}

/// An account place that is not in use: zeros.
pub const BLANK: Account = Account {
    name: [0; 32],
    length: 0,
    cap: Amount {
        units: 0,
        remainder: 0,
    },
    position: Position {
        units: 0,
        remainder: 0,
    },
};

// "The accounts travel with the head by value, at most 32" (01): an array and its count, with no invariant, since a head that C lends
// may have any count, which the shape judges.
#[derive(Clone, Copy, Debug, PartialEq, Eq)]
pub struct Head {
    pub accounts: [Account; 32],
    pub count: u8,
    pub currency: [u8; 3],
    pub time: i64,
    pub slots: u16,
    pub places: u16,
    pub finished: u16,
}

impl Position {
    /// The position raised by an amount; what the remainder has too much is carried into the units.
    pub fn raised(self, a: Amount) -> Position
        requires { Room self × InRange a }
        ensures { result ≡ raised_by self a }
    {
        let rest = self.remainder + a.remainder;
        let whole = a.units + u64::from(rest / 10000);
        Position {
            units: self.units + whole.cast_signed(),
            remainder: rest % 10000,
        }
    }

    /// The position lowered by an amount; what the remainder lacks is borrowed from the units.
    pub fn lowered(self, a: Amount) -> Position
        requires { Room self × InRange a }
        ensures { result ≡ lowered_by self a }
    {
        let rest = self.remainder + 10000 - a.remainder;
        let whole = a.units + 1 - u64::from(rest / 10000);
        Position {
            units: self.units - whole.cast_signed(),
            remainder: rest % 10000,
        }
    }

    /// Whether the position is at most an amount.
    pub fn is_at_most(self, a: Amount) -> bool
        requires { (self.remainder < 10000) × (a.remainder < 10000) }
        ensures { result ≡ within self a }
    {
        if self.units < 0 {
            return true;
        }
        let whole = self.units.cast_unsigned();
        (whole, self.remainder) <= (a.units, a.remainder)
    }
}

/// Whether the first n bytes of a place are a name.
#[tactic(auto, using(octets::proofs::Equal::same_by_pairs))]
pub fn same_name(place: [u8; 32], n: usize, name: &[u8]) -> bool
    requires { n ≤ 32 }
    ensures { result ≡ same (take n place) name.now }
{
    place[..n] == name[..]
}

/// Whether this is the account of a name.
pub fn is_named(a: Account, name: &[u8]) -> bool
    requires { a.length ≤ 32 }
    ensures { result ≡ named name.now a }
{
    same_name(a.name, usize::from(a.length), name)
}

/// The number of the account of a name.
pub fn place_of(h: Head, name: &[u8]) -> Option<usize>
    requires { Named h }
    ensures { result ≡ position (named name.now) (accounts_of h) }
{
    h.accounts[..usize::from(h.count)]
        .iter()
        .position(|a| is_named(*a, name))
}

/// The head with another position of account i.
pub fn with_position(h: Head, i: usize, p: Position) -> Head
    requires { i < 32 }
    ensures { result ≡ with_position h i p }
{
    let mut next = h;
    next.accounts[i].position = p;
    next
}
