// The sum of the positions.
ghost use Rattle.std.specs.Prelude.{◌≡◌, ◌≤◌, ◌<◌, ◌^◌};
ghost use Rattle.std.specs.Int.Signed.{mag};
ghost use Rattle.account.specs.Position.{value};
ghost use Rattle.account.specs.Head.{accounts_of};
ghost use Rattle.octets.specs.Integers.{dn};
ghost use Rattle.shape.specs.Scan.{total_in_reach};

use account::{Head, Position};

// 33 times 10^17 units: each position is at most 10^17 units and there are at most 32, so more below zero cannot be made up for.
const MOST_BELOW: u64 = 3_300_000_000_000_000_000;

// A position in ten-thousandths.
#[tactic(auto, unfolding(account::specs::Position::value))]
fn value(p: Position) -> i128
    ensures value { result ≡ value p }
    ensures small { mag result < 2 ^ 78 }
{
    i128::from(p.units) * 10000 + i128::from(p.remainder)
}

// The units of a position that lie below zero.
fn units_below(p: Position) -> u64
    ensures lies { result ≡ dn p.units }
    ensures small { result ≤ 2 ^ 63 }
{
    if p.units < 0 {
        return p.units.unsigned_abs();
    }
    0
}

// The positions of a head together: 128 bits hold the sum of any 32. Nothing where so much lies below zero that the others cannot make up
// for it, so that the units below zero stay within 64 bits.
pub(crate) fn total(h: Head) -> Option<i128>
    requires { h.count ≤ 32 }
    ensures { result ≡ total_in_reach (accounts_of h) }
{
    let mut sum = 0;
    let mut below = 0;
    for a in &h.accounts[..usize::from(h.count)] {
        sum += value(a.position);
        below += units_below(a.position);
        if MOST_BELOW < below {
            return None;
        }
    }
    Some(sum)
}
