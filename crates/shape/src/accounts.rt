// The accounts' part of the shape.
ghost use Rattle.std.specs.Prelude.{◌≡◌, ◌&&◌, ◌+◌, ◌*◌, ◌≤◌, ◌<◌, leb, ltb, take};
ghost use Rattle.octets.specs.Parts.{same};
ghost use Rattle.octets.specs.Lists.{all};
ghost use Rattle.form.specs.Listings.{name_form};
ghost use Rattle.rules.specs.Calls.{is_of};
ghost use Rattle.rules.specs.Rules.{highest_cap};
ghost use Rattle.account.specs.Head.{name_of, accounts_of, account_at, Named};
ghost use Rattle.shape.specs.Reading.{names_of};
ghost use Rattle.shape.specs.Shape.{account_ok, none_twice};
ghost use Rattle.shape.specs.Scan.{accounts_ok, is_new};

use account::{Account, HIGHEST_CAP, Head};

// Whether the first bytes of its place are a name.
fn name_ok(a: Account) -> bool
    ensures { result ≡ leb a.length 32 && is_of name_form (name_of a) }
{
    a.length <= 32 && tokens::read_name(&a.name[..usize::from(a.length)]).is_ok()
}

#[tactic(auto, unfolding(crate::specs::Shape::account_ok))]
fn account_ok(a: Account) -> bool
    ensures { result ≡ account_ok a }
{
    name_ok(a)
        && a.cap <= HIGHEST_CAP
        && a.cap.remainder < 10000
        && a.position.remainder < 10000
        && a.position.is_at_most(HIGHEST_CAP)
}

// Whether each account in use is in form.
fn all_in_form(h: Head) -> bool
    requires { h.count ≤ 32 }
    ensures { result ≡ all account_ok (accounts_of h) }
{
    h.accounts[..usize::from(h.count)]
        .iter()
        .all(|a| account_ok(*a))
}

// Whether two accounts have one name.
fn same_names(a: Account, b: Account) -> bool
    requires { (a.length ≤ 32) × (b.length ≤ 32) }
    ensures { result ≡ same (name_of a) (name_of b) }
{
    account::is_named(a, &b.name[..usize::from(b.length)])
}

// Whether an account's name is none of those before it.
fn is_new(h: Head, k: usize) -> bool
    requires { (k < h.count) × Named h }
    ensures { result ≡ is_new (take k (names_of h)) (name_of (account_at h k)) }
{
    let a = h.accounts[k];
    h.accounts[..k].iter().all(|b| !same_names(a, *b))
}

// Whether all names differ.
fn none_twice(h: Head) -> bool
    requires { Named h }
    ensures { result ≡ none_twice (names_of h) }
{
    (0..usize::from(h.count)).all(|k| is_new(h, k))
}

// Whether the accounts are of the shape.
#[tactic(auto, using(crate::proofs::Together::judged_named), unfolding(crate::specs::Scan::accounts_ok))]
pub(crate) fn all_ok(h: Head) -> bool
    ensures { result ≡ accounts_ok h }
{
    h.count <= 32 && (all_in_form(h) && none_twice(h))
}
