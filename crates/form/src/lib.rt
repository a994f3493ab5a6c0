// The published forms of the field texts, judged by tables: whether a text is of the form and, if not, at which byte no text of
// the form goes on.
#![tactic(auto)]

mod tables;

ghost use Rattle.std.specs.Prelude.{◌≡◌, get_or};
ghost use Rattle.octets.specs.Bytes.{Bytes};
ghost use Rattle.form.specs.Regex.{judge};
ghost use Rattle.form.specs.Listings.{date_time_form, id_form};
ghost use Rattle.form.specs.Machine.{entry, machine};

/// Why a text was not read: no text of the form goes on at this offset (the length, where the text stops too soon).
#[derive(Clone, Copy, Debug, PartialEq, Eq)]
pub struct Stop {
    pub at: usize,
}

/// Why a writer wrote nothing.
#[derive(Clone, Copy, Debug, PartialEq, Eq)]
pub enum Unwritten {
    NotInForm,
    OutsideYears,
    NoRoom,
}

// What stands in the row of the state q for the class k; past the table nothing goes on. The tables have a byte for each place: 255 is no state.
fn look(next: &[u8], q: usize, k: u8) -> u8
    ensures { result ≡ entry next.now q k }
{
    if next.len() / 32 < q {
        return 255;
    }
    let row = q * 32;
    let column = usize::from(k);
    if column < next.len() - row {
        return next[row + column];
    }
    255
}

// Where the byte b leads from the state q.
fn step(class: &[u8; 256], next: &[u8], q: usize, b: u8) -> u8
    ensures { result ≡ entry next.now q (get_or class.now b 0) }
{
    look(next, q, class[usize::from(b)])
}

// Goes from state to state.
fn run(class: &[u8; 256], next: &[u8], s: &[u8]) -> Result<(), Stop>
    ensures { (result ≡ machine class.now next.now 0 0 s.now) × Bytes s.now }
{
    let mut q: usize = 0;
    for (i, b) in s.iter().enumerate() {
        let t = step(class, next, q, *b);
        if t == 255 {
            return Err(Stop { at: i });
        }
        q = usize::from(t);
    }
    if look(next, q, 0) == 255 {
        return Err(Stop { at: s.len() });
    }
    Ok(())
}

// 001's listing 12.
pub fn datetime_form(s: &[u8]) -> Result<(), Stop>
    ensures { result ≡ judge date_time_form s.now }
{
    run(&tables::CLASS, &tables::DATETIME, s)
}

// 000's listing 26.
pub fn id_form(s: &[u8]) -> Result<(), Stop>
    ensures { result ≡ judge id_form s.now }
{
    run(&tables::CLASS, &tables::ID, s)
}
