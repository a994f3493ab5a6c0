// The short field texts that are only judged, FSP name and currency, and the abort code with its value.
#![tactic(auto)]

ghost use Rattle.std.specs.Prelude.{◌≡◌};
ghost use Rattle.octets.specs.Decimal.{decimal};
ghost use Rattle.form.specs.Regex.{judge};
ghost use Rattle.form.specs.Verdict.{of_form};
ghost use Rattle.form.specs.Listings.{name_form, currency_form, code_form};
ghost use Rattle.tokens.specs.Code.{read_code};

use form::Stop;

// The texts of fewest to most bytes, each from low to high, of which the first may have to lie higher.
struct Row {
    first: u8,
    low: u8,
    high: u8,
    fewest: usize,
    most: usize,
}

impl Row {
    ghost use Rattle.tokens.specs.Row.{may_stand, judge_row};

    // Whether a byte may stand at this place.
    fn may_stand(&self, place: usize, b: u8) -> bool
        ensures { result ≡ may_stand self.now place b }
    {
        place < self.most && self.low <= b && b <= self.high && (0 < place || self.first <= b)
    }

    // The verdict on a text.
    fn judge(&self, s: &[u8]) -> Result<(), Stop>
        ensures { result ≡ judge_row self.now 0 s.now }
    {
        for (i, b) in s.iter().enumerate() {
            if !self.may_stand(i, *b) {
                return Err(Stop { at: i });
            }
        }
        if s.len() < self.fewest {
            return Err(Stop { at: s.len() });
        }
        Ok(())
    }
}

// FSP name: 1 to 32 bytes, 0x21 to 0x7E.
const NAME: Row = Row {
    first: 0x21,
    low: 0x21,
    high: 0x7E,
    fewest: 1,
    most: 32,
};

// Currency: three letters A-Z.
const CURRENCY: Row = Row {
    first: b'A',
    low: b'A',
    high: b'Z',
    fewest: 3,
    most: 3,
};

// Abort code: four digits, the first not 0.
const CODE: Row = Row {
    first: b'1',
    low: b'0',
    high: b'9',
    fewest: 4,
    most: 4,
};

/// An FSP name.
#[tactic(auto, using(crate::proofs::Rows::name_judged))]
pub fn read_name(s: &[u8]) -> Result<(), Stop>
    ensures { result ≡ judge name_form s.now }
{
    NAME.judge(s)
}

/// A currency.
#[tactic(auto, using(crate::proofs::Rows::currency_judged))]
pub fn read_currency(s: &[u8]) -> Result<(), Stop>
    ensures { result ≡ judge currency_form s.now }
{
    CURRENCY.judge(s)
}

// The number that an abort code's digits make.
fn number_of(s: &[u8]) -> u16
    requires { judge code_form s.now ≡ of_form }
    ensures { result ≡ decimal s.now }
{
    let mut code = 0;
    for c in s {
        code = code * 10 + u16::from(*c - b'0');
    }
    code
}

/// An abort code, and its value.
#[tactic(auto, using(crate::proofs::Rows::code_judged), unfolding(crate::specs::Code::read_code))]
pub fn read_code(s: &[u8]) -> Result<u16, Stop>
    ensures { result ≡ read_code s.now }
{
    CODE.judge(s)?;
    Ok(number_of(s))
}
