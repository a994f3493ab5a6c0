// The answer of a call in one number, the code of a number, and the length of a head.
ghost use Rattle.std.specs.Prelude.{◌≡◌};
ghost use Rattle.vaikshurd.specs.Packed.{word, code_for};

use rules::Answer;

// Number, code and mark in one number: bits 0 to 15, 16 to 31, 32 to 63.
pub fn packed(a: Answer, mark: u32) -> u64
    ensures { result ≡ word a mark }
{
    u64::from(a.number()) + u64::from(a.code()) * 65536 + u64::from(mark) * 4294967296
}

// The answers of 01's table, in the order of the numbers.
const ANSWERS: [Answer; 25] = [
    Answer::Done, // 0
    Answer::NotInForm, // 1
    Answer::NoPayer, // 2
    Answer::NoPayee, // 3
    Answer::PayerIsPayee, // 4
    Answer::OtherCurrency, // 5
    Answer::OtherContent, // 6
    Answer::Expired, // 7
    Answer::OpenBookFull, // 8
    Answer::NoPlaceLeft, // 9
    Answer::CapPassed, // 10
    Answer::UnknownId, // 11
    Answer::NotThePayee, // 12
    Answer::EndedAnotherWay, // 13
    Answer::NoMatch, // 14
    Answer::ClockGoesBack, // 15
    Answer::ListTooShort, // 16
    Answer::NameHeld, // 17
    Answer::AccountsFull, // 18
    Answer::CapTooHigh, // 19
    Answer::BadLengths, // 20
    Answer::OutOfShape, // 21
    Answer::OutsideYears, // 22
    Answer::NoRoom, // 23
    Answer::Resend, // 24
];

// The API's error code of an answer's number; 0 for a number that is none.
#[unsafe(no_mangle)]
pub extern "C" fn vaik_code(number: u32) -> u32
    ensures { result ≡ code_for number }
{
    let k = number as usize;
    if k < 25 {
        return u32::from(ANSWERS[k].code());
    }
    0
}

// The length of a head's bytes (docs/HEAD.md).
#[unsafe(no_mangle)]
pub extern "C" fn vaik_head_length() -> u64
    ensures { result ≡ 2080 }
{
    2080
}
