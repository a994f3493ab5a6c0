// The numbers given back (01, "Numbers given back"). The rules of the calls are definitions: specs/Rules.antt is the page to read.
#![tactic(auto)]

ghost use Rattle.std.specs.Prelude.{◌≡◌};
ghost use Rattle.rules.specs.Answers.{number, code, is_done};

// One variant for each number of 01's table, in its order.
#[derive(Clone, Copy, Debug, PartialEq, Eq)]
pub enum Answer {
    Done,
    NotInForm,
    NoPayer,
    NoPayee,
    PayerIsPayee,
    OtherCurrency,
    OtherContent,
    Expired,
    OpenBookFull,
    NoPlaceLeft,
    CapPassed,
    UnknownId,
    NotThePayee,
    EndedAnotherWay,
    NoMatch,
    ClockGoesBack,
    ListTooShort,
    NameHeld,
    AccountsFull,
    CapTooHigh,
    BadLengths,
    OutOfShape,
    OutsideYears,
    NoRoom,
    Resend,
}

impl Answer {
    // The number of an answer.
    pub fn number(self) -> u16
        ensures { result ≡ number self }
    {
        self as u16
    }

    // The API's error code of an answer.
    pub fn code(self) -> u16
        ensures { result ≡ code self }
    {
        match self {
            Answer::NotInForm => 3101,
            Answer::NoPayer => 3202,
            Answer::NoPayee => 3203,
            Answer::OtherContent => 3106,
            Answer::Expired => 3303,
            Answer::OpenBookFull => 2005,
            Answer::NoPlaceLeft => 2003,
            Answer::CapPassed => 4001,
            Answer::UnknownId => 3208,
            Answer::OutOfShape => 2001,
            Answer::PayerIsPayee
            | Answer::OtherCurrency
            | Answer::NotThePayee
            | Answer::EndedAnotherWay
            | Answer::NoMatch => 3100,
            _ => 0,
        }
    }

    // Whether a call with this answer writes: "All but 0 change nothing lent and no state".
    pub fn is_done(self) -> bool
        ensures { result ≡ is_done self }
    {
        matches!(self, Answer::Done)
    }
}
