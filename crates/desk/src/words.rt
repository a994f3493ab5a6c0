// The words that a line can begin with.
ghost use Rattle.std.specs.Prelude.{◌≡◌};
ghost use Rattle.desk.specs.Words.{word_of, fields_in};

// The call that a word names; a lookup has no line.
#[derive(Clone, Copy)]
pub enum Word {
    Open,
    Join,
    Prepare,
    Fulfil,
    Abort,
    Time,
}

impl Word {
    #[tactic(auto, unfolding(crate::specs::Words::word_of))]
    pub(crate) fn named(s: &[u8]) -> Option<Word>
        ensures { result ≡ word_of s.now }
    {
        // A test for each, in turn: a match on the six texts has a case for each byte at which another may differ.
        if octets::same(s, b"OPEN") {
            return Some(Word::Open);
        }
        if octets::same(s, b"JOIN") {
            return Some(Word::Join);
        }
        if octets::same(s, b"PREPARE") {
            return Some(Word::Prepare);
        }
        if octets::same(s, b"FULFIL") {
            return Some(Word::Fulfil);
        }
        if octets::same(s, b"ABORT") {
            return Some(Word::Abort);
        }
        if octets::same(s, b"TIME") {
            return Some(Word::Time);
        }
        None
    }

    // How many fields follow a word.
    pub(crate) fn fields(self) -> usize
        ensures { result ≡ fields_in self }
    {
        match self {
            Word::Open | Word::Join => 2,
            Word::Prepare => 8,
            Word::Fulfil | Word::Abort => 3,
            Word::Time => 1,
        }
    }
}
