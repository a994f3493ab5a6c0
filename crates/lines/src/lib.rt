// A line, its bytes without the newline, cut into a word and its fields at single spaces.
#![tactic(auto)]

ghost use Rattle.std.specs.Prelude.{◌≡◌, [], ◌+◌, ◌≤◌, length, get_or, drop};
ghost use Rattle.lines.specs.Lines.{index_of, pieces, words_of};

// The longest call is a PREPARE: its word and eight fields.
const MOST_WORDS: usize = 9;

// Where the first such byte is from a place on; the text's length where there is none.
// A place and not an Option: docs/PROMISES.md promises it, and its equation has no case of its own for a text without the byte.
pub fn find(text: &[u8], from: usize, byte: u8) -> usize
    requires { from ≤ length text.now }
    ensures place { result ≡ from + index_of byte (drop from text.now) }
    ensures within { result ≤ length text.now }
{
    match text[from..].iter().position(|b| *b == byte) {
        Some(i) => from + i,
        None => text.len(),
    }
}

// How many words the line has; 0 where it is not built of a word and its fields. A number and not an Option, as docs/PROMISES.md promises.
// One turn for a word, and none behind the tenth: the line may be as long as a packet and hold nothing but short words.
pub fn count(line: &[u8]) -> usize
    ensures { result ≡ length (words_of line.now) }
{
    let mut words = 0;
    for piece in line.split(|b| *b == b' ') {
        if piece.is_empty() || words == MOST_WORDS {
            return 0;
        }
        words += 1;
    }
    words
}

// Piece k of the line cut at every space, from 0; an empty part where there are not so many.
pub fn piece(line: &[u8], k: usize) -> &[u8]
    ensures { result.now ≡ get_or (pieces line.now) k [] }
{
    line.split(|b| *b == b' ').nth(k).unwrap_or(b"")
}
