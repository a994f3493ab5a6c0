// What a line answers: the call that its word names, on the fields that follow.
#![tactic(auto)]

mod words;

ghost use Rattle.std.specs.Prelude.{◌≡◌};
ghost use Rattle.lines.specs.Lines.{words_of};
ghost use Rattle.rules.specs.declared.Answer.TheVariants.{NotInForm};
ghost use Rattle.book.specs.Step.{book_of, outcome};
ghost use Rattle.open_book.specs.Effect.{open_step};
ghost use Rattle.join.specs.Effect.{join_step};
ghost use Rattle.prepare.specs.Effect.{prepare_step};
ghost use Rattle.fulfil.specs.Effect.{fulfil_step};
ghost use Rattle.abort.specs.Effect.{abort_step};
ghost use Rattle.time.specs.Effect.{time_step};
ghost use Rattle.desk.specs.Desk.{prepare_text, called as called_on, line_step, never_opened, field_of, line_outcome};

use account::{BLANK, Head};
use book::Answered;
use rules::Answer;
use words::Word;

// What a line hands back beside the bytes that were lent, and how many of the list's numbers are shown with it.
#[derive(Clone, Copy)]
pub struct Reply {
    pub answer: Answer,
    pub mark: u32,
    pub listed: u32,
    pub head: Head,
}

// The reply of a call that has nothing to do with the list.
impl From<Answered> for Reply {
    ghost from_gives = { λ r q. q ≡ record { answer = r.answer; mark = r.mark; listed = 0; head = r.head } };

    fn from(r: Answered) -> Reply {
        Reply {
            answer: r.answer,
            mark: r.mark,
            listed: 0,
            head: r.head,
        }
    }
}

// The head of a book that was never opened: zeros, which is out of the shape.
#[tactic(auto, unfolding(octets::specs::Parts::zeros))]
pub fn never_opened() -> Head
    ensures { result ≡ never_opened }
{
    Head {
        accounts: [BLANK; 32],
        count: 0,
        currency: [0; 3],
        time: 0,
        slots: 0,
        places: 0,
        finished: 0,
    }
}

// A line that is no call.
fn refused(head: Head) -> Reply
    ensures { result ≡ record { answer = NotInForm; mark = 0; listed = 0; head = head } }
{
    Reply {
        answer: Answer::NotInForm,
        mark: 0,
        listed: 0,
        head,
    }
}

// PREPARE id payer payee currency amount condition expiration packet
fn prepare_line(h: Head, opened: &mut [u8], ended: &[u8], line: &[u8]) -> Answered
    ensures { outcome result opened.new ended.now
        ≡ prepare_step (book_of h opened.old ended.now) (prepare_text (field_of line.now)) }
{
    let id = lines::piece(line, 1);
    let payer = lines::piece(line, 2);
    let payee = lines::piece(line, 3);
    let currency = lines::piece(line, 4);
    let amount = lines::piece(line, 5);
    let condition = lines::piece(line, 6);
    let expiration = lines::piece(line, 7);
    let packet = lines::piece(line, 8);
    prepare::prepare(
        h, opened, ended, id, payer, payee, currency, amount, condition, expiration, packet,
    )
}

// The call that the word names, on the fields of the line. Head, books and list come one by one, as the seven calls take them.
fn called(
    w: Word,
    h: Head,
    opened: &mut [u8],
    ended: &mut [u8],
    list: &mut [u8],
    line: &[u8],
) -> Reply
    ensures { line_outcome result opened.new ended.new list.new
        ≡ called_on (book_of h opened.old ended.old) list.old w (field_of line.now) }
{
    let field = |k| lines::piece(line, k);
    // The words are closed, and each call has its own fields: one match, and no trait of calls.
    let answered = match w {
        Word::Open => open_book::open_book(h, opened, ended, field(1), field(2)),
        Word::Join => join::join(h, opened, ended, field(1), field(2)),
        Word::Prepare => prepare_line(h, opened, ended, line),
        Word::Fulfil => fulfil::fulfil(h, opened, ended, field(1), field(2), field(3)),
        Word::Abort => abort::abort(h, opened, ended, field(1), field(2), field(3)),
        // A time shows as many of the list's numbers as its mark says.
        Word::Time => {
            let r = time::time(h, opened, ended, list, field(1));
            return Reply {
                listed: r.mark,
                ..Reply::from(r)
            };
        }
    };
    Reply::from(answered)
}

// A line, its bytes without the newline. One that is not a word and its fields answers 1 and changes nothing.
pub fn reply_to(h: Head, opened: &mut [u8], ended: &mut [u8], list: &mut [u8], line: &[u8]) -> Reply
    ensures { line_outcome result opened.new ended.new list.new
        ≡ line_step (book_of h opened.old ended.old) list.old (words_of line.now) }
{
    let Some(word) = Word::named(lines::piece(line, 0)) else {
        return refused(h);
    };
    let fields = word.fields();
    if lines::count(line) != fields + 1 {
        return refused(h);
    }
    called(word, h, opened, ended, list, line)
}
