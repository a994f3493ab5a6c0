// Reads calls from standard input, a line each, and prints an answer line for each. The books are of 64 open and 100 finished records,
// the list has 64 places, and a line has at most 33,000 bytes with its newline.
#![tactic(auto)]

ghost use Rattle.std.specs.Prelude.{◌≡◌, cond, [], ◌+◌, ◌≤◌, length, take, drop, IfSome};
ghost use Rattle.lines.specs.Lines.{cut_at};

use account::Head;
use std::io::{Print, Read, Stdin, Stdout};

// What stands between two lines: the book and the list, the answers that are not written out yet, and whether the rest of a line that is
// too long is being passed over. The longest answer always fits behind those that are not written out.
#[derive(Drop)]
struct Switch {
    head: Head,
    opened: [u8; 10240],
    ended: [u8; 16000],
    list: [u8; 256],
    out: [u8; 8192],
    used: usize,
    skips: bool,
    ghost has_room: { used ≤ 4096 },
}

impl Switch {
    ghost use Rattle.switch.specs.Switch.{answered, book, printed_of, Served};
    ghost use Rattle.switch.specs.Input.{standing, waiting, through_lines, bounded};

    // The line is answered, and the answer is written from the first byte of the text; its length.
    fn tell(&mut self, line: &[u8], text: &mut [u8; 768]) -> usize
        ensures fits { result ≤ 768 }
        ensures told { printed_of self.new (take result text.new)
            ≡ answered (book self.old) self.old.list line.now }
    {
        let r = desk::reply_to(
            self.head,
            &mut self.opened,
            &mut self.ended,
            &mut self.list,
            line,
        );
        self.head = r.head;
        let number = r.answer.number();
        let code = r.answer.code();
        answer_line::put_line(number, code, r.mark, &self.list, r.listed, text)
    }

    // The answer to a line goes behind the output, which is written out where it may not hold another.
    fn serve(&mut self, line: &[u8], stdout: Stdout)
        ensures { Served (answered (book self.old) self.old.list line.now) self.new }
    {
        let mut text = [0; 768];
        let length = self.tell(line, &mut text);
        octets::put(&mut self.out, self.used, &text[..length]);
        self.used = flush(stdout, &self.out, self.used + length, 4096);
        self.skips = false;
    }

    // Every line of the text that has its newline; where the first begins that has none. The end of a line that is too long is no call,
    // as an empty line is none.
    fn each_line(&mut self, text: &[u8], stdout: Stdout) -> usize
        ensures within { result ≤ length text.now }
        ensures answered { waiting self.new (drop result text.now)
            ≡ through_lines self.old.skips (standing self.old) (cut_at 10 text.now) }
    {
        let mut at = 0;
        let mut end = lines::find(text, at, b'\n');
        // By hand: where a line ends is where the search for the next newline begins.
        while end < text.len() {
            let line = if self.skips {
                &text[..0]
            } else {
                &text[at..end]
            };
            self.serve(line, stdout);
            at = end + 1;
            end = lines::find(text, at, b'\n');
        }
        at
    }

    // All of the output is written out.
    fn write_out(&mut self, stdout: Stdout)
        ensures { waiting self.new [] ≡ waiting self.old [] }
    {
        self.used = flush(stdout, &self.out, self.used, 0);
    }

    // The end of the input: a rest without newline is no call, as an empty line is none.
    fn last_line(&mut self, have: usize, stdout: Stdout) {
        if self.skips || 0 < have {
            self.serve(b"", stdout);
        }
        self.write_out(stdout);
    }

    // The lines that a read completed, and how many of the buffer's first bytes are left. A buffer that is full and has no newline holds
    // the start of a line that is too long: it is dropped, and its rest passed over.
    fn answer_lines(&mut self, buf: &mut [u8], to: usize, stdout: Stdout) -> usize
        requires { to ≤ length buf.old }
        ensures within { result ≤ length buf.new }
        ensures answered { waiting self.new (take result buf.new)
            ≡ bounded (length buf.old)
            (through_lines self.old.skips (standing self.old) (cut_at 10 (take to buf.old))) }
    {
        let at = self.each_line(&buf[..to], stdout);
        self.write_out(stdout);
        buf.copy_within(at..to, 0);
        let have = to - at;
        if have < buf.len() {
            return have;
        }
        self.skips = true;
        0
    }

    // One read, and the lines that it completes; how many bytes of a line without newline the buffer holds, if the input goes on.
    fn turn(&mut self, buf: &mut [u8], have: usize, stdin: Stdin, stdout: Stdout) -> Option<usize>
        requires { have ≤ length buf.old }
        ensures { IfSome result (λ rest. rest ≤ length buf.new) }
    {
        let got = read_more(stdin, buf, have);
        if got == 0 {
            self.last_line(have, stdout);
            return None;
        }
        Some(self.answer_lines(buf, have + got, stdout))
    }

    // Every read but the last takes a byte, and no input has as many as there are turns.
    fn run(&mut self, buf: &mut [u8], stdin: Stdin, stdout: Stdout) {
        let mut have = 0;
        for _ in 0..u64::MAX {
            let Some(rest) = self.turn(buf, have, stdin, stdout) else {
                return;
            };
            have = rest;
        }
    }
}

// Writes out what the output holds, if that is more than so many bytes; how many are left.
fn flush(stdout: Stdout, out: &[u8], used: usize, most: usize) -> usize
    requires { used ≤ length out.now }
    ensures { result ≤ most }
{
    if used <= most {
        return used;
    }
    let _ = Print::write_all(&stdout, &out[..used]);
    0
}

// How many bytes a read put into the buffer from a place on; 0 at the end of the input, and where the read failed.
fn read_more(mut stdin: Stdin, buf: &mut [u8], have: usize) -> usize
    requires { have ≤ length buf.old }
    ensures { have + result ≤ length buf.new }
{
    stdin.read(&mut buf[have..]).unwrap_or(0)
}

fn main(rt: HostRuntime) {
    let mut buf = [0; 33000];
    let mut switch = Switch {
        head: desk::never_opened(),
        opened: [0; 10240],
        ended: [0; 16000],
        list: [0; 256],
        out: [0; 8192],
        used: 0,
        skips: false,
    };
    switch.run(&mut buf, rt.stdin(), rt.stdout());
}
