// The printed answer to a line: number, code, mark, and the numbers of the list that a time shows, in decimal with single spaces.
#![tactic(auto)]

ghost use Rattle.std.specs.Prelude.{◌≡◌, ◌+◌, ◌*◌, ◌/◌, ◌≤◌, ◌<◌, min, ◌++◌, length, drop};
ghost use Rattle.answer_line.specs.Text.{decimal_text, spaced, number_at, list_text, answer_text};
ghost use Rattle.answer_line.specs.Inner.{Put};

use amount::Amount;

// A number, from a place on; where its text ends. Ten places hold any number, so the write does not fail.
// Buffer and place stay two parameters, here and below: a struct of them would be unpacked by each of the four writes.
fn put_number(out: &mut [u8], at: usize, n: u32) -> usize
    requires { at + 10 ≤ length out.old }
    ensures { Put 10 (decimal_text n) at out.old out.new result }
{
    let whole = Amount {
        units: u64::from(n),
        remainder: 0,
    };
    let Ok(length) = amount::write_amount(whole, &mut out[at..]) else {
        unreachable!()
    };
    at + length
}

// A space and a number.
fn put_next(out: &mut [u8], at: usize, n: u32) -> usize
    requires { at + 11 ≤ length out.old }
    ensures { Put 11 (spaced n) at out.old out.new result }
{
    out[at] = b' ';
    put_number(out, at + 1, n)
}

// Number k of the list.
#[tactic(auto, unfolding(octets::specs::Numbers::number_from))]
fn number_at(list: &[u8; 256], k: usize) -> u32
    requires { k < 64 }
    ensures { result ≡ number_at list.now k }
{
    let mut place = [0; 4];
    place.copy_from_slice(&list[k * 4..k * 4 + 4]);
    u32::from_be_bytes(place)
}

// The first numbers of the list, each after a space.
fn put_list(out: &mut [u8], at: usize, list: &[u8; 256], shown: usize) -> usize
    requires { (shown ≤ 64) × (at + 11 * shown ≤ length out.old) }
    ensures { Put (11 * shown) (list_text list.now shown) at out.old out.new result }
{
    let mut end = at;
    for k in 0..shown {
        end = put_next(out, end, number_at(list, k));
    }
    end
}

// The answer line from the first byte of the buffer, where the longest has room, and its length; the bytes past it stay.
pub fn put_line(
    number: u16,
    code: u16,
    mark: u32,
    list: &[u8; 256],
    listed: u32,
    out: &mut [u8; 768],
) -> usize
    ensures { (result ≡ length (answer_text number code mark list.now listed))
        × (result ≤ 768)
        × (out.new ≡ answer_text number code mark list.now listed ++ drop result out.old) }
{
    let a = put_number(out, 0, u32::from(number));
    let b = put_next(out, a, u32::from(code));
    let c = put_next(out, b, mark);
    // no more numbers than the list has places
    let shown = (listed as usize).min(list.len() / 4);
    let d = put_list(out, c, list, shown);
    out[d] = b'\n';
    d + 1
}
