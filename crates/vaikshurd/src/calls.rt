// The calls that change head and books: a head of the form is read, the call is made on it, and the head is written where it is accepted.
// Each exported call has these three lines: a closure in their place would have to hold the books that C lends.
ghost use Rattle.std.specs.Prelude.{◌≡◌, length};
ghost use Rattle.join.specs.Effect.{join_step};
ghost use Rattle.prepare.specs.Effect.{prepare_step};
ghost use Rattle.fulfil.specs.Effect.{fulfil_step};
ghost use Rattle.abort.specs.Effect.{abort_step};
ghost use Rattle.time.specs.Effect.{time_step};
ghost use Rattle.vaikshurd.specs.Packed.{word};
ghost use Rattle.vaikshurd.specs.Face.{left, head_left, called, other_length, opening, list_left};

use crate::answers::packed;
use book::Answered;
use rules::Answer;

// The head is written where the call is accepted.
fn done(head: &mut [u8], r: Answered) -> u64
    requires { length head.old ≡ 2080 }
    ensures { (result ≡ word r.answer r.mark)
        × (head.new ≡ head_left head.old r.answer r.head) }
{
    if r.answer.is_done() {
        head_form::encode(head, r.head);
    }
    packed(r.answer, r.mark)
}

// A head of another length: 1 where a field is not in form, else 20.
#[tactic(auto, unfolding(datetime::specs::Instant::read_date_time))]
fn open_refused(currency: &[u8], time: &[u8]) -> u64
    ensures { result ≡ word (other_length currency.now time.now) 0 }
{
    if tokens::read_currency(currency).is_err() {
        return packed(Answer::NotInForm, 0);
    }
    match datetime::read_datetime(time) {
        Ok(_) => packed(Answer::BadLengths, 0),
        Err(_) => packed(Answer::NotInForm, 0),
    }
}

// Open: 1, 20. No form is asked of the head, and what it holds does not count.
#[unsafe(no_mangle)]
pub extern "C" fn vaik_open(
    head: &mut [u8],
    opened: &mut [u8],
    ended: &mut [u8],
    currency: &[u8],
    time: &[u8],
) -> u64
    ensures { left result head.new opened.new ended.new
        ≡ opening head.old opened.old ended.old currency.now time.now }
{
    if head.len() != 2080 {
        return open_refused(currency, time);
    }
    let h = head_form::decode(head);
    let r = open_book::open_book(h, opened, ended, currency, time);
    done(head, r)
}

// Join: 21, 1, 19, 17, 18.
#[unsafe(no_mangle)]
pub extern "C" fn vaik_join(
    head: &mut [u8],
    opened: &[u8],
    ended: &[u8],
    name: &[u8],
    cap: &[u8],
) -> u64
    ensures { left result head.new opened.now ended.now
        ≡ called head.old opened.now ended.now
        (λ b. join_step b name.now cap.now) }
{
    if !head_form::is_formed(head) {
        return packed(Answer::OutOfShape, 0);
    }
    let h = head_form::decode(head);
    let r = join::join(h, opened, ended, name, cap);
    done(head, r)
}

// Prepare: 21, 1, 2, 3, 4, 5; 24, 6; 7, 8, 9, 10.
#[unsafe(no_mangle)]
pub extern "C" fn vaik_prepare(
    head: &mut [u8],
    opened: &mut [u8],
    ended: &[u8],
    id: &[u8],
    payer: &[u8],
    payee: &[u8],
    currency: &[u8],
    amount: &[u8],
    condition: &[u8],
    expiration: &[u8],
    packet: &[u8],
) -> u64
    ensures { left result head.new opened.new ended.now
        ≡ called head.old opened.old ended.now (λ b. prepare_step b (record {
          id = id.now;
          payer = payer.now;
          payee = payee.now;
          currency = currency.now;
          amount = amount.now;
          condition = condition.now;
          expiration = expiration.now;
          packet = packet.now;
        })) }
{
    if !head_form::is_formed(head) {
        return packed(Answer::OutOfShape, 0);
    }
    let h = head_form::decode(head);
    let r = prepare::prepare(
        h, opened, ended, id, payer, payee, currency, amount, condition, expiration, packet,
    );
    done(head, r)
}

// Fulfil: 21, 1, 11, 12; then by the state.
#[unsafe(no_mangle)]
pub extern "C" fn vaik_fulfil(
    head: &mut [u8],
    opened: &mut [u8],
    ended: &mut [u8],
    sender: &[u8],
    id: &[u8],
    fulfilment: &[u8],
) -> u64
    ensures { left result head.new opened.new ended.new
        ≡ called head.old opened.old ended.old
        (λ b. fulfil_step b sender.now id.now fulfilment.now) }
{
    if !head_form::is_formed(head) {
        return packed(Answer::OutOfShape, 0);
    }
    let h = head_form::decode(head);
    let r = fulfil::fulfil(h, opened, ended, sender, id, fulfilment);
    done(head, r)
}

// Abort: 21, 1, 11, 12; then by the state.
#[unsafe(no_mangle)]
pub extern "C" fn vaik_abort(
    head: &mut [u8],
    opened: &mut [u8],
    ended: &mut [u8],
    sender: &[u8],
    id: &[u8],
    code: &[u8],
) -> u64
    ensures { left result head.new opened.new ended.new
        ≡ called head.old opened.old ended.old
        (λ b. abort_step b sender.now id.now code.now) }
{
    if !head_form::is_formed(head) {
        return packed(Answer::OutOfShape, 0);
    }
    let h = head_form::decode(head);
    let r = abort::abort(h, opened, ended, sender, id, code);
    done(head, r)
}

// Time: 21, 1, 15, 16. A place of the list is 4 bytes; a shorter rest is none.
#[unsafe(no_mangle)]
pub extern "C" fn vaik_time(
    head: &mut [u8],
    opened: &mut [u8],
    ended: &mut [u8],
    list: &mut [u8],
    instant: &[u8],
) -> u64
    ensures { (left result head.new opened.new ended.new
        ≡ called head.old opened.old ended.old
        (λ b. (time_step b list.old instant.now).outcome))
        × (list.new ≡ list_left head.old opened.old ended.old
        list.old instant.now) }
{
    if !head_form::is_formed(head) {
        return packed(Answer::OutOfShape, 0);
    }
    let h = head_form::decode(head);
    let r = time::time(h, opened, ended, list, instant);
    done(head, r)
}
