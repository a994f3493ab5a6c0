// The readers, the writers and the hash as C calls, for the tests and benchmarks outside Rattle. Proved safe and ending: what they
// hand over is compared there, byte for byte, with a second implementation.
#![tactic(auto)]

use amount::Amount;
use form::{Stop, Unwritten};

// A reader's answer to a text of the form; to any other it is the offset.
const IN_FORM: u64 = u64::MAX;

// What a reader answers; a value is taken by its caller.
fn told<T, F: FnOnce(T)>(read: Result<T, Stop>, take: F) -> u64
    requires { (value : T) → F.pre take value }
{
    match read {
        Ok(value) => {
            take(value);
            IN_FORM
        }
        Err(stop) => stop.at as u64,
    }
}

// 01's number in the low half, the length in the high half.
fn packed(written: Result<usize, Unwritten>) -> u64 {
    match written {
        Ok(length) => length as u64 % 4294967296 * 4294967296,
        Err(Unwritten::NotInForm) => 1,
        Err(Unwritten::OutsideYears) => 22,
        Err(Unwritten::NoRoom) => 23,
    }
}

// Copies a value into the lent place, if it has room for it.
fn hand_over(value: &[u8], out: &mut [u8]) {
    if value.len() <= out.len() {
        out[..value.len()].copy_from_slice(value);
    }
}

#[unsafe(no_mangle)]
pub extern "C" fn probe_read_amount(s: &[u8], units: &mut u64, remainder: &mut u16) -> u64 {
    told(amount::read_amount(s), |a| {
        *units = a.units;
        *remainder = a.remainder;
    })
}

#[unsafe(no_mangle)]
pub extern "C" fn probe_write_amount(units: u64, remainder: u16, out: &mut [u8]) -> u64 {
    packed(amount::write_amount(Amount { units, remainder }, out))
}

#[unsafe(no_mangle)]
pub extern "C" fn probe_read_id(s: &[u8], out: &mut [u8]) -> u64 {
    let mut id = [0; 16];
    let read = uuid_text::read_into(s, &mut id);
    told(read, |()| hand_over(&id, out))
}

#[unsafe(no_mangle)]
pub extern "C" fn probe_write_id(id: &[u8], out: &mut [u8]) -> u64 {
    packed(uuid_text::write_id(id, out))
}

#[unsafe(no_mangle)]
pub extern "C" fn probe_read_datetime(s: &[u8], ms: &mut i64) -> u64 {
    told(datetime::read_datetime(s), |instant| *ms = instant)
}

#[unsafe(no_mangle)]
pub extern "C" fn probe_write_datetime(ms: i64, out: &mut [u8]) -> u64 {
    packed(datetime::write_datetime(ms, out))
}

#[unsafe(no_mangle)]
pub extern "C" fn probe_read_condition(s: &[u8], out: &mut [u8]) -> u64 {
    told(base64url::read_condition(s), |value| hand_over(&value, out))
}

#[unsafe(no_mangle)]
pub extern "C" fn probe_write_condition(value: &[u8], out: &mut [u8]) -> u64 {
    packed(base64url::write_condition(value, out))
}

#[unsafe(no_mangle)]
pub extern "C" fn probe_read_name(s: &[u8]) -> u64 {
    told(tokens::read_name(s), |()| ())
}

#[unsafe(no_mangle)]
pub extern "C" fn probe_read_currency(s: &[u8]) -> u64 {
    told(tokens::read_currency(s), |()| ())
}

#[unsafe(no_mangle)]
pub extern "C" fn probe_read_packet(s: &[u8]) -> u64 {
    told(base64url::read_packet(s), |()| ())
}

#[unsafe(no_mangle)]
pub extern "C" fn probe_read_code(s: &[u8], code: &mut u16) -> u64 {
    told(tokens::read_code(s), |number| *code = number)
}

#[unsafe(no_mangle)]
pub extern "C" fn probe_sha256(m: &[u8], out: &mut [u8]) {
    hand_over(&sha256::hash(m), out);
}
