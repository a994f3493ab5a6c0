// SHA-256 (FIPS 180-4) of a message of bytes. The promise cites specs/Sha256.antt, written section by section from the standard.
// The whole blocks of the message are taken in where they lie; only the last one or two, with the padding, are made.
#![tactic(auto)]

ghost use Rattle.std.specs.Prelude.{◌≡◌};
ghost use Rattle.sha256.specs.Sha256.{sha256};

mod digest; // the hash value as bytes
mod operations; // the rotation, the six functions
mod rounds; // blocks taken into the hash value
mod schedule; // the schedule of a block
mod tail; // the end of the padded message

// The message digest, of a message of any length. The standard's limit is 2^64 bits; from there on the padding counts modulo 2^64.
pub fn hash(message: &[u8]) -> [u8; 32]
    ensures { result ≡ sha256 message.now }
{
    let whole = rounds::absorbed(rounds::start(), message);
    let size = tail::size(message.len());
    let end = tail::made(message, size);
    digest::bytes_of(rounds::absorbed(whole, &end[..size]))
}
