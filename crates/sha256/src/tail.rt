// 5.1.1: the end of the padded message, one block or two: what follows the whole blocks of the message, mark, zeros, count of bits.
ghost use Rattle.std.specs.Prelude.{◌≡◌, ◌+◌, ◌-◌, ◌*◌, ◌≤◌, ◌∷◌, ◌++◌, length, take, drop};
ghost use Rattle.octets.specs.Numbers.{big_endian};
ghost use Rattle.octets.specs.Parts.{zeros};
ghost use Rattle.sha256.specs.Sha256.{pad};
ghost use Rattle.sha256.specs.Parts.{wholes, rest, padded_length};

// How long the end is, of a message of n bytes: two blocks where the mark and the count find no room in one.
pub(crate) fn size(n: usize) -> usize
    ensures { wholes n + result ≡ padded_length n }
{
    if n % 64 < 56 { 64 } else { 128 }
}

// The end of the padded message, as the first size bytes: one block or two, in memory of a fixed length.
#[tactic(auto, using(crate::proofs::Padding::end_made))]
pub(crate) fn made(message: &[u8], size: usize) -> [u8; 128]
    requires { wholes (length message.now) + size ≡ padded_length (length message.now) }
    ensures { take size result ≡ drop (wholes (length message.now)) (pad message.now) }
{
    counted(marked(message), size, message.len())
}

// The rest of the message, the mark, and zeros.
fn marked(message: &[u8]) -> [u8; 128]
    ensures { result ≡ rest message.now ++ (0x80 ∷ zeros (127 - length (rest message.now))) }
{
    let left = message.as_chunks::<64>().1;
    let mut out = [0u8; 128];
    out[..left.len()].copy_from_slice(left);
    out[left.len()] = 0x80;
    out
}

// The count of the bits of n bytes in the last 8 of the first size bytes: modulo 2^64, so that no length makes the product wrap.
#[tactic(auto, using(crate::proofs::Padding::count_end))]
fn counted(mut b: [u8; 128], size: usize, n: usize) -> [u8; 128]
    requires { (8 ≤ size) × (size ≤ 128) }
    ensures { take size result ≡ take (size - 8) b ++ big_endian 8 (8 * n) }
{
    let bits = (n as u64).wrapping_mul(8);
    octets::put_number(&mut b, size - 8, bits, 8);
    b
}
