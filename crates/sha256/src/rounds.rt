// Steps 2 to 4 of 6.2.2: the rounds, and the blocks of a message taken in one after the other.
ghost use Rattle.std.specs.Prelude.{◌≡◌, ◌+◌, ◌/◌, ◌≤◌, length};
ghost use Rattle.sha256.specs.Sha256.{T1, T2, step, round, rounds, schedule, sums, compress, absorb, H0};

use crate::operations::{big_sigma0, big_sigma1, ch, maj};
use crate::schedule;

// 4.2.2.
const K: [u32; 64] = [
    0x428a2f98, 0x71374491, 0xb5c0fbcf, 0xe9b5dba5, 0x3956c25b, 0x59f111f1, 0x923f82a4, 0xab1c5ed5,
    0xd807aa98, 0x12835b01, 0x243185be, 0x550c7dc3, 0x72be5d74, 0x80deb1fe, 0x9bdc06a7, 0xc19bf174,
    0xe49b69c1, 0xefbe4786, 0x0fc19dc6, 0x240ca1cc, 0x2de92c6f, 0x4a7484aa, 0x5cb0a9dc, 0x76f988da,
    0x983e5152, 0xa831c66d, 0xb00327c8, 0xbf597fc7, 0xc6e00bf3, 0xd5a79147, 0x06ca6351, 0x14292967,
    0x27b70a85, 0x2e1b2138, 0x4d2c6dfc, 0x53380d13, 0x650a7354, 0x766a0abb, 0x81c2c92e, 0x92722c85,
    0xa2bfe8a1, 0xa81a664b, 0xc24b8b70, 0xc76c51a3, 0xd192e819, 0xd6990624, 0xf40e3585, 0x106aa070,
    0x19a4c116, 0x1e376c08, 0x2748774c, 0x34b0bcb5, 0x391c0cb3, 0x4ed8aa4a, 0x5b9cca4f, 0x682e6ff3,
    0x748f82ee, 0x78a5636f, 0x84c87814, 0x8cc70208, 0x90befffa, 0xa4506ceb, 0xbef9a3f7, 0xc67178f2,
];

// 5.3.3.
pub(crate) fn start() -> [u32; 8]
    ensures { result ≡ H0 }
{
    [
        0x6a09e667, 0xbb67ae85, 0x3c6ef372, 0xa54ff53a, 0x510e527f, 0x9b05688c, 0x1f83d9ab,
        0x5be0cd19,
    ]
}

// The hash value s after the whole blocks of a message.
pub(crate) fn absorbed(s: [u32; 8], message: &[u8]) -> [u32; 8]
    ensures { result ≡ absorb (length message.now / 64) s message.now }
{
    let (blocks, _) = message.as_chunks::<64>();
    blocks.iter().fold(s, compressed)
}

// The hash value s after one block.
#[tactic(auto, unfolding(crate::specs::Sha256::compress))]
fn compressed(s: [u32; 8], block: &[u8; 64]) -> [u32; 8]
    ensures { result ≡ compress s block.now }
{
    added(s, all_rounds(s, block))
}

#[tactic(auto, using(crate::proofs::Turns::sums_each))]
fn added(s: [u32; 8], v: [u32; 8]) -> [u32; 8]
    ensures { result ≡ sums s v }
{
    let mut sum = [0u32; 8];
    for i in 0..8 {
        sum[i] = v[i].wrapping_add(s[i]);
    }
    sum
}

// The rounds, with the schedule made eight words ahead of them: a processor works on both at once.
#[tactic(auto, using(crate::proofs::Turns::rounds_none))]
fn all_rounds(s: [u32; 8], block: &[u8; 64]) -> [u32; 8]
    ensures { result ≡ rounds 64 0 (schedule 64 block.now) s }
{
    let mut w = schedule::begun(block);
    let mut v = s;
    for turn in 0..8 {
        let t = 8 * turn;
        schedule::extend(&mut w, t + 16);
        // Named first: the check does not cover an array that a call lays straight into v.
        let next = eight_rounds(v, &w, t);
        v = next;
    }
    v
}

// Eight rounds to a turn of the loop: the variables are then back in their places, and none is moved.
#[tactic(auto, using(crate::proofs::Turns::rounds_eight))]
fn eight_rounds(s: [u32; 8], w: &[u32; 64], t: usize) -> [u32; 8]
    requires { t + 8 ≤ 64 }
    ensures { result ≡ rounds 8 t w.now s }
{
    let two = two_rounds(s, w, t);
    let four = two_rounds(two, w, t + 2);
    let six = two_rounds(four, w, t + 4);
    two_rounds(six, w, t + 6)
}

#[tactic(auto, unfolding(crate::specs::Sha256::rounds, crate::specs::Sha256::K))]
fn two_rounds(s: [u32; 8], w: &[u32; 64], t: usize) -> [u32; 8]
    requires { t + 2 ≤ 64 }
    ensures { result ≡ rounds 2 t w.now s }
{
    let one = one_round(s, K[t], w[t]);
    one_round(one, K[t + 1], w[t + 1])
}

#[tactic(auto, unfolding(crate::specs::Sha256::step))]
fn one_round(s: [u32; 8], k: u32, w: u32) -> [u32; 8]
    ensures { result ≡ round s k w }
{
    let [a, b, c, d, e, f, g, h] = s;
    let t1 = first_temporary(e, f, g, h, k, w);
    let t2 = second_temporary(a, b, c);
    let new_a = t1.wrapping_add(t2);
    let new_e = d.wrapping_add(t1);
    [new_a, a, b, c, new_e, e, f, g]
}

#[tactic(auto, unfolding(crate::specs::Sha256::T1))]
fn first_temporary(e: u32, f: u32, g: u32, h: u32, k: u32, w: u32) -> u32
    ensures { result ≡ T1 e f g h k w }
{
    h.wrapping_add(big_sigma1(e))
        .wrapping_add(ch(e, f, g))
        .wrapping_add(k)
        .wrapping_add(w)
}

#[tactic(auto, unfolding(crate::specs::Sha256::T2))]
fn second_temporary(a: u32, b: u32, c: u32) -> u32
    ensures { result ≡ T2 a b c }
{
    big_sigma0(a).wrapping_add(maj(a, b, c))
}
