// Step 1 of 6.2.2: the sixty-four words that a block gives for the rounds.
ghost use Rattle.std.specs.Prelude.{◌≡◌, ℕ, ◌+◌, ◌*◌, ◌%◌, ◌^◌, ◌<◌, ◌≤◌, List, length};
ghost use Rattle.sha256.specs.Sha256.{word, later_word};
ghost use Rattle.sha256.specs.Parts.{There};

use crate::operations::{small_sigma0, small_sigma1};

// The first sixteen words, those of the block; the others are still to come.
pub(crate) fn begun(block: &[u8; 64]) -> [u32; 64]
    ensures { There 16 block.now result }
{
    let mut w = [0u32; 64];
    for t in 0..16 {
        w[t] = word_at(block, t);
    }
    w
}

// Eight words more of the schedule of any block of which t words are there; none after the sixty-fourth.
#[tactic(auto, using(crate::proofs::Turns::next_word, crate::proofs::Turns::extend_none, crate::proofs::Turns::extend_end))]
pub(crate) fn extend(w: &mut [u32; 64], t: usize)
    requires { (16 ≤ t) × (t ≤ 72) × (t % 8 ≡ 0) }
    ensures { (m : List ℕ) → There t m w.old → There (t + 8) m w.new }
{
    if 64 <= t {
        return;
    }
    for i in t..t + 8 {
        w[i] = later_word(w, i);
    }
}

// Word t of a block.
fn word_at(block: &[u8; 64], t: usize) -> u32
    requires { t < 16 }
    ensures { result ≡ word t block.now }
{
    let at = 4 * t;
    u32::from_be_bytes([block[at], block[at + 1], block[at + 2], block[at + 3]])
}

// Word t of the schedule, from 16 on.
#[tactic(auto, unfolding(crate::specs::Sha256::later_word))]
fn later_word(w: &[u32; 64], t: usize) -> u32
    requires { (16 ≤ t) × (t < 64) }
    ensures { result ≡ later_word t w.now }
{
    small_sigma1(w[t - 2])
        .wrapping_add(w[t - 7])
        .wrapping_add(small_sigma0(w[t - 15]))
        .wrapping_add(w[t - 16])
}
