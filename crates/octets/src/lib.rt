// What every floor shares about bytes: reads, comparisons, stores and numbers in bytes, and in specs/ and proofs/ the definitions and laws
// of lists of bytes.
#![tactic(auto)]

ghost use Rattle.std.specs.Prelude.{◌≡◌, ◌+◌, ◌≤◌, ◌<◌, ◌^◌, length, get_or};
ghost use Rattle.std.proofs.lemmas.List.Edits.{sets};
ghost use Rattle.std.specs.Int.{w64};
ghost use Rattle.std.proofs.Common.{of_z, to_z};
ghost use Rattle.octets.specs.Numbers.{number as number_in, big_endian};
ghost use Rattle.octets.specs.Parts.{part, same as is_same, zeros, all_zero};

// The byte at i, and 0 past the end: a field's value is taken at fixed places after its form was judged, so no index can fail.
pub fn at(s: &[u8], i: usize) -> u8
    ensures { (result ≡ get_or s.now i 0) × (result < 256) }
{
    s.get(i).copied().unwrap_or(0)
}

// Whether two slices are the same, byte for byte.
#[tactic(auto, using(crate::proofs::Equal::same_by_pairs))]
pub fn same(s: &[u8], t: &[u8]) -> bool
    ensures { result ≡ is_same s.now t.now }
{
    s == t
}

// Whether every byte is zero. All are taken together by or: a test for each would be many times slower.
#[tactic(auto, using(crate::proofs::Equal::zero_by_or))]
pub fn all_zero(s: &[u8]) -> bool
    ensures { result ≡ all_zero s.now }
{
    s.iter().fold(0, |together, b| together | *b) == 0
}

// Zeros in every byte.
#[tactic(auto, unfolding(crate::specs::Parts::zeros))]
pub fn clear(s: &mut [u8])
    ensures { s.new ≡ zeros (length s.old) }
{
    s.fill(0);
}

// The bytes of a source, from a place on.
#[tactic(auto, using(crate::proofs::Parts::part_home))]
pub fn put(out: &mut [u8], at: usize, source: &[u8])
    requires { at + length source.now ≤ length out.old }
    ensures { out.new ≡ sets out.old at source.now }
{
    out[at..at + source.len()].copy_from_slice(source);
}

// The number of width bytes from a place on, the most significant first.
pub fn number(s: &[u8], at: usize, width: usize) -> u64
    requires { (width ≤ 8) × (at + width ≤ length s.now) }
    ensures { (result ≡ number_in (part s.now at width)) × (result < 256 ^ width) }
{
    let mut n = 0;
    for b in &s[at..at + width] {
        n = n * 256 + u64::from(*b);
    }
    n
}

// The last bytes of a number, width of them, the most significant first, at a place.
#[tactic(auto, using(crate::proofs::Parts::part_home, crate::proofs::Numbers::last_bytes))]
pub fn put_number(out: &mut [u8], at: usize, x: u64, width: usize)
    requires { (width ≤ 8) × (at + width ≤ length out.old) }
    ensures { out.new ≡ sets out.old at (big_endian width x) }
{
    out[at..at + width].copy_from_slice(&x.to_be_bytes()[8 - width..]);
}

// A signed number's bits in two's complement, and back. Both are public, kept by their names for their clauses in `of_z` and `to_z`.
pub fn unsigned(x: i64) -> u64
    ensures { result ≡ of_z w64 x }
{
    x.cast_unsigned()
}

pub fn signed(bits: u64) -> i64
    ensures { result ≡ to_z w64 bits }
{
    bits.cast_signed()
}
