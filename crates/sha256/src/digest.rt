// The end of 6.2.2: the eight words of the hash value one after the other, each with its most significant byte first.
ghost use Rattle.std.specs.Prelude.{◌≡◌};
ghost use Rattle.sha256.specs.Sha256.{joined};

#[tactic(auto, using(crate::proofs::Turns::joined_none, crate::proofs::Turns::joined_step, crate::proofs::Turns::joined_all))]
pub(crate) fn bytes_of(s: [u32; 8]) -> [u8; 32]
    ensures { result ≡ joined 8 s }
{
    let mut out = [0u8; 32];
    for i in 0..8 {
        octets::put_number(&mut out, 4 * i, u64::from(s[i]), 4);
    }
    out
}
