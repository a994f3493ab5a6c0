// The rotation of 3.2 and the six functions of 4.1.2.
ghost use Rattle.std.specs.Prelude.{◌≡◌, ◌<◌};
ghost use Rattle.sha256.specs.Sha256.{ROTR, Ch, Maj, Σ0, Σ1, σ0, σ1};

fn rotated(x: u32, n: u32) -> u32
    requires { (0 < n) × (n < 32) }
    ensures { result ≡ ROTR n x }
{
    x.rotate_right(n)
}

// In the form that takes an operation less and no complement.
#[tactic(auto, using(crate::proofs::Merge::chosen))]
pub(crate) fn ch(x: u32, y: u32, z: u32) -> u32
    ensures { result ≡ Ch x y z }
{
    z ^ (x & (y ^ z))
}

pub(crate) fn maj(x: u32, y: u32, z: u32) -> u32
    ensures { result ≡ Maj x y z }
{
    (x & y) ^ (x & z) ^ (y & z)
}

pub(crate) fn big_sigma0(x: u32) -> u32
    ensures { result ≡ Σ0 x }
{
    rotated(x, 2) ^ rotated(x, 13) ^ rotated(x, 22)
}

pub(crate) fn big_sigma1(x: u32) -> u32
    ensures { result ≡ Σ1 x }
{
    rotated(x, 6) ^ rotated(x, 11) ^ rotated(x, 25)
}

pub(crate) fn small_sigma0(x: u32) -> u32
    ensures { result ≡ σ0 x }
{
    rotated(x, 7) ^ rotated(x, 18) ^ (x >> 3)
}

pub(crate) fn small_sigma1(x: u32) -> u32
    ensures { result ≡ σ1 x }
{
    rotated(x, 17) ^ rotated(x, 19) ^ (x >> 10)
}
