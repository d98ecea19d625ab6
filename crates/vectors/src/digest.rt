// FNV-1a of 64 bits.
ghost use Rattle.std.specs.Prelude.{◌≡◌};
ghost use Rattle.vectors.specs.Digest as Digest;

// The prime, 2^40 + 435.
const PRIME: u64 = 1099511628211;

pub(crate) fn digest(s: &[u8]) -> u64
    ensures { result ≡ Digest.digest s.now }
{
    let mut h = 0xcbf2_9ce4_8422_2325u64;
    for b in s {
        h = (h ^ u64::from(*b)).wrapping_mul(PRIME);
    }
    h
}
