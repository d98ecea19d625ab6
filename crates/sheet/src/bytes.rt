// Bytes, and the numbers and floats that they hold, low byte first.
ghost use Rattle.std.specs.Prelude.{◌≡◌, ◌+◌, ◌≤◌, length};
ghost use Rattle.sheet.specs.Bytes as Bytes;
ghost use Rattle.sheet.specs.Promises.Floats as Floats;

use float::number::{bits, of_bits};

// The N bytes from `at` on. The place is a number here and in the next two, since a caller who cut the
// bytes out would do so under the same clause.
pub(crate) fn bytes_at<const N: usize>(s: &[u8], at: usize) -> [u8; N]
    requires { at + N ≤ length s.now }
    ensures { result ≡ Bytes.part at N s.now }
{
    let mut bytes = [0u8; N];
    bytes.copy_from_slice(&s[at..at + N]);
    bytes
}

// The number whose eight bytes start at `at`.
pub fn word(s: &[u8], at: usize) -> u64
    requires { at + 8 ≤ length s.now }
    ensures { result ≡ Bytes.little_endian (Bytes.part at 8 s.now) }
{
    u64::from_le_bytes(bytes_at(s, at))
}

// The float whose eight bytes start at `at`.
pub(crate) fn float_at(s: &[u8], at: usize) -> f64
    requires { at + 8 ≤ length s.now }
    ensures { result ≡ Bytes.float_at s.now at }
{
    of_bits(word(s, at))
}

// The eight bytes of a float.
#[tactic(auto, unfolding(crate::specs::Bytes::bytes))]
pub(crate) fn float_bytes(x: f64) -> [u8; 8]
    ensures { result ≡ Floats.float_bytes x }
{
    bits(x).to_le_bytes()
}
