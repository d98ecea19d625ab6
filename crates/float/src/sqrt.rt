// The square root of IEEE 754: a guess in floats, and a test in integers that its digits are the whole
// number nearest to the root of the operand's digits; where they are not, that number is found.
//
// It is no call of `f64::sqrt`, the processor's instruction, whose rounding is taken on trust there; here it
// is proved.
ghost use Rattle.std.specs.Prelude.{◌≡◌, ◌+◌, ◌*◌, ◌%◌, ◌^◌, ◌<◌, ◌≤◌, false, not, T, is_nan, nat_lt, IfSome, to_bits};
ghost use Rattle.std.specs.Float.{binary64};
ghost use Rattle.std.specs.Float.Ieee.{units};
ghost use Rattle.float.specs.Sqrt as Sqrt;
ghost use Rattle.float.specs.Promises.Parts.{Roots};

use crate::mul_add::{Parts, split};
use crate::number::is_finite;

// u * v < m * 2^52.
fn below(u: u64, v: u64, m: u64) -> bool
    ensures { result ≡ nat_lt (u * v) (m * 2 ^ 52) }
{
    u128::from(u) * u128::from(v) < u128::from(m) << 52
}

// The 53 digits of x as a whole number.
fn digits(x: f64) -> u64
    requires { T (not (is_nan x)) }
    ensures { result ≡ to_bits binary64 x % 2 ^ 52 + 2 ^ 52 }
{
    (x.to_bits() & 0xf_ffff_ffff_ffff) + 0x10_0000_0000_0000
}

// The square root of f, nearly: nothing is said of it. The fast inverse square root, two steps of
// Newton's method with constants for that start, and one of the third order. For a normal f it is
// the rounded root in five cases of six, and else a value beside it.
#[tactic(auto, using(crate::proofs::sqrt::Guessed::plain))]
fn estimate(f: f64) -> f64
    requires { T (not (is_nan f)) × (to_bits binary64 f < 2 ^ 63) }
{
    let h = f * 0.5;
    let y = f64::from_bits(0x5fe6_ed21_02dc_bfda - (f.to_bits() >> 1));
    let y = 1.5008789551163346 * y - (h * y) * (y * y);
    let y = 1.5000005796762577 * y - (h * y) * (y * y);
    let t = f * y;
    let e = 1.0 - t * y;
    t + (t * e) * (0.5 + 0.375 * e)
}

// The digits of an operand, 53 or 54 of them: its root's are the whole number nearest to the square
// root of m * 2^52.
#[derive(Clone, Copy)]
struct Operand {
    m: u64,
    ghost least: { 2 ^ 52 ≤ m },
    ghost most: { m < 2 ^ 54 },
}

impl Operand {
    // A first guess at the root's digits, from m as a float, whose pattern is made here: nothing is
    // said of it but its range. That is a clause here, in `seek` and in `beside`: a type for it would be taken
    // apart at each sum and product, and is no plainer.
    fn guess(self) -> u64
        ensures { (2 ^ 52 ≤ result) × (result ≤ 2 ^ 53) }
    {
        let m = self.m;
        let bits = if m < 0x20_0000_0000_0000 {
            m + 0x4320_0000_0000_0000
        } else {
            (m >> 1) + 0x4330_0000_0000_0000
        };
        // g is between 2^26 and 2^27, and its digits are those of the guess
        let g = estimate(f64::from_bits(bits));
        if g >= 134217728.0 {
            return 0x20_0000_0000_0000;
        }
        if g >= 67108864.0 {
            return digits(g);
        }
        0x10_0000_0000_0000
    }

    // The root's digits, sought from `start` down and up.
    fn seek(self, start: u64) -> u64
        requires { (2 ^ 52 ≤ start) × (start ≤ 2 ^ 53) }
        ensures { Roots (self.m * 2 ^ 52) result }
    {
        let mut q = start;
        while !below(q, q - 1, self.m) {
            q -= 1;
        }
        while below(q, q + 1, self.m) {
            q += 1;
        }
        q
    }

    // m * 2^52 - q * q + 3 * 2^52, where that is from 1 to 6 * 2^52.
    fn distance(self, q: u64) -> Option<u64>
        requires { q ≤ 2 ^ 53 }
        ensures { IfSome result (λ d. (0 < d) × (d ≤ 6 * 2 ^ 52) × (d + q * q ≡ (self.m + 3) * 2 ^ 52)) }
    {
        let d = ((u128::from(self.m) + 3) << 52).checked_sub(u128::from(q) * u128::from(q))?;
        if d == 0 || d > 0x60_0000_0000_0000 {
            return None;
        }
        Some(d as u64)
    }

    // The root's digits, by the distance d of q: they are q or one beside it.
    fn beside(self, q: u64, d: u64) -> u64
        requires { (2 ^ 52 ≤ q) × (q ≤ 2 ^ 53) × (0 < d) × (d ≤ 6 * 2 ^ 52) × (d + q * q ≡ (self.m + 3) * 2 ^ 52) }
        ensures { Roots (self.m * 2 ^ 52) result }
    {
        let up = u64::from(d > q + 0x30_0000_0000_0000);
        let down = u64::from(d + q <= 0x30_0000_0000_0000);
        q + up - down
    }

    // The root's digits: the whole number of which the squares of the two middles beside it, less a
    // quarter, have m * 2^52 between them.
    fn root(self) -> u64
        ensures { Roots (self.m * 2 ^ 52) result }
    {
        let q = self.guess();
        match self.distance(q) {
            Some(d) => self.beside(q, d),
            None => self.seek(q),
        }
    }

    // The root of m * 2^52 * 4^k, rounded. Mostly it is the guess g, which is returned as soon as it
    // is there, while the tests that it is right are still under way.
    fn nearest_root(self, g: f64, k: u64) -> f64
        requires { k ≤ 2045 }
        ensures { result ≡ Sqrt.root_of binary64 (self.m * 2 ^ 52 * 2 ^ k * 2 ^ k) }
    {
        if !g.is_nan() && g.to_bits() >> 52 == k + 1 {
            let q = digits(g);
            if let Some(d) = self.distance(q) {
                if d <= q + 0x30_0000_0000_0000 && d + q > 0x30_0000_0000_0000 {
                    return g;
                }
                let q = self.beside(q, d);
                return Parts { neg: false, q, k }.float();
            }
        }
        let q = self.root();
        Parts { neg: false, q, k }.float()
    }
}

// The shift that gives q all its 53 digits.
pub(crate) fn lift(q: u64) -> u64
    requires { (0 < q) × (q < 2 ^ 53) }
    ensures { (result ≤ 52) × (2 ^ 52 ≤ q * 2 ^ result) × (q * 2 ^ result < 2 ^ 53) }
{
    if q >= 0x10_0000_0000_0000 {
        return 0;
    }
    u64::from(q.leading_zeros()) - 11
}

// The square root of x, rounded.
pub fn sqrt(x: f64) -> f64
    ensures { result ≡ Sqrt.sqrt binary64 x }
{
    if x.is_nan() || x == 0.0 {
        return x;
    }
    if x < 0.0 {
        return f64::NAN;
    }
    if !is_finite(x) {
        return x;
    }
    // x is m * 2^52 times 2^-1178 times 2^t, whose root is that of m * 2^52, or of 2 * m * 2^52 where
    // t is odd, times 2^(t / 2 + 485) units
    let p = split(x);
    let i = lift(p.q);
    let m = p.q << i;
    let t = p.k + 52 - i;
    let n = if t % 2 == 0 { m } else { m * 2 };
    Operand { m: n }.nearest_root(estimate(x), t / 2 + 485)
}
