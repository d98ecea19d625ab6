// The fused product of IEEE 754, a * b + c rounded once, in integers.
//
// A finite float is q * 2^k units, where the unit is the format's smallest value, 2^-1074 (`split`).
// A number of more than 64 digits is cut to 64 with its last digit set where anything but zeros was
// cut off (`jam`). Such a number rounds to 53 digits as the whole of it does (`pack`).
//
// It is no call of std's `mul_add`, whose definition is the same: the square root, the remainder and the
// page's decimals share these parts, and the edit `ties_up` needs the rounding written here.
ghost use Rattle.std.specs.Prelude.{◌≡◌, ◌+◌, ◌-◌, ◌*◌, ◌^◌, ◌<◌, ◌≤◌, T};
ghost use Rattle.std.specs.Float.{binary64};
ghost use Rattle.std.specs.Float.Ieee.{units};
ghost use Rattle.std.specs.Float.Ieee.Nearest.{closest};
ghost use Rattle.std.specs.Float.Ieee.Scale.{finite};
ghost use Rattle.float.specs.MulAdd.{mul_add};
ghost use Rattle.float.specs.Promises.Parts.{Splits, Shifts, Finishes, Combines};

use crate::number::is_finite;
use crate::wide::jam;

// A float: q * 2^k units, negative where `neg`. It has at most 53 digits, and at least those where k is
// above 0, or is rounded up to 2^53.
#[derive(Clone, Copy)]
pub struct Parts {
    pub neg: bool,
    pub q: u64,
    pub k: u64,
    ghost short: { q ≤ 2 ^ 53 },
    ghost place: { k ≤ 2045 },
    ghost full: { 0 < k → 2 ^ 52 ≤ q },
}

impl Parts {
    // The float; with 2^53 at the highest place it is infinite.
    pub(crate) fn float(self) -> f64
        ensures { result ≡ units binary64 self.neg self.q self.k }
    {
        // the leading digit adds one to the field, which the place is one less than
        let sign = if self.neg { 0x8000_0000_0000_0000 } else { 0 };
        f64::from_bits(sign + (self.k * 0x10_0000_0000_0000 + self.q))
    }
}

// The sign, the digits and the place of a finite x.
pub fn split(x: f64) -> Parts
    requires { T (finite x) }
    ensures { Splits x result.neg result.q result.k }
{
    let bits = x.to_bits();
    let field = (bits >> 52) & 0x7ff;
    let t = bits & 0xf_ffff_ffff_ffff;
    let neg = 0x8000_0000_0000_0000 <= bits;
    if field == 0 {
        return Parts { neg, q: t, k: 0 };
    }
    Parts {
        neg,
        q: t + 0x10_0000_0000_0000,
        k: field - 1,
    }
}

// Sign, digits and place go side by side here, in `finish` and in `combine`: the digits have another width and
// bound in each, so that a struct would be one for each function.
// w * 2^(k - 11) units, rounded: w's upper 53 digits, moved up by one where the lower 11 say so.
fn pack(neg: bool, w: u64, k: u64) -> f64
    requires { 0 < k → 2 ^ 63 ≤ w }
    ensures { result ≡ units binary64 neg (closest w (2 ^ 11)) k }
{
    if 2046 <= k {
        return if neg {
            f64::NEG_INFINITY
        } else {
            f64::INFINITY
        };
    }
    let cut = w >> 11;
    let up = ((w & 0x7ff) + (cut & 1) + 0x3ff) >> 11;
    Parts {
        neg,
        q: cut + up,
        k,
    }
    .float()
}

// The shift to the left that brings the highest digit of x to the top, or less where that passes the
// format's smallest value, which lies y above.
fn shift(x: u128, y: u64) -> u64
    requires { 0 < x }
    ensures { Shifts x y result }
{
    u64::from(x.leading_zeros()).min(y)
}

// x * 2^(y - 75) units, rounded.
fn finish(neg: bool, x: u128, y: u64) -> f64
    requires { 0 < x }
    ensures { Finishes neg x y result }
{
    let s = shift(x, y);
    pack(neg, jam(x << s, 64) as u64, y - s)
}

// ±x ± v, two numbers at one place, rounded: it has x's sign where both have it or x is the larger.
fn combine(neg: bool, x: u128, other: bool, v: u128, y: u64) -> f64
    requires { (0 < x + v) × (x + v < 2 ^ 128) }
    ensures { Combines neg x other v y result }
{
    if neg == other {
        return finish(neg, x + v, y);
    }
    if v < x {
        return finish(neg, x - v, y);
    }
    if x < v {
        return finish(other, v - x, y);
    }
    0.0
}

// a * b + c, rounded once.
pub fn mul_add(a: f64, b: f64, c: f64) -> f64
    ensures { result ≡ mul_add binary64 a b c }
{
    if !is_finite(a) {
        return a * b + c;
    }
    if !is_finite(b) {
        return a * b + c;
    }
    if !is_finite(c) {
        return c;
    }
    if a == 0.0 {
        return a * b + c;
    }
    if b == 0.0 {
        return a * b + c;
    }
    let pa = split(a);
    let pb = split(b);
    let pc = split(c);
    // the product is p * 2^fp, and c is h * 2^fc, both over 2^2168
    let p = u128::from(pa.q << 10) * u128::from(pb.q << 10);
    let h = u128::from(pc.q) << 73;
    let fp = pa.k + pb.k;
    let fc = pc.k + 1021;
    let neg = pa.neg != pb.neg;
    // the one at the lower place is brought to the other's
    if fc <= fp {
        combine(neg, p, pc.neg, jam(h, fp - fc), fp - 1019)
    } else {
        combine(pc.neg, h, neg, jam(p, fc - fp), fc - 1019)
    }
}
