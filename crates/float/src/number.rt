// The float floor, document 01's module 1, up to the fused product and the square root: every
// function has a result for every input, and a NaN is the one NaN.
ghost use Rattle.std.specs.Prelude.{◌≡◌, not, from_bits, to_bits};
ghost use Rattle.std.specs.Float.{binary64};
ghost use Rattle.std.specs.Float.Ieee.Scale.{finite};
ghost use Rattle.float.specs.Number as Number;

use crate::remainder::remainder;

// The bits of x. `f64::to_bits` is not defined at a NaN, whose bits are 7FF8000000000000.
#[tactic(auto, using(crate::proofs::Pattern::nan_pattern))]
pub fn bits(x: f64) -> u64
    ensures { result ≡ to_bits binary64 x }
{
    if x.is_nan() {
        return 0x7ff8_0000_0000_0000;
    }
    x.to_bits()
}

// The float of bits: every NaN pattern is the one NaN.
pub fn of_bits(w: u64) -> f64
    ensures { result ≡ from_bits binary64 w }
{
    if w % 0x8000_0000_0000_0000 > 0x7ff0_0000_0000_0000 {
        return f64::NAN;
    }
    f64::from_bits(w)
}

// Neither infinite nor a NaN. A function of its own, since contracts cite the logic's `finite`, and the
// clause of the library's `is_finite` has another word for it: each caller would owe the lemma `finite_test`.
#[tactic(auto, using(crate::specs::Laws::Tests::finite_test))]
pub fn is_finite(x: f64) -> bool
    ensures { result ≡ finite x }
{
    x.is_finite()
}

// Whether the sign's bit is clear; it is in the one NaN.
#[tactic(auto, using(crate::specs::Laws::Tests::sign_test, crate::specs::Laws::Tests::nan_test))]
pub fn is_sign_positive(x: f64) -> bool
    ensures { result ≡ not (Number.negative x) }
{
    x.is_nan() || x.is_sign_positive()
}

// The magnitude of x, with no branch: 0 - x is +0.0 at either zero. By `f64::abs`, which tests for a
// zero apart, the loop of plain Horner arithmetic took a sixth longer.
pub fn abs(x: f64) -> f64
    ensures { result ≡ Number.abs x }
{
    if x <= 0.0 { 0.0 - x } else { x }
}

// Whether x does not come after y in the order of `total_cmp`, which asks that neither is a NaN: lists may
// hold the one NaN.
#[tactic(auto, unfolding(crate::specs::Number::total_le))]
pub fn total_le(x: f64, y: f64) -> bool
    ensures { result ≡ Number.total_le x y }
{
    if x == y {
        if is_sign_positive(x) {
            return is_sign_positive(y);
        }
        return true;
    }
    x < y || y.is_nan()
}

// The remainder x % m, plus |m| if it is below zero. Not `f64::rem_euclid`: its `%` is a call of C's `fmod`,
// and the archive asks for `memcpy` and `memset` alone.
#[tactic(auto, using(crate::specs::Laws::Zero::zero_bits), unfolding(crate::specs::Number::rem_euclid))]
pub fn rem_euclid(x: f64, m: f64) -> f64
    ensures { result ≡ Number.rem_euclid x m }
{
    let r = remainder(x, m);
    if r < 0.0 {
        return r + abs(m);
    }
    r
}

// The lesser of two: beside a NaN the other, and of equals the first. `f64::min` and `f64::max` leave which
// of two equals they give, and so the sign of a zero.
#[tactic(auto, unfolding(crate::specs::Number::minimum))]
pub fn minimum(x: f64, y: f64) -> f64
    ensures { result ≡ Number.minimum x y }
{
    if x.is_nan() || y < x { y } else { x }
}

// The greater of two: beside a NaN the other, and of equals the first. `minimum` has the comparison
// turned; one function for both would be no plainer than the two lines.
#[tactic(auto, unfolding(crate::specs::Number::maximum))]
pub fn maximum(x: f64, y: f64) -> f64
    ensures { result ≡ Number.maximum x y }
{
    if x.is_nan() || x < y { y } else { x }
}

// x, or the nearer of -1 and 1 where it is beyond.
#[tactic(auto, using(crate::specs::Laws::Literals::one_bits), unfolding(crate::specs::Number::clamp))]
pub fn clamp(x: f64) -> f64
    ensures { result ≡ Number.clamp x }
{
    x.clamp(-1.0, 1.0)
}

// The middle of an interval.
#[tactic(auto, using(crate::specs::Laws::Literals::two_bits), unfolding(crate::specs::Number::middle))]
pub fn middle(lo: f64, hi: f64) -> f64
    ensures { result ≡ Number.middle lo hi }
{
    lo + (hi - lo) / 2.0
}

// The greatest whole number not above x, or the nearest that an `i64` holds; 0 for a NaN. `x.floor()` would
// work out a float first, to be converted after; here one conversion and a comparison give the number.
pub fn floor(x: f64) -> i64
    ensures { result ≡ Number.floor_i64 x }
{
    if x >= -9223372036854775808.0 {
        if x < 9223372036854775808.0 {
            let whole = std::num::truncating_f64_to_i64(x);
            if std::num::nearest_i64_to_f64(whole) > x {
                return whole - 1;
            }
            return whole;
        }
        return i64::MAX;
    }
    if x < 0.0 {
        return i64::MIN;
    }
    0
}
