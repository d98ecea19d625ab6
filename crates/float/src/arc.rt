// Arctangent and its kin, document 01's module 2.
ghost use Rattle.std.specs.Prelude.{◌≡◌, map};
ghost use Rattle.float.specs.Trig as Trig;
ghost use Rattle.float.specs.Promises.Beside as Of;

use crate::number::{abs, is_sign_positive};
use crate::sqrt::sqrt;
use crate::trig::{P, horner};
use std::array::from_fn;

// a / (1 + sqrt(1 + a * a)): the tangent of half the angle.
#[tactic(auto, using(crate::proofs::arc::Sides::literals), unfolding(crate::specs::Trig::half_angle))]
fn half_angle(a: f64) -> f64
    ensures { result ≡ Trig.half_angle a }
{
    a / (1.0 + sqrt(1.0 + a * a))
}

// 4 * (a + (a * z) * p), with p from -1/23 to -1/3.
fn atan_value(a: f64) -> f64
    ensures { result ≡ Trig.atan_value a }
{
    let z = a * a;
    let p = horner(
        z,
        -0.043478260869565216,
        &[
            0.047619047619047616,
            -0.05263157894736842,
            0.058823529411764705,
            -0.06666666666666667,
            0.07692307692307693,
            -0.09090909090909091,
            0.1111111111111111,
            -0.14285714285714285,
            0.2,
            -0.3333333333333333,
        ],
    );
    4.0 * (a + (a * z) * p)
}

// v with the sign of x. `f64::copysign` asks that x is no NaN; here the one NaN's sign is clear.
fn copysign(v: f64, x: f64) -> f64
    ensures { result ≡ Trig.copysign v x }
{
    if is_sign_positive(x) {
        return abs(v);
    }
    -abs(v)
}

// |x|, or 1 / |x| where that is above 1.
fn reduced(x: f64) -> f64
    ensures { result ≡ Trig.atan_start x }
{
    let a = abs(x);
    if a > 1.0 {
        return 1.0 / a;
    }
    a
}

// The arctangent of x from v, that of the reduced x.
#[tactic(auto, using(crate::proofs::arc::Sides::literals), unfolding(crate::specs::Promises::Beside::restored))]
fn restored(x: f64, v: f64) -> f64
    ensures { result ≡ Of.restored x v }
{
    if abs(x) > 1.0 {
        return copysign(P / 2.0 - v, x);
    }
    copysign(v, x)
}

#[tactic(auto, unfolding(crate::specs::Trig::atan, crate::specs::Promises::Beside::restored))]
pub fn atan(x: f64) -> f64
    ensures { result ≡ Trig.atan x }
{
    restored(x, atan_value(half_angle(half_angle(reduced(x)))))
}

// The angle of the point (x, y), from v, the arctangent of y / x.
#[tactic(auto, using(crate::proofs::arc::Sides::literals), unfolding(crate::specs::Promises::Beside::placed))]
fn placed(y: f64, x: f64, v: f64) -> f64
    ensures { result ≡ Of.placed y x v }
{
    if y.is_nan() {
        return y;
    }
    if x.is_nan() {
        return x;
    }
    if x > 0.0 {
        return v;
    }
    if x < 0.0 {
        if y >= 0.0 {
            return v + P;
        }
        return v - P;
    }
    if y > 0.0 {
        return P / 2.0;
    }
    if y < 0.0 {
        return -(P / 2.0);
    }
    0.0
}

// The angle of the point (x, y). The arctangent is worked out only where the angle is made of it.
#[tactic(auto, using(crate::proofs::arc::Sides::literals), unfolding(crate::specs::Trig::atan2, crate::specs::Promises::Beside::placed))]
pub fn atan2(y: f64, x: f64) -> f64
    ensures { result ≡ Trig.atan2 y x }
{
    if y.is_nan() {
        return placed(y, x, 0.0);
    }
    if x > 0.0 || x < 0.0 {
        return placed(y, x, atan(y / x));
    }
    placed(y, x, 0.0)
}

// The sine of an angle from 0 to P whose cosine is x.
pub fn other_side(x: f64) -> f64
    ensures { result ≡ Trig.other_side x }
{
    sqrt((1.0 - x) * (1.0 + x))
}

#[tactic(auto, unfolding(crate::specs::Trig::acos))]
pub fn acos(x: f64) -> f64
    ensures { result ≡ Trig.acos x }
{
    atan2(other_side(x), x)
}

#[tactic(auto, unfolding(crate::specs::Trig::asin))]
pub fn asin(x: f64) -> f64
    ensures { result ≡ Trig.asin x }
{
    atan2(x, other_side(x))
}

// The arctangents of four numbers. What is worked out of one does not wait for the others, and so four
// take little longer than one. By index, since more than one array is read at the end, as in `atan2_four`; a
// run with `map` took a fifth longer.
fn atan_four(x: [f64; 4]) -> [f64; 4]
    ensures { result ≡ map Trig.atan x }
{
    let a: [f64; 4] = from_fn(|i| reduced(x[i]));
    let b: [f64; 4] = from_fn(|i| half_angle(a[i]));
    let c: [f64; 4] = from_fn(|i| half_angle(b[i]));
    from_fn(|i| restored(x[i], atan_value(c[i])))
}

// The angles of four points.
pub fn atan2_four(y: [f64; 4], x: [f64; 4]) -> [f64; 4]
    ensures { result ≡ Of.beside Trig.atan2 y x }
{
    let slopes: [f64; 4] = from_fn(|i| y[i] / x[i]);
    let v = atan_four(slopes);
    from_fn(|i| placed(y[i], x[i], v[i]))
}
