// Trigonometry, document 01's module 2: exact sequences of f64 steps, each rounding once.
ghost use Rattle.std.specs.Prelude.{◌≡◌};
ghost use Rattle.float.specs.Trig as Trig;

use crate::number::{abs, floor};
use crate::sqrt::sqrt;

// 01's constants: I is near 2 / pi, H + L is pi / 2 to more digits than a float has, and P is near pi.
const I: f64 = 0.6366197723675814;

const H: f64 = 1.5707963267341256;

const L: f64 = 6.077100506506192e-11;

pub const P: f64 = 3.141592653589793;

pub const TWO_PI: f64 = 6.283185307179586;

#[derive(Clone, Copy)]
pub struct SinCos {
    pub sine: f64,
    pub cosine: f64,
}

// From p = start on, p * z + c for each c in turn.
#[inline]
pub(crate) fn horner(z: f64, start: f64, rest: &[f64]) -> f64
    ensures { result ≡ Trig.series z start rest.now }
{
    let mut p = start;
    for c in rest {
        p = p * z + *c;
    }
    p
}

// r + (r * z) * p, with p from 1/17! to -1/3!.
fn sine(r: f64) -> f64
    ensures { result ≡ Trig.sine r }
{
    let z = r * r;
    let p = horner(
        z,
        2.8114572543455206e-15,
        &[
            -7.647163731819816e-13,
            1.6059043836821613e-10,
            -2.505210838544172e-08,
            2.7557319223985893e-06,
            -0.0001984126984126984,
            0.008333333333333333,
            -0.16666666666666666,
        ],
    );
    r + (r * z) * p
}

// 1 + z * u, with u from 1/16! to -1/2!.
fn cosine(r: f64) -> f64
    ensures { result ≡ Trig.cosine r }
{
    let z = r * r;
    let u = horner(
        z,
        4.779477332387385e-14,
        &[
            -1.1470745597729725e-11,
            2.08767569878681e-09,
            -2.755731922398589e-07,
            2.48015873015873e-05,
            -0.001388888888888889,
            0.041666666666666664,
            -0.5,
        ],
    );
    1.0 + z * u
}

// k modulo 4, from 0 to 3: a number, since an enum would be made by one match to be read by another.
fn quadrant(k: i64) -> u64
    ensures { result ≡ Trig.quadrant k }
{
    k.rem_euclid(4) as u64
}

// Sine and cosine from those of the reduced argument, by the quadrant.
fn by_quadrant(q: u64, s: f64, w: f64) -> SinCos
    ensures { result ≡ Trig.by_quadrant q s w }
{
    match q {
        0 => SinCos { sine: s, cosine: w },
        1 => SinCos {
            sine: w,
            cosine: -s,
        },
        2 => SinCos {
            sine: -s,
            cosine: -w,
        },
        _ => SinCos {
            sine: -w,
            cosine: s,
        },
    }
}

// Sine and cosine of x, for |x| <= 32; of other x, NaN twice.
pub fn sin_cos(x: f64) -> SinCos
    ensures { result ≡ Trig.sin_cos x }
{
    if abs(x) <= 32.0 {
        let k = floor(x * I + 0.5);
        let f = std::num::nearest_i64_to_f64(k);
        let r = (x - f * H) - f * L;
        return by_quadrant(quadrant(k), sine(r), cosine(r));
    }
    SinCos {
        sine: f64::NAN,
        cosine: f64::NAN,
    }
}

pub fn sin(x: f64) -> f64
    ensures { result ≡ Trig.sin x }
{
    let both = sin_cos(x);
    both.sine
}

pub fn cos(x: f64) -> f64
    ensures { result ≡ Trig.cos x }
{
    let both = sin_cos(x);
    both.cosine
}

// Sine over cosine.
#[tactic(auto, unfolding(crate::specs::Trig::tan))]
pub fn tan(x: f64) -> f64
    ensures { result ≡ Trig.tan x }
{
    let both = sin_cos(x);
    both.sine / both.cosine
}

#[tactic(auto, unfolding(crate::specs::Trig::hypot))]
pub fn hypot(x: f64, y: f64) -> f64
    ensures { result ≡ Trig.hypot x y }
{
    sqrt(x * x + y * y)
}
