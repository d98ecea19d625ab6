// Curves of J1 and J2, from src/singularity/j1j2free.rs.
ghost use Rattle.std.specs.Prelude.{◌≡◌};
ghost use Rattle.polynomial.specs.Curve as Of;

use crate::arithmetic::{add, multiply};
use crate::compensated::{Coefficients, Compensated};
use arrayvec::ArrayVec;
use float::trig::sin_cos;
use std::ops::{Add, Mul};

// Constant, cosine and sine coefficients of a first harmonic in J1. `Trig` and `TrigVector` of sampling have
// like operators; the names and fields of each are those of its Rust file, which the definitions keep.
#[derive(Clone, Copy)]
pub struct Harmonic {
    pub constant: f64,
    pub cosine: f64,
    pub sine: f64,
}

// Adds corresponding coefficients.
impl Add for Harmonic {
    type Output = Harmonic;

    ghost add_gives = { λ a b r. r ≡ Of.plus a b };

    #[tactic(auto, unfolding(crate::specs::Curve::plus))]
    fn add(self, other: Harmonic) -> Harmonic {
        Harmonic {
            constant: self.constant + other.constant,
            cosine: self.cosine + other.cosine,
            sine: self.sine + other.sine,
        }
    }
}

// Scales every coefficient.
impl Mul<f64> for Harmonic {
    type Output = Harmonic;

    ghost mul_gives = { λ a factor r. r ≡ Of.times a factor };

    #[tactic(auto, unfolding(crate::specs::Curve::times))]
    fn mul(self, factor: f64) -> Harmonic {
        Harmonic {
            constant: self.constant * factor,
            cosine: self.cosine * factor,
            sine: self.sine * factor,
        }
    }
}

// A boundary A(q1) cos(t) + B(q1) sin(t) + C(q1) = 0, with t = q2 + q3: the harmonics a, b and c,
// each by its constant, cosine and sine coefficient: nine floats and no harmonics, since the operations are
// asked to take a curve so, as a record by value.
#[derive(Clone, Copy, Default)]
pub struct Curve {
    pub a0: f64,
    pub a1: f64,
    pub a2: f64,
    pub b0: f64,
    pub b1: f64,
    pub b2: f64,
    pub c0: f64,
    pub c1: f64,
    pub c2: f64,
}

// The numerators of a curve's three harmonics.
#[derive(Clone, Copy, Default)]
pub struct Numerators {
    pub a: [Compensated; 3],
    pub b: [Compensated; 3],
    pub c: [Compensated; 3],
}

// A harmonic as a polynomial numerator in u = tan((q1 - origin) / 2).
#[tactic(auto, using(crate::proofs::curve::Harmonics::numerator_of))]
pub(crate) fn numerator(h: Harmonic, origin: f64) -> [Compensated; 3]
    ensures { result ≡ Of.numerator h origin }
{
    let both = sin_cos(origin);
    let s = both.sine;
    let c = both.cosine;
    let rotated_cosine = h.cosine * c + h.sine * s;
    let rotated_sine = -h.cosine * s + h.sine * c;
    let first = Compensated::from(h.constant);
    [
        first + Compensated::from(rotated_cosine),
        Compensated::from(2.0 * rotated_sine),
        first + Compensated::from(-rotated_cosine),
    ]
}

impl Curve {
    // The J1 harmonics as polynomial numerators around the origin.
    pub fn polynomials(self, origin: f64) -> Numerators
        ensures { (result.a ≡ Of.numerator (Of.harmonic_a self) origin) × (result.b ≡ Of.numerator (Of.harmonic_b self) origin) ×
            (result.c ≡ Of.numerator (Of.harmonic_c self) origin) }
    {
        let a = Harmonic {
            constant: self.a0,
            cosine: self.a1,
            sine: self.a2,
        };
        let b = Harmonic {
            constant: self.b0,
            cosine: self.b1,
            sine: self.b2,
        };
        let c = Harmonic {
            constant: self.c0,
            cosine: self.c1,
            sine: self.c2,
        };
        Numerators {
            a: numerator(a, origin),
            b: numerator(b, origin),
            c: numerator(c, origin),
        }
    }
}

// (1 + u^2)^2 * norm^2.
#[tactic(auto, using(crate::proofs::curve::Squares::times_more, crate::proofs::curve::Squares::times_end))]
fn norm_target(norm: f64) -> Coefficients
    ensures { result.items ≡ Of.target norm }
{
    let n = Compensated::from(norm);
    let squared = n * n;
    let one = Compensated::from(1.0);
    let denominator = [one, Compensated::from(0.0), one];
    let mut r = ArrayVec::new();
    for c in multiply(&denominator, &denominator).as_slice() {
        r.push(*c * squared);
    }
    r
}

// x(u)^2 + y(u)^2 less the target, in the chart around the origin: five coefficients.
#[tactic(auto, using(crate::proofs::curve::Squares::lengths), unfolding(crate::specs::Curve::norm_polynomial))]
pub(crate) fn norm_polynomial(x: Harmonic, y: Harmonic, norm: f64, origin: f64) -> Coefficients
    ensures { result.items ≡ Of.norm_polynomial x y norm origin }
{
    let p = numerator(x, origin);
    let q = numerator(y, origin);
    let sum = add(
        multiply(&p, &p).as_slice(),
        multiply(&q, &q).as_slice(),
        1.0,
    );
    add(sum.as_slice(), norm_target(norm).as_slice(), -1.0)
}
