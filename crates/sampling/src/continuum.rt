// Angle sampling shared by free joint 1 and free joint 2, from src/singularity/continuum.rs: first
// harmonics of the free model angle, and where they meet a target.
ghost use Rattle.std.specs.Prelude.{◌≡◌};
ghost use Rattle.sampling.specs.Continuum as Of;
ghost use Rattle.sampling.specs.Promises.Polar as By;

use crate::pose::{Vector, dot};
use float::number::{abs, is_finite};
use float::trig::sin_cos;
use std::ops::{Add, Mul};

// 64 ε.
pub(crate) const ROOT_ROUNDOFF: f64 = 1.4210854715202004e-14;

// A first-harmonic polynomial of the free model angle. `polynomial::curve::Harmonic` and its sums are the
// same under the names of the Rust's other file: the definitions keep those of both, and the gate refuses
// impls that a macro of this repository writes.
#[derive(Clone, Copy)]
pub struct Trig {
    pub cosine: f64,
    pub sine: f64,
    pub constant: f64,
}

// A vector whose components are first-harmonic polynomials of the free angle.
#[derive(Clone, Copy)]
pub struct TrigVector {
    pub cosine: Vector,
    pub sine: Vector,
    pub constant: Vector,
}

// The columns of the arm's rotation as functions of the free angle.
#[derive(Clone, Copy)]
pub struct Axes {
    pub x: TrigVector,
    pub y: TrigVector,
    pub z: TrigVector,
}

// Multiplies every coefficient by the given factor.
impl Mul<f64> for Trig {
    type Output = Trig;

    ghost mul_gives = { λ t factor r. r ≡ Of.scaled t factor };

    #[tactic(auto, unfolding(crate::specs::Continuum::scaled))]
    fn mul(self, factor: f64) -> Trig {
        Trig {
            cosine: self.cosine * factor,
            sine: self.sine * factor,
            constant: self.constant * factor,
        }
    }
}

// Adds two polynomials coefficient by coefficient.
impl Add for Trig {
    type Output = Trig;

    ghost add_gives = { λ t u r. r ≡ Of.plus t u };

    #[tactic(auto, unfolding(crate::specs::Continuum::plus))]
    fn add(self, other: Trig) -> Trig {
        Trig {
            cosine: self.cosine + other.cosine,
            sine: self.sine + other.sine,
            constant: self.constant + other.constant,
        }
    }
}

impl Trig {
    // How far rounding may carry the constant past the radius.
    #[tactic(auto, unfolding(crate::specs::Continuum::error, crate::proofs::Literals::of_bits))]
    fn error(self, target: f64) -> f64
        ensures { result ≡ Of.error self target }
    {
        ROOT_ROUNDOFF * (abs(self.cosine) + abs(self.sine) + abs(self.constant) + abs(target))
    }

    // Whether the polynomial, of this radius, equals the target anywhere.
    #[tactic(auto, unfolding(crate::specs::Promises::Polar::meets, crate::proofs::Literals::of_bits))]
    pub(crate) fn meets(self, radius: f64, target: f64) -> bool
        ensures { result ≡ By.meets self radius target }
    {
        let constant = self.constant - target;
        let room = radius + self.error(target);
        let finite = is_finite(radius) & is_finite(constant);
        finite & !(radius == 0.0) & !(room < abs(constant))
    }
}

impl TrigVector {
    // Projects the vector polynomial onto a fixed vector.
    #[tactic(auto, unfolding(crate::specs::Continuum::dot))]
    pub(crate) fn dot(self, vector: Vector) -> Trig
        ensures { result ≡ Of.dot self vector }
    {
        let cosine = dot(self.cosine, vector);
        let sine = dot(self.sine, vector);
        let constant = dot(self.constant, vector);
        Trig {
            cosine,
            sine,
            constant,
        }
    }
}

// The polynomial that is zero where the vector (x, y) lies on the boundary line of an angle.
#[tactic(auto, unfolding(crate::specs::Continuum::line))]
pub(crate) fn line(x: Trig, y: Trig, angle: f64) -> Trig
    ensures { result ≡ Of.line x y angle }
{
    let a = sin_cos(angle);
    y * a.cosine + x * -a.sine
}
