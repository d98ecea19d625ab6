// Free joint 2, from src/singularity/j2free.rs.
ghost use Rattle.std.specs.Prelude.{◌≡◌};
ghost use Rattle.sampling.specs.J2free as Of;

use crate::continuum::{Axes, TrigVector};
use crate::job::Arm;
use crate::pose::Vector;
use float::trig::{SinCos, sin_cos};

// The first column, by the direction of joint 1 and the angle of joint 3.
#[tactic(auto, unfolding(crate::specs::J2free::x_axis, crate::proofs::Literals::of_bits))]
fn x_axis(radial: Vector, third: SinCos) -> TrigVector
    ensures { result ≡ Of.x_axis radial third }
{
    let z = Vector::new(0.0, 0.0, 1.0);
    TrigVector {
        cosine: radial * third.cosine - z * third.sine,
        sine: -radial * third.sine - z * third.cosine,
        constant: Vector::new(0.0, 0.0, 0.0),
    }
}

// The arm's third column, by the direction of joint 1 and the angle of joint 3.
#[tactic(auto, unfolding(crate::specs::J2free::z_axis, crate::proofs::Literals::of_bits))]
fn z_axis(radial: Vector, third: SinCos) -> TrigVector
    ensures { result ≡ Of.z_axis radial third }
{
    let z = Vector::new(0.0, 0.0, 1.0);
    TrigVector {
        cosine: radial * third.sine + z * third.cosine,
        sine: radial * third.cosine - z * third.sine,
        constant: Vector::new(0.0, 0.0, 0.0),
    }
}

// The columns of the arm's rotation as functions of joint 2.
#[tactic(auto, unfolding(crate::specs::J2free::arm_axes, crate::proofs::Literals::of_bits))]
pub(crate) fn arm_axes(arm: Arm) -> Axes
    ensures { result ≡ Of.arm_axes arm }
{
    let first = sin_cos(arm.q1);
    let third = sin_cos(arm.q3);
    let radial = Vector::new(first.cosine, first.sine, 0.0);
    let zero = Vector::new(0.0, 0.0, 0.0);
    Axes {
        x: x_axis(radial, third),
        y: TrigVector {
            cosine: zero,
            sine: zero,
            constant: Vector::new(-first.sine, first.cosine, 0.0),
        },
        z: z_axis(radial, third),
    }
}
