// Free joint 1, from src/singularity/j1free.rs.
ghost use Rattle.std.specs.Prelude.{◌≡◌};
ghost use Rattle.sampling.specs.J1free as Of;

use crate::continuum::{Axes, TrigVector};
use crate::job::Arm;
use crate::pose::Vector;
use float::trig::sin_cos;

// The columns of the arm's rotation as functions of joint 1.
#[tactic(auto, unfolding(crate::specs::J1free::arm_axes, crate::proofs::Literals::of_bits))]
pub(crate) fn arm_axes(arm: Arm) -> Axes
    ensures { result ≡ Of.arm_axes arm }
{
    let a = sin_cos(arm.q2 + arm.q3);
    let x_axis = Vector::new(1.0, 0.0, 0.0);
    Axes {
        x: TrigVector {
            cosine: Vector::new(a.cosine, 0.0, 0.0),
            sine: Vector::new(0.0, a.cosine, 0.0),
            constant: Vector::new(0.0, 0.0, -a.sine),
        },
        y: TrigVector {
            cosine: Vector::new(0.0, 1.0, 0.0),
            sine: -x_axis,
            constant: Vector::new(0.0, 0.0, 0.0),
        },
        z: TrigVector {
            cosine: Vector::new(a.sine, 0.0, 0.0),
            sine: Vector::new(0.0, a.sine, 0.0),
            constant: Vector::new(0.0, 0.0, a.cosine),
        },
    }
}
