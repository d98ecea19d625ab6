// The harmonics of the wrist that its boundaries are about, from `sample_angles` of
// src/singularity/continuum.rs.
ghost use Rattle.std.specs.Prelude.{◌≡◌};
ghost use Rattle.sampling.specs.Wrist as Of;

use crate::continuum::{Axes, Trig};
use crate::pose::Matrix;

// A vector in the plane, whose direction is an angle of the wrist.
#[derive(Clone, Copy)]
pub struct Ray {
    pub x: Trig,
    pub y: Trig,
}

// Joint 4, joint 6, the cosine of joint 5, and the sum and the difference of joints 4 and 6 at a
// pole.
#[derive(Clone, Copy)]
pub struct Wrist {
    pub q4: Ray,
    pub q6: Ray,
    pub cos5: Trig,
    pub sum: Ray,
    pub difference: Ray,
}

// The sum (sign 1) or the difference (sign -1) of joints 4 and 6, at a pole.
#[tactic(auto, unfolding(crate::specs::Wrist::phase, crate::proofs::Literals::of_bits))]
fn phase(axis: Axes, m: Matrix, sign: f64) -> Ray
    ensures { result ≡ Of.phase axis m sign }
{
    Ray {
        x: axis.y.dot(m.y) + axis.x.dot(m.x) * sign,
        y: axis.y.dot(m.x) * sign + axis.x.dot(m.y) * -1.0,
    }
}

// All of them, by the arm's columns and the target's.
#[tactic(auto, unfolding(crate::specs::Wrist::wrist, crate::proofs::Literals::of_bits))]
pub(crate) fn wrist_of(axis: Axes, m: Matrix) -> Wrist
    ensures { result ≡ Of.wrist axis m }
{
    Wrist {
        q4: Ray {
            x: axis.x.dot(m.z),
            y: axis.y.dot(m.z),
        },
        q6: Ray {
            x: axis.z.dot(m.x) * -1.0,
            y: axis.z.dot(m.y),
        },
        cos5: axis.z.dot(m.z),
        sum: phase(axis, m, 1.0),
        difference: phase(axis, m, -1.0),
    }
}
