// The interval of a joint's model angle, from src/singularity/j1j2free.rs.
ghost use Rattle.std.specs.Prelude.{◌≡◌};
ghost use Rattle.sampling.specs.Limits as Limits;

use crate::constraints::{Center, compute_center};
use crate::intervals::Range;
use crate::job::Joint;
use float::number::{is_finite, minimum};
use float::trig::P;
use polynomial::angle::wrapped_angle;

// The centre and the tolerance of a joint: of its limits where they are present, else its reference
// and P.
#[tactic(auto, unfolding(crate::specs::Limits::centered, crate::proofs::Literals::of_bits))]
pub(crate) fn centered(limited: bool, j: Joint) -> Center
    ensures { result ≡ Limits.centered limited j }
{
    if limited {
        return compute_center(j.from, j.to);
    }
    Center {
        center: j.reference,
        tolerance: P,
    }
}

// The interval around a centre, seen as a model angle of the joint.
#[tactic(auto, unfolding(crate::specs::Limits::limits_of, crate::proofs::Literals::of_bits))]
pub(crate) fn limits_of(c: Center, j: Joint) -> Range
    ensures { result ≡ Limits.limits_of c j.sign j.offset }
{
    if c.tolerance.is_nan() | (c.tolerance < 0.0) | !is_finite(c.center) {
        return None;
    }
    let center = wrapped_angle(wrapped_angle(c.center) * j.sign - j.offset);
    let half_width = minimum(c.tolerance, P);
    Some((center - half_width, center + half_width))
}

// The continuous interval of a joint's model angle, or none for limits that admit no angle.
#[tactic(auto, unfolding(crate::specs::Limits::limits))]
pub fn limits(limited: bool, j: Joint) -> Range
    ensures { result ≡ Limits.limits limited j }
{
    limits_of(centered(limited, j), j)
}
