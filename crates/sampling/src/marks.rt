// The angles of a wrist joint that bound the free joint's samples, from `sample_angles` of
// src/singularity/continuum.rs.
ghost use Rattle.std.specs.Prelude.{◌≡◌};
ghost use Rattle.sampling.specs.Marks as Of;

use crate::constraints::compute_center;
use crate::intervals::Range;
use crate::job::Joint;
use float::number::is_finite;
use float::trig::P;
use polynomial::angle::wrapped_angle;

// The centre and the ends of limits.
#[derive(Clone, Copy)]
pub struct Limits {
    pub center: f64,
    pub range: Range,
}

// The reference and, with limits, their centre and ends.
#[derive(Clone, Copy)]
pub struct Marks {
    pub reference: f64,
    pub limits: Option<Limits>,
}

impl Marks {
    // The ends of the limits, where there are any.
    pub(crate) fn range(self) -> Range
        ensures { result ≡ Of.range self }
    {
        self.limits?.range
    }
}

// An angle of a joint as a model angle. The offset is wrapped here.
#[tactic(auto, unfolding(crate::specs::Marks::model_angle))]
pub(crate) fn model_angle(j: Joint, angle: f64) -> f64
    ensures { result ≡ Of.model_angle j.sign j.offset angle }
{
    let signed = wrapped_angle(angle) * j.sign;
    wrapped_angle(signed - wrapped_angle(j.offset))
}

// The ends of limits, where there are any.
#[tactic(auto, unfolding(crate::specs::Marks::ends, crate::proofs::Literals::of_bits))]
fn ends(center: f64, tolerance: f64) -> Range
    ensures { result ≡ Of.ends center tolerance }
{
    if is_finite(tolerance) & (0.0 <= tolerance) & (tolerance < P) {
        return Some((center - tolerance, center + tolerance));
    }
    None
}

// A wrist joint's angles that count: its reference and, with limits, their centre and ends.
#[tactic(auto, unfolding(crate::specs::Marks::marks, crate::proofs::Literals::of_bits))]
pub(crate) fn marks_of(limited: bool, j: Joint) -> Marks
    ensures { result ≡ Of.marks limited j }
{
    let reference = model_angle(j, j.reference);
    if limited {
        let c = compute_center(j.from, j.to);
        let center = model_angle(j, c.center);
        let range = ends(center, c.tolerance);
        return Marks {
            reference,
            limits: Some(Limits { center, range }),
        };
    }
    Marks {
        reference,
        limits: None,
    }
}
