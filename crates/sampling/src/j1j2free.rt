// Two free joints: `search` of src/singularity/j1j2free.rs, up to the cuts of both halves; `stream`
// yields the slices.
ghost use Rattle.std.specs.Prelude.{◌≡◌, ◌++◌, ◌+◌, ◌≤◌, length, drop, IfSome};
ghost use Rattle.polynomial.specs.Promises.Held.{Kept};
ghost use Rattle.sampling.specs.CriticalSlices.{chart};
ghost use Rattle.sampling.specs.Promises.Charts.{Bounded, Charted};
ghost use Rattle.sampling.specs.Promises.Curves.{most_curves};
ghost use Rattle.sampling.specs.Promises.Halves.{half_values, start, both};
ghost use Rattle.sampling.specs.Promises.Plan.{halves_of, folded_plan, folded_cuts, granted};
ghost use Rattle.sampling.specs.J1j2free as Of;

use crate::bend_slices::bend_slices;
use crate::boundaries::{boundaries, wrist_limits};
use crate::critical_slices::{chart_of, critical};
use crate::intervals::Range;
use crate::job::{Job, Joint};
use crate::limits::limits;
use crate::lists::{Halves, Lists, Plan};
use crate::pose::Matrix;
use crate::samples::{Interval, all_copies};
use crate::work::Cuts;
use float::number::middle;
use polynomial::angle::wrapped_angle;
use polynomial::curve::Curve;

// What counts of a job whose joints 1 and 2 are free.
#[derive(Clone, Copy)]
pub struct Folded {
    pub matrix: Matrix,
    pub q3: f64,
    pub reference: f64,
    pub range1: Range,
    pub range2: Range,
    pub range4: Range,
    pub range5: Range,
    pub range6: Range,
}

// Joint 1's reference as a model angle; neither it nor the offset is wrapped first.
#[tactic(auto, unfolding(crate::specs::J1j2free::model_reference))]
fn model_reference(j: Joint) -> f64
    ensures { result ≡ Of.model_reference j }
{
    wrapped_angle(j.reference * j.sign - j.offset)
}

// The limits of joint 6, which may be fixed.
#[tactic(auto, unfolding(crate::specs::J1j2free::sixth_limits))]
fn sixth_limits(fixed: bool, limited: bool, j: Joint) -> Range
    ensures { result ≡ Of.sixth_limits fixed limited j }
{
    if fixed {
        return None;
    }
    wrist_limits(limited, j)
}

#[tactic(auto, unfolding(crate::specs::J1j2free::folded))]
pub(crate) fn folded_of(job: Job) -> Folded
    ensures { result ≡ Of.folded job }
{
    let matrix = job.matrix;
    let reference = model_reference(job.j1);
    let range1 = limits(job.limited, job.j1);
    let range2 = limits(job.limited, job.j2);
    let range4 = wrist_limits(job.limited, job.j4);
    let range5 = wrist_limits(job.limited, job.j5);
    let range6 = sixth_limits(job.fixed, job.limited, job.j6);
    Folded {
        matrix,
        q3: job.arm.q3,
        reference,
        range1,
        range2,
        range4,
        range5,
        range6,
    }
}

// The cuts of one half, in the front of the slice.
fn half_cuts(work: &mut [f64], curves: &[Curve], bends: &[f64], half: Interval) -> Option<usize>
    requires { (length curves.now ≤ most_curves) × Bounded (chart half.lower half.upper) }
    ensures { Kept (half_values curves.now bends.now half.lower half.upper) work.old work.new result }
{
    let c = chart_of(half);
    let mut cuts = Cuts::new(work);
    cuts.push(half.lower);
    cuts.push(half.upper);
    critical(&mut cuts, c, curves);
    all_copies(&mut cuts, half, bends);
    cuts.count
}

// Where the second half's list starts: behind the first, or, where that has too few places, at the
// end.
fn start_of(cuts: Option<usize>, end: usize) -> usize
    ensures { result ≡ start cuts end }
{
    cuts.unwrap_or(end)
}

// How both halves' lists came out.
fn halves_of(reference: f64, first: Option<usize>, second: Option<usize>) -> Option<Plan>
    ensures { result ≡ both reference first second }
{
    Some(Plan::Halves(Halves {
        reference,
        first: first?,
        second: second?,
    }))
}

// The cuts of both halves, one list after the other in the front of work.
fn cut_halves(work: &mut [f64], t: &Folded, whole: Interval) -> Option<Plan>
    requires { Charted (Some (whole.lower, whole.upper)) }
    ensures value { result ≡ granted (length (Of.first_half t.now whole.lower whole.upper) + length (Of.second_half t.now whole.lower whole.upper))
        (halves_of t.now.reference (Of.first_half t.now whole.lower whole.upper) (Of.second_half t.now whole.lower whole.upper)) (length work.old) }
    ensures work_after { IfSome result (λ p. work.new ≡ (Of.first_half t.now whole.lower whole.upper ++ Of.second_half t.now whole.lower whole.upper)
        ++ drop (length (Of.first_half t.now whole.lower whole.upper) + length (Of.second_half t.now whole.lower whole.upper)) work.old) }
{
    let bends = bend_slices(t);
    let bends = bends.as_slice();
    let curves = boundaries(t);
    let curves = curves.as_slice();
    let m = middle(whole.lower, whole.upper);
    let first = half_cuts(work, curves, bends, Interval { upper: m, ..whole });
    let start = start_of(first, work.len());
    let second = half_cuts(
        &mut work[start..],
        curves,
        bends,
        Interval { lower: m, ..whole },
    );
    halves_of(t.reference, first, second)
}

// The cuts of both halves of joint 1's interval; where it has none there is no cut and no angle.
pub(crate) fn cut(work: &mut [f64], t: &Folded) -> Option<Plan>
    requires { Charted t.now.range1 }
    ensures value { result ≡ granted (Of.cut_count t.now) (folded_plan t.now) (length work.old) }
    ensures work_after { IfSome result (λ p. work.new ≡ folded_cuts t.now ++ drop (Of.cut_count t.now) work.old) }
{
    match t.range1 {
        None => Some(Plan::Lists(Lists::default())),
        Some((lower, upper)) => cut_halves(work, t, Interval { lower, upper }),
    }
}
