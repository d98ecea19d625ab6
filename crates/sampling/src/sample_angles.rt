// One free joint: `sample_angles` of src/singularity/continuum.rs, up to the cuts; `lists` reads the
// samples off them.
ghost use Rattle.std.specs.Prelude.{◌≡◌, ◌++◌, length, drop, IfSome};
ghost use Rattle.sampling.specs.Promises.Plan.{ListsLaid, free_plan, free_cuts, granted};
ghost use Rattle.sampling.specs.Samples.{interval_cuts};
ghost use Rattle.sampling.specs.SampleAngles as Of;

use crate::bends::all_roots;
use crate::constraints::{Center, compute_center};
use crate::continuum::Axes;
use crate::intervals::{Intervals, wrist_limit_intervals};
use crate::job::{Job, Joint};
use crate::lists::{Lists, Plan};
use crate::marks::{Marks, marks_of, model_angle};
use crate::samples::interval_cuts;
use crate::wrist::{Wrist, wrist_of};
use float::number::is_finite;
use float::trig::P;

// What counts of a job with one free joint.
#[derive(Clone, Copy)]
pub struct Free {
    pub near: f64,
    pub limits: Center,
    pub wrist: Wrist,
    pub fourth: Marks,
    pub fifth: Marks,
    pub sixth: Option<Marks>,
}

// The free joint's limits as a model angle.
#[tactic(auto, unfolding(crate::specs::SampleAngles::free_limits, crate::proofs::Literals::of_bits))]
fn free_limits(limited: bool, j: Joint) -> Center
    ensures { result ≡ Of.free_limits limited j }
{
    if limited {
        let c = compute_center(j.from, j.to);
        let center = model_angle(j, c.center);
        return Center {
            center,
            tolerance: c.tolerance,
        };
    }
    Center {
        center: 0.0,
        tolerance: P,
    }
}

// A fixed sixth joint is not read.
#[tactic(auto, unfolding(crate::specs::SampleAngles::sixth))]
fn sixth_of(fixed: bool, limited: bool, j: Joint) -> Option<Marks>
    ensures { result ≡ Of.sixth fixed limited j }
{
    if fixed {
        return None;
    }
    Some(marks_of(limited, j))
}

// What counts of a job whose joint j is free.
#[tactic(auto, unfolding(crate::specs::SampleAngles::free))]
pub(crate) fn free_of(axes: Axes, job: Job, j: Joint) -> Free
    ensures { result ≡ Of.free axes job j }
{
    let near = model_angle(j, j.reference);
    let limits = free_limits(job.limited, j);
    let wrist = wrist_of(axes, job.matrix);
    let fourth = marks_of(job.limited, job.j4);
    let fifth = marks_of(job.limited, job.j5);
    let sixth = sixth_of(job.fixed, job.limited, job.j6);
    Free {
        near,
        limits,
        wrist,
        fourth,
        fifth,
        sixth,
    }
}

// The cuts of three intervals, one list after the other in the front of work.
#[tactic(auto, using(crate::proofs::Laid::intervals), unfolding(crate::specs::Samples::interval_cuts))]
fn cut_intervals(work: &mut [f64], near: f64, three: Intervals, roots: &[f64]) -> Option<Plan>
    ensures { ListsLaid (interval_cuts near roots.now three.first)
        (interval_cuts near roots.now three.second)
        (interval_cuts near roots.now three.third) work.old result work.new }
{
    let range1 = three.first;
    let first = interval_cuts(work, near, range1, roots)?;
    let range2 = three.second;
    let second = interval_cuts(&mut work[first..], near, range2, roots)?;
    let range3 = three.third;
    let third = interval_cuts(&mut work[first + second..], near, range3, roots)?;
    Some(Plan::Lists(Lists {
        first,
        second,
        third,
    }))
}

// The cuts of a free joint, in the front of work.
pub(crate) fn cut(work: &mut [f64], f: &Free) -> Option<Plan>
    ensures value { result ≡ granted (Of.cut_count f.now) (free_plan f.now) (length work.old) }
    ensures work_after { IfSome result (λ p. work.new ≡ free_cuts f.now ++ drop (Of.cut_count f.now) work.old) }
{
    if is_finite(f.near) {
        let roots = all_roots(f);
        let three = wrist_limit_intervals(f.limits, f.near, 1.0);
        return cut_intervals(work, f.near, three, &roots);
    }
    Some(Plan::Lists(Lists::default()))
}
