// From the boundary angles of one free joint to its samples, from `sample_angles` of
// src/singularity/continuum.rs.
ghost use Rattle.std.specs.Prelude.{◌≡◌, ◌&&◌, ◌≤◌, slice_get};
ghost use Rattle.std.specs.Float.Ieee.{le};
ghost use Rattle.polynomial.specs.Promises.Held.{Kept};
ghost use Rattle.sampling.specs.Promises.Grown.{Grown};
ghost use Rattle.sampling.specs.Samples as Of;

use crate::continuum::ROOT_ROUNDOFF;
use crate::intervals::Range;
use crate::work::Cuts;
use float::number::{abs, is_finite, maximum, middle, minimum};
use float::trig::TWO_PI;

// The angles from one to another, both among them.
#[derive(Clone, Copy)]
pub struct Interval {
    pub lower: f64,
    pub upper: f64,
}

impl Interval {
    #[inline]
    fn contains(self, angle: f64) -> bool
        ensures { result ≡ (le self.lower angle && le angle self.upper) }
    {
        (self.lower <= angle) & (angle <= self.upper)
    }
}

// An angle counts where it lies in the interval. Cuts and interval go side by side here and below,
// since the same cuts are also given values that no interval bounds.
#[inline]
#[tactic(auto, unfolding(crate::specs::Samples::inside))]
fn inside(cuts: &mut Cuts, interval: Interval, angle: f64)
    ensures { Grown (Of.inside interval.lower interval.upper angle) cuts.old cuts.new }
{
    if interval.contains(angle) {
        cuts.push(angle);
    }
}

// An angle, a turn below, as it is and a turn above. Mostly the two outer ones lie outside.
#[inline]
#[tactic(auto, unfolding(crate::specs::Samples::inside, crate::specs::Samples::copies, crate::proofs::Literals::of_bits))]
fn copies(cuts: &mut Cuts, interval: Interval, angle: f64)
    ensures { Grown (Of.copies interval.lower interval.upper angle) cuts.old cuts.new }
{
    let below = angle + -1.0 * TWO_PI;
    let above = angle + 1.0 * TWO_PI;
    if !(interval.lower <= below) & !(above <= interval.upper) {
        inside(cuts, interval, angle + 0.0 * TWO_PI);
        return;
    }
    inside(cuts, interval, below);
    inside(cuts, interval, angle + 0.0 * TWO_PI);
    inside(cuts, interval, above);
}

// The copies of each angle.
pub(crate) fn all_copies(cuts: &mut Cuts, interval: Interval, angles: &[f64])
    ensures { Grown (Of.all_copies interval.lower interval.upper angles.now) cuts.old cuts.new }
{
    for angle in angles {
        copies(cuts, interval, *angle);
    }
}

// A root counts if it is finite.
#[inline]
#[tactic(auto, unfolding(crate::specs::Samples::windings))]
fn windings(cuts: &mut Cuts, interval: Interval, root: f64)
    ensures { Grown (Of.windings interval.lower interval.upper root) cuts.old cuts.new }
{
    if is_finite(root) {
        copies(cuts, interval, root);
    }
}

// The windings of each root: the loop of `all_copies`, over the roots that are finite. To be passed
// `filter(is_finite)` that one would take any iterator, and its contract say what the iterator yields.
fn all_windings(cuts: &mut Cuts, interval: Interval, roots: &[f64])
    ensures { Grown (Of.all_windings interval.lower interval.upper roots.now) cuts.old cuts.new }
{
    for root in roots {
        windings(cuts, interval, *root);
    }
}

// The cuts of one interval, in the front of the slice.
pub(crate) fn interval_cuts(
    work: &mut [f64],
    near: f64,
    range: Range,
    roots: &[f64],
) -> Option<usize>
    ensures { Kept (Of.interval_values near roots.now range) work.old work.new result }
{
    let Some((a, b)) = range else {
        return Some(0);
    };
    let interval = Interval {
        lower: near + a,
        upper: near + b,
    };
    let mut cuts = Cuts::new(work);
    cuts.push(interval.lower);
    cuts.push(interval.upper);
    all_windings(&mut cuts, interval, roots);
    cuts.count
}

// How far inside a pair of neighbouring cuts the outer samples lie. Two angles and no `Interval`, here
// and in `between`: callers have them as two places of a list.
#[tactic(auto, unfolding(crate::specs::Samples::inset, crate::proofs::Literals::of_bits))]
fn inset(lower: f64, upper: f64) -> f64
    ensures { result ≡ Of.inset lower upper }
{
    let most = ROOT_ROUNDOFF * (1.0 + maximum(abs(lower), abs(upper)));
    minimum(most, (upper - lower) / 4.0)
}

// The three samples between two neighbouring cuts: near each end, and the middle.
#[inline]
#[tactic(auto, unfolding(crate::specs::Samples::between))]
pub fn between(lower: f64, upper: f64) -> [f64; 3]
    ensures { result ≡ Of.between lower upper }
{
    let by = inset(lower, upper);
    [lower + by, middle(lower, upper), upper - by]
}

// The i-th sample of the cuts in a list; behind the last there is none.
#[tactic(auto, using(crate::proofs::Laws::Samples::sample_cut, crate::proofs::Laws::Samples::sample_between, crate::proofs::Laws::Samples::sample_none))]
pub(crate) fn sample_at(list: &[f64], i: usize) -> Option<f64>
    ensures { result ≡ slice_get (Of.samples list.now) i }
{
    let n = list.len();
    if i < n {
        return Some(list[i]);
    }
    let k = (i - n) / 3;
    if n <= k + 1 {
        return None;
    }
    Some(between(list[k], list[k + 1])[(i - n) % 3])
}
