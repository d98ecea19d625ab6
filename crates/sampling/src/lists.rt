// How a job's cuts stand in the work slice, and the samples of three intervals that are read off them.
ghost use Rattle.std.specs.Prelude.{◌≡◌, ◌+◌, ◌≤◌, length, slice_get};
ghost use Rattle.sampling.specs.Samples as Of;
ghost use Rattle.sampling.specs.Promises.Plan.{countable, all_samples};

use crate::samples::sample_at;

// How many cuts each interval has. Fields and no array: code and theorems take up each of the three in
// its own place, and no loop goes over them.
#[derive(Clone, Copy, Default)]
pub struct Lists {
    pub first: usize,
    pub second: usize,
    pub third: usize,
}

// The cuts of both halves stand one after the other in work: how many, and joint 1's reference.
#[derive(Clone, Copy)]
pub struct Halves {
    pub reference: f64,
    pub first: usize,
    pub second: usize,
}

// Where a job's cuts stand in work: those of one free joint, or of two. Where there are too few places
// there is no plan.
#[derive(Clone, Copy)]
pub enum Plan {
    Lists(Lists),
    Halves(Halves),
}

// How many samples n cuts give.
pub fn sample_count(n: usize) -> usize
    requires { n ≤ countable }
    ensures { result ≡ Of.sample_count n }
{
    if n == 0 {
        return 0;
    }
    4 * (n - 1) + 1
}

// How many samples there are in all.
pub(crate) fn angle_count(n: Lists) -> usize
    requires { n.first + n.second + n.third ≤ countable }
    ensures { result ≡ Of.sample_count n.first + Of.sample_count n.second + Of.sample_count n.third }
{
    sample_count(n.first) + sample_count(n.second) + sample_count(n.third)
}

// The cuts of three intervals, one list after the other in the front of work.
#[derive(Clone, Copy)]
pub struct Laid<'a> {
    pub work: &'a [f64],
    pub lists: Lists,
    ghost room: { lists.first + lists.second + lists.third ≤ length work.now },
}

impl<'a> Laid<'a> {
    // The i-th sample of all; behind the last there is none.
    #[tactic(auto, using(crate::proofs::lists::Parts::parts))]
    pub(crate) fn sample_at(self, i: usize) -> Option<f64>
        ensures { result ≡ slice_get (all_samples self.entry.lists self.entry.work.now) i }
    {
        let work = self.work;
        let n = self.lists;
        let first = sample_count(n.first);
        if i < first {
            return sample_at(&work[..n.first], i);
        }
        let start = n.first + n.second;
        let both = first + sample_count(n.second);
        if i < both {
            return sample_at(&work[n.first..start], i - first);
        }
        sample_at(&work[start..start + n.third], i - both)
    }
}
