// A job's cuts in the lent work slice, and its angles one at a time, read off them.
ghost use Rattle.std.specs.Prelude.{◌≡◌, ◌++◌, ◌+◌, ◌≤◌, length, drop, take, IfSome};
ghost use Rattle.sampling.specs.Angles.{first_free, second_free, cut_count};
ghost use Rattle.std.specs.Iterator.{YieldsFirst, item_count};
ghost use Rattle.sampling.specs.Promises.Plan.{Drawable, to_come, Ready, all_cuts, where_laid, zeros};
ghost use Rattle.sampling.specs.Promises.Plan as Of;
ghost use Rattle.sampling.specs.Promises.Stream.{next, start};

use crate::j1j2free::folded_of;
use crate::job::{Job, Kind};
use crate::lists::{Halves, Laid, Plan, angle_count};
use crate::sample_angles::{Free, free_of};
use crate::stream::{Cursor, Step};
use crate::work::clear;
use crate::{j1free, j1j2free, j2free, sample_angles, stream};

// The cuts in work and how they stand there.
#[derive(Clone, Copy)]
pub struct Planned<'a> {
    pub work: &'a [f64],
    pub plan: Plan,
    ghost ready: { ∥ Ready plan work.now ∥₁ },
}

impl<'a> Planned<'a> {
    // The angles, from the first on.
    pub fn angles(self) -> Angles<'a>
        ensures { (result.planned ≡ self.entry) × (result.cursor ≡ start) }
    {
        Angles {
            planned: self,
            cursor: start(),
        }
    }

    // The angle at a cursor, and the cursor behind it.
    #[tactic(auto, using(crate::proofs::plan::Asked::lists_room, crate::proofs::plan::Asked::halves_room))]
    fn step(self, c: Cursor) -> Step
        ensures { result ≡ Of.step self.entry.plan self.entry.work.now c }
    {
        match self.plan {
            Plan::Lists(lists) => {
                let work = self.work;
                next_sample(Laid { work, lists }, c)
            }
            Plan::Halves(h) => next_slice(self.work, h, c),
        }
    }

    // How many angles there are.
    #[tactic(auto, using(crate::proofs::plan::Asked::lists_count, crate::proofs::plan::Asked::halves_few))]
    pub fn count(self) -> usize
        ensures { result ≡ length (to_come self.entry.plan self.entry.work.now start) }
    {
        match self.plan {
            Plan::Lists(n) => angle_count(n),
            Plan::Halves(_) => self.angles().count(),
        }
    }
}

// The sample at a cursor, and the cursor behind it.
#[tactic(auto, using(crate::proofs::plan::Asked::sample_below), unfolding(crate::specs::Promises::Plan::sample_step))]
fn next_sample(cuts: Laid<'_>, c: Cursor) -> Step
    ensures { result ≡ Of.sample_step cuts.entry.lists cuts.entry.work.now c }
{
    let y = cuts.sample_at(c.i)?;
    let mut to = c;
    to.i = c.i + 1;
    Some((y, to))
}

#[tactic(auto, using(crate::proofs::plan::Asked::second_list))]
fn next_slice(work: &[f64], h: Halves, c: Cursor) -> Step
    requires { h.first + h.second ≤ length work.now }
    ensures { result ≡ next (take h.first work.now) (take h.second (drop h.first work.now)) h.reference c }
{
    let first = h.first;
    let end = first + h.second;
    stream::next(&work[..first], &work[first..end], h.reference, c)
}

// The cursor before the first angle of a plan.
pub fn start() -> Cursor
    ensures { result ≡ start }
{
    stream::start()
}

// The angle of a plan at any cursor, read off the cuts in work, and the cursor behind it: for one who kept a
// cursor and goes on there. `Angles` does the same from the first on.
pub fn next(work: &[f64], plan: Plan, c: Cursor) -> Step
    requires { Ready plan work.now }
    ensures { result ≡ Of.step plan work.now c }
{
    Planned { work, plan }.step(c)
}

// The angles that are still to come, one at a time, read off the cuts in work.
#[derive(Clone, Copy)]
pub struct Angles<'a> {
    planned: Planned<'a>,
    cursor: Cursor,
}

impl Iterator for Angles<'_> {
    type Item = f64;

    ghost next_gives = { YieldsFirst (λ s. to_come s.planned.plan s.planned.work.now s.cursor) };

    ghost remaining = { item_count (λ s. to_come s.planned.plan s.planned.work.now s.cursor) };

    #[tactic(auto, using(crate::proofs::plan::Asked::step_yields, crate::proofs::plan::Asked::step_done))]
    fn next(&mut self) -> Option<f64> {
        let (y, cursor) = self.planned.step(self.cursor)?;
        self.cursor = cursor;
        Some(y)
    }
}

// What counts of a job whose joint 1 is free. What it shares with the next function is `free_of`; each
// has its own formula of the columns.
#[tactic(auto, unfolding(crate::specs::Angles::first_free))]
fn first_free(job: Job) -> Free
    ensures { result ≡ first_free job }
{
    free_of(j1free::arm_axes(job.arm), job, job.j1)
}

// What counts of a job whose joint 2 is free.
#[tactic(auto, unfolding(crate::specs::Angles::second_free))]
fn second_free(job: Job) -> Free
    ensures { result ≡ second_free job }
{
    free_of(j2free::arm_axes(job.arm), job, job.j2)
}

// Puts a job's cuts into work, whatever it held.
fn cut(work: &mut [f64], job: Job) -> Option<Plan>
    requires { Drawable job }
    ensures value { result ≡ Of.plan job (length work.old) }
    ensures work_after { IfSome result (λ p. work.new ≡ all_cuts job ++ drop (cut_count job) work.old) }
{
    match job.kind {
        Kind::J1free => sample_angles::cut(work, &first_free(job)),
        Kind::J2free => sample_angles::cut(work, &second_free(job)),
        Kind::J1j2free => j1j2free::cut(work, &folded_of(job)),
    }
}

// Nothing stays in work that is not read.
fn clear_unlaid(work: &mut [f64], plan: Option<Plan>)
    ensures { work.new ≡ where_laid plan work.old (zeros (length work.old)) }
{
    if plan.is_none() {
        clear(work);
    }
}

// The plan of a job, whatever work held: its cuts in front, or +0.0 in every place.
#[tactic(auto, unfolding(crate::specs::Promises::Plan::work_after))]
pub fn plan_of(work: &mut [f64], job: Job) -> Option<Plan>
    requires { Drawable job }
    ensures value { result ≡ Of.plan job (length work.old) }
    ensures work_after { work.new ≡ Of.work_after job work.old }
{
    let plan = cut(work, job);
    clear_unlaid(work, plan);
    plan
}
