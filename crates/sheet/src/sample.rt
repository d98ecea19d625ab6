// The operation Sampling: a request's sheet.
ghost use Rattle.std.specs.Prelude.{◌≡◌, ◌++◌, ◌+◌, ◌*◌, ◌≤◌, length, leb};
ghost use Rattle.sampling.specs.Promises.Stream.{start};
ghost use Rattle.sampling.specs.Promises.Plan.{to_come};
ghost use Rattle.sheet.specs.Bytes as Bytes;
ghost use Rattle.sheet.specs.Promises.Floats as Floats;
ghost use Rattle.sheet.specs.Edition.{newest};
ghost use Rattle.sheet.specs.Request as Request;
ghost use Rattle.sheet.specs.Sheet as Sheet;
ghost use Rattle.sheet.specs.Sampling as Sampling;
ghost use Rattle.sheet.specs.Promises.Plan as Promise;

use crate::angles::put_lists;
use crate::bytes::float_bytes;
use crate::edition::Edition;
use crate::plan::plan_request;
use crate::refusals::Refusal;
use crate::request::{REQUEST, put_blank};
use crate::trailer::{FRAME, trailer};
use crate::validate::validate;
use crate::view::View;
use sampling::lists::Plan;
use sampling::plan::Planned;
use sampling::work::clear;

// The angles, one after the other.
fn put_angles(output: &mut [u8], planned: &Planned)
    requires { length output.old ≡ 8 * length (to_come planned.now.plan planned.now.work.now start) }
    ensures { output.new ≡ Floats.floats_bytes (to_come planned.now.plan planned.now.work.now start) }
{
    if let Plan::Lists(n) = planned.plan {
        put_lists(output, planned.work, n);
        return;
    }
    put_stream(output, planned);
}

// The same, as they come one at a time. `put_lists` stands beside it for speed: the cuts of one free joint
// lie in work as they are written, where each step of `angles` would ask which list it is in.
fn put_stream(output: &mut [u8], planned: &Planned)
    requires { length output.old ≡ 8 * length (to_come planned.now.plan planned.now.work.now start) }
    ensures { output.new ≡ Floats.floats_bytes (to_come planned.now.plan planned.now.work.now start) }
{
    // output by the index: what is written through `chunks_exact_mut` is not known afterwards
    for (i, y) in planned.angles().enumerate() {
        output[8 * i..8 * i + 8].copy_from_slice(&float_bytes(y));
    }
}

// A request of the newest edition that passed its tests, and its plan.
#[derive(Clone, Copy)]
struct Draft<'a, 'b> {
    view: View<'a>,
    planned: Planned<'b>,
    ghost newest: { length view.request.now ≡ Request.request_size newest },
    ghost own: { Promise.PlannedFor view.request.now planned.plan planned.work.now },
}

// The sheet: the n angles, the blanked request, the trailer.
#[tactic(auto, using(crate::specs::Laws::Plan::found_items, crate::specs::Laws::Plan::found_count), unfolding(crate::specs::Sampling::sheet))]
fn fill(output: &mut [u8], draft: &Draft, n: usize)
    requires n_value { n ≡ length (to_come draft.now.planned.plan draft.now.planned.work.now start) }
    requires size { length output.old ≡ Sheet.sheet_size newest n }
    ensures { output.new ≡ Sampling.sheet newest draft.now.view.request.now }
{
    let (items, others) = output.split_at_mut(8 * n);
    let (request, last) = others.split_at_mut(REQUEST);
    put_angles(items, &draft.planned);
    put_blank(request, draft.view);
    last.copy_from_slice(&trailer(Edition::NEWEST, n));
}

// Whether a sheet with n angles has room.
fn has_room(n: usize, room: usize) -> bool
    ensures { result ≡ leb (Sheet.sheet_size newest n) room }
{
    FRAME <= room && n <= (room - FRAME) / 8
}

// 11, and else the sheet.
#[tactic(auto, using(crate::specs::Laws::Plan::planned), unfolding(crate::specs::Promises::Plan::planned_answer, crate::specs::Refusals::need))]
fn finish(output: &mut [u8], draft: &Draft) -> Result<usize, Refusal>
    ensures result_value { Sampling.answer_of result ≡
        Promise.planned_answer draft.now.view.request.now (length draft.now.planned.work.now) (length output.old) }
    ensures output_after { output.new ≡ Sampling.output_after (Sampling.answer_of result) draft.now.view.request.now output.old }
{
    let n = draft.planned.count();
    if has_room(n, output.len()) {
        fill(&mut output[..8 * n + FRAME], draft, n);
        return Ok(n);
    }
    Err(Refusal::Output)
}

fn run(request: &[u8], work: &mut [f64], output: &mut [u8]) -> Result<usize, Refusal>
    ensures result_value { Sampling.answer_of result ≡ Sampling.answer request.now (length work.old) (length output.old) }
    ensures output_after { output.new ≡ Sampling.output_after (Sampling.answer_of result) request.now output.old }
    ensures work_after { work.new ≡ Promise.work_left newest request.now work.old }
{
    let q = validate(Edition::NEWEST, request)?;
    let view = View { request };
    let plan = plan_request(work, view, q).ok_or(Refusal::Work)?;
    let planned = Planned { work, plan };
    finish(output, &Draft { view, planned })
}

// Sampling: the number of angles, or the first refusal. Success fills the first bytes of the output with the sheet; a refusal leaves it. After
// every answer each work place is +0.0.
pub fn sample(request: &[u8], work: &mut [f64], output: &mut [u8]) -> Result<usize, Refusal>
    ensures result_value { Sampling.answer_of result ≡ Sampling.answer request.now (length work.old) (length output.old) }
    ensures output_after { output.new ≡ Sampling.output_after (Sampling.answer_of result) request.now output.old }
    ensures work_after { work.new ≡ Bytes.zeros (length work.old) }
{
    let a = run(request, work, output);
    clear(work);
    a
}
