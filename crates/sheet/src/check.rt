// The operation Check: whether a sheet is the one that its edition lays out for the request inside
// it.
ghost use Rattle.std.specs.Prelude.{◌≡◌, ◌+◌, ◌^◌, ◌<◌, ◌≤◌, length, Some, None, MatchResult};
ghost use Rattle.sheet.specs.declared.refusals.Fault.TheVariants.{Trailer};
ghost use Rattle.sampling.specs.Promises.Stream.{start};
ghost use Rattle.sampling.specs.Promises.Plan.{to_come};
ghost use Rattle.sheet.specs.Bytes as Bytes;
ghost use Rattle.sheet.specs.Promises.Floats as Floats;
ghost use Rattle.sheet.specs.Edition.{newest, known};
ghost use Rattle.sheet.specs.Request as Request;
ghost use Rattle.sheet.specs.Sheet as Sizes;
ghost use Rattle.sheet.specs.Check as Check;
ghost use Rattle.sheet.specs.Promises.Plan as Promise;

use crate::bytes::bytes_at;
use crate::edition::Edition;
use crate::plan::plan_request;
use crate::refusals::Fault;
use crate::request::unread_zero;
use crate::trailer::{ITEMS_BOUND, LEAST, TRAILER, frame_size, trailer};
use crate::validate::validate;
use crate::view::View;
use float::number::bits;
use sampling::plan::Planned;
use sampling::work::clear;

// Whether the bytes are those of the angles, no more and no less.
fn same_angles(s: &[u8], planned: &Planned) -> bool
    ensures { result ≡ Bytes.same_bytes s.now (Floats.floats_bytes (to_come planned.now.plan planned.now.work.now start)) }
{
    let mut left = s;
    for y in planned.angles() {
        let Some((bytes, rest)) = left.split_first_chunk() else {
            return false;
        };
        if u64::from_le_bytes(*bytes) != bits(y) {
            return false;
        }
        left = rest;
    }
    left.is_empty()
}

// 33 to 36, for the angles' bytes s and n angles.
fn check_request(
    e: Edition,
    s: &[u8],
    request: &[u8],
    work: &mut [f64],
    n: usize,
) -> Result<usize, Fault>
    ensures result_value { Check.answer_of result ≡ Promise.checked e request.now s.now n (length work.old) }
    ensures work_after { work.new ≡ Promise.work_left e request.now work.old }
{
    let Ok(q) = validate(e, request) else {
        return Err(Fault::Request);
    };
    let view = View { request };
    let plan = plan_request(work, view, q);
    if !unread_zero(view) {
        return Err(Fault::Unread);
    }
    let plan = plan.ok_or(Fault::Work)?;
    if !same_angles(s, &Planned { work, plan }) {
        return Err(Fault::Angles);
    }
    Ok(n)
}

// The bytes of a sheet: a request of any edition and a trailer have room.
#[derive(Clone, Copy)]
struct Sheet<'a> {
    bytes: &'a [u8],
    ghost long: { Request.core_size + Sizes.trailer_size ≤ length bytes.now },
}

impl Sheet<'_> {
    // The number of angles that the trailer says.
    fn count(self) -> usize
        ensures value { result ≡ Check.count_of self.entry.bytes.now }
        ensures upper_bound { result < 2 ^ 32 }
    {
        let at = self.bytes.len() - TRAILER;
        u32::from_le_bytes(bytes_at(self.bytes, at)) as usize
    }

    // The edition that the trailer says.
    fn edition(self) -> Result<Edition, Fault>
        ensures { MatchResult result (λ e. known newest (Check.edition_of self.entry.bytes.now) ≡ Some e)
            (λ f. (f ≡ Trailer) × (known newest (Check.edition_of self.entry.bytes.now) ≡ None)) }
    {
        let at = self.bytes.len() - TRAILER;
        Edition::try_from(u16::from_le_bytes(bytes_at(self.bytes, at + 8)))
    }

    // 32: the length is that of as many angles as the trailer says, their bytes are a u32, and the
    // trailer is theirs.
    #[tactic(auto, using(crate::proofs::check::Refused::trailer))]
    fn formed(self, e: Edition) -> bool
        ensures { result ≡ Check.formed e self.entry.bytes.now }
    {
        let n = self.count();
        if self.bytes.len() != 8 * n + frame_size(e) {
            return false;
        }
        if n >= ITEMS_BOUND {
            return false;
        }
        self.bytes.ends_with(&trailer(e, n))
    }

    // 32 to 36 of a sheet that says this edition.
    #[tactic(auto, using(crate::proofs::check::Refused::formed))]
    fn inspect_edition(self, e: Edition, work: &mut [f64]) -> Result<usize, Fault>
        ensures result_value { Check.answer_of result ≡ Check.by_edition e self.entry.bytes.now (length work.old) }
        ensures work_after { work.new ≡ Promise.work_by e self.entry.bytes.now work.old }
    {
        if !self.formed(e) {
            return Err(Fault::Trailer);
        }
        let at = self.bytes.len() - frame_size(e);
        let end = self.bytes.len() - TRAILER;
        check_request(
            e,
            &self.bytes[..at],
            &self.bytes[at..end],
            work,
            self.count(),
        )
    }
}

// 31, and then by the edition that the trailer says; one that is not known is 32.
#[tactic(auto, using(crate::proofs::check::Refused::edition))]
fn inspect(bytes: &[u8], work: &mut [f64]) -> Result<usize, Fault>
    ensures result_value { Check.answer_of result ≡ Check.answer newest bytes.now (length work.old) }
    ensures work_after { work.new ≡ Promise.work_checked bytes.now work.old }
{
    if bytes.len() < LEAST {
        return Err(Fault::Length);
    }
    let sheet = Sheet { bytes };
    let e = sheet.edition()?;
    sheet.inspect_edition(e, work)
}

// Check: the number of angles, or the first refusal. After every answer each work place is +0.0.
pub fn check(sheet: &[u8], work: &mut [f64]) -> Result<usize, Fault>
    ensures result_value { Check.answer_of result ≡ Check.answer newest sheet.now (length work.old) }
    ensures work_after { work.new ≡ Bytes.zeros (length work.old) }
{
    let r = inspect(sheet, work);
    clear(work);
    r
}
