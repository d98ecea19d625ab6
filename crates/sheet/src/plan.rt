// The plan of a request: its cuts in work, or that there are too few places.
ghost use Rattle.std.specs.Prelude.{◌≡◌, length};
ghost use Rattle.sampling.specs.Pose.{try_normalize};
ghost use Rattle.sampling.specs.Promises.Plan as Plans;
ghost use Rattle.sheet.specs.Fields as Fields;

use crate::view::View;
use sampling::lists::Plan;
use sampling::plan::plan_of;
use sampling::pose::{Quaternion, from_quat};

// Puts the cuts of a request, whose rotation is normalized to q, into work.
#[tactic(auto, unfolding(crate::specs::Fields::matrix, crate::specs::Fields::matrix_by))]
pub(crate) fn plan_request(work: &mut [f64], view: View, q: Quaternion) -> Option<Plan>
    requires request_value { try_normalize (Fields.rotation_of view.request.now) ≡ Ok q }
    requires drawable { Plans.Drawable (Fields.job_of view.request.now) }
    ensures value { result ≡ Plans.plan (Fields.job_of view.entry.request.now) (length work.old) }
    ensures work_after { work.new ≡ Plans.work_after (Fields.job_of view.entry.request.now) work.old }
{
    plan_of(work, view.job(from_quat(q)))
}
