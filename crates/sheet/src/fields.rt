// The job that a request's fields say, every field as given.
ghost use Rattle.std.specs.Prelude.{◌≡◌, ◌≤◌};
ghost use Rattle.sheet.specs.Fields as Fields;

use crate::bytes::float_at;
use crate::request::{Field, ROTATION, Shape, place};
use crate::view::View;
use sampling::job::{Arm, Job, Joint, Kind};
use sampling::pose::{Matrix, Quaternion};

// What stands for a wrong kind or flag. `job` is asked of any view, as its definition is of any bytes, and
// this is what the definition says then; such a request is refused before its job is looked at.
const REFUSED: Shape = Shape {
    kind: Kind::J1free,
    limits: false,
    fixed: false,
};

// The sign that a byte stands for: 1.0 for 1, else -1.0; refusal 3 looks at read signs beforehand.
#[tactic(auto, unfolding(crate::specs::Fields::sign_of))]
fn sign_of(b: u8) -> f64
    ensures { result ≡ Fields.sign_of b }
{
    if b == 1 {
        return 1.0;
    }
    -1.0
}

impl View<'_> {
    // The float of a field.
    pub(crate) fn field(self, f: Field, j: usize) -> f64
        requires { (1 ≤ j) × (j ≤ 6) }
        ensures { result ≡ Fields.field self.entry.request.now f j }
    {
        float_at(self.request, place(f, j))
    }

    // A joint's sign, offset, reference and limits.
    #[tactic(auto, unfolding(crate::specs::Fields::joint_at))]
    fn joint(self, j: usize) -> Joint
        requires { (1 ≤ j) × (j ≤ 6) }
        ensures { result ≡ Fields.joint_at self.entry.request.now j }
    {
        let at = place(Field::Sign, j);
        Joint {
            sign: sign_of(self.request[at]),
            offset: self.field(Field::Offset, j),
            reference: self.field(Field::Reference, j),
            from: self.field(Field::From, j),
            to: self.field(Field::To, j),
        }
    }

    // The rotation of a request, as given: x, y, z, w.
    #[tactic(auto, unfolding(crate::specs::Fields::rotation_of))]
    pub(crate) fn rotation(self) -> Quaternion
        ensures { result ≡ Fields.rotation_of self.entry.request.now }
    {
        Quaternion {
            x: float_at(self.request, ROTATION),
            y: float_at(self.request, ROTATION + 8),
            z: float_at(self.request, ROTATION + 16),
            w: float_at(self.request, ROTATION + 24),
        }
    }

    // The arm's angles of a request: q1, q2, q3, as given.
    #[tactic(auto, unfolding(crate::specs::Fields::arm_of))]
    fn arm(self) -> Arm
        ensures { result ≡ Fields.arm_of self.entry.request.now }
    {
        Arm {
            q1: self.field(Field::Arm, 1),
            q2: self.field(Field::Arm, 2),
            q3: self.field(Field::Arm, 3),
        }
    }

    // The job, every field as given, with the rotation's matrix m.
    #[tactic(auto, unfolding(crate::specs::Fields::job_of, crate::specs::Fields::kind_of, crate::specs::Fields::limited_of, crate::specs::Fields::fixed_of))]
    pub(crate) fn job(self, m: Matrix) -> Job
        requires { m ≡ Fields.matrix (Fields.rotation_of self.request.now) }
        ensures { result ≡ Fields.job_of self.entry.request.now }
    {
        let s = self.shape().unwrap_or(REFUSED);
        Job {
            kind: s.kind,
            limited: s.limits,
            fixed: s.fixed,
            matrix: m,
            arm: self.arm(),
            j1: self.joint(1),
            j2: self.joint(2),
            j4: self.joint(4),
            j5: self.joint(5),
            j6: self.joint(6),
        }
    }
}
