// Which fields of a job are read (01, "Request and sheet").
ghost use Rattle.std.specs.Prelude.{◌≡◌};
ghost use Rattle.sampling.specs.Reads as Reads;

use crate::job::Kind;

// What decides it: the kind, whether limits are present and whether the sixth joint is fixed.
#[derive(Clone, Copy)]
pub struct Shape {
    pub kind: Kind,
    pub limits: bool,
    pub fixed: bool,
}

impl Shape {
    // Joints 4, 5 and, unless fixed, 6.
    fn wrist_read(self, j: usize) -> bool
        ensures { result ≡ Reads.wrist_read self.fixed j }
    {
        (j == 4) | (j == 5) | (!self.fixed & (j == 6))
    }

    // Whether sign and offset of joint j are read.
    #[tactic(auto, unfolding(crate::specs::Reads::joint_read))]
    pub fn joint_read(self, j: usize) -> bool
        ensures { result ≡ Reads.joint_read self.kind self.limits self.fixed j }
    {
        match self.kind {
            Kind::J1free => (j == 1) | self.wrist_read(j),
            Kind::J2free => (j == 2) | self.wrist_read(j),
            Kind::J1j2free => (j == 1) | (j == 2) | (self.limits & self.wrist_read(j)),
        }
    }

    // Whether the reference of joint j is read.
    #[tactic(auto, unfolding(crate::specs::Reads::reference_read))]
    pub fn reference_read(self, j: usize) -> bool
        ensures { result ≡ Reads.reference_read self.kind self.limits self.fixed j }
    {
        match self.kind {
            Kind::J1free => (j == 1) | self.wrist_read(j),
            Kind::J2free => (j == 2) | self.wrist_read(j),
            Kind::J1j2free => (j == 1) | (!self.limits & (j == 2)),
        }
    }

    // Whether the arm's angle q is read.
    #[tactic(auto, unfolding(crate::specs::Reads::arm_read))]
    pub fn arm_read(self, q: usize) -> bool
        ensures { result ≡ Reads.arm_read self.kind q }
    {
        match self.kind {
            Kind::J1free => (q == 2) | (q == 3),
            Kind::J2free => (q == 1) | (q == 3),
            Kind::J1j2free => q == 3,
        }
    }
}
