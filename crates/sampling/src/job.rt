// A job's numbers, every field as given.
use crate::pose::Matrix;

// A joint: its sign, 1 or -1, offset, reference and limits.
#[derive(Clone, Copy)]
pub struct Joint {
    pub sign: f64,
    pub offset: f64,
    pub reference: f64,
    pub from: f64,
    pub to: f64,
}

// The arm's angles.
#[derive(Clone, Copy)]
pub struct Arm {
    pub q1: f64,
    pub q2: f64,
    pub q3: f64,
}

// Which joints are free: 1 in kind 1, 2 in kind 2, both in kind 3.
#[derive(Clone, Copy)]
pub enum Kind {
    J1free,
    J2free,
    J1j2free,
}

// The job: its kind, whether limits are present and the sixth joint is fixed, the matrix of the
// target's rotation, the arm and the joints, but for joint 3, which no kind reads. A joint's limits
// stand here whether they count or not, and functions take flag and joint: so the definitions of the
// Rust's functions take them. `Shape` has the three fields that are known before the numbers are read.
#[derive(Clone, Copy)]
pub struct Job {
    pub kind: Kind,
    pub limited: bool,
    pub fixed: bool,
    pub matrix: Matrix,
    pub arm: Arm,
    pub j1: Joint,
    pub j2: Joint,
    pub j4: Joint,
    pub j5: Joint,
    pub j6: Joint,
}
