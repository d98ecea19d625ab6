// The pose, from src/pose.rs, and the rotation matrix by document 01's formula.
ghost use Rattle.std.specs.Prelude.{◌≡◌};
ghost use Rattle.sampling.specs.Pose as Pose;

use float::number::is_finite;
use float::sqrt::sqrt;
use std::ops::{Add, Mul, Neg, Sub};

#[derive(Clone, Copy)]
pub struct Quaternion {
    pub x: f64,
    pub y: f64,
    pub z: f64,
    pub w: f64,
}

#[derive(Clone, Copy)]
pub struct Vector {
    pub x: f64,
    pub y: f64,
    pub z: f64,
}

impl Vector {
    #[tactic(auto, unfolding(crate::specs::Pose::vector))]
    pub fn new(x: f64, y: f64, z: f64) -> Self
        ensures { result ≡ Pose.vector x y z }
    {
        Self { x, y, z }
    }
}

impl Mul<f64> for Vector {
    type Output = Vector;

    ghost mul_gives = { λ a factor r. r ≡ Pose.times a factor };

    #[tactic(auto, unfolding(crate::specs::Pose::times, crate::specs::Pose::vector))]
    fn mul(self, factor: f64) -> Vector {
        Vector {
            x: self.x * factor,
            y: self.y * factor,
            z: self.z * factor,
        }
    }
}

impl Add for Vector {
    type Output = Vector;

    ghost add_gives = { λ a b r. r ≡ Pose.plus a b };

    #[tactic(auto, unfolding(crate::specs::Pose::plus, crate::specs::Pose::vector))]
    fn add(self, other: Vector) -> Vector {
        Vector {
            x: self.x + other.x,
            y: self.y + other.y,
            z: self.z + other.z,
        }
    }
}

impl Sub for Vector {
    type Output = Vector;

    ghost sub_gives = { λ a b r. r ≡ Pose.minus a b };

    #[tactic(auto, unfolding(crate::specs::Pose::minus, crate::specs::Pose::vector))]
    fn sub(self, other: Vector) -> Vector {
        Vector {
            x: self.x - other.x,
            y: self.y - other.y,
            z: self.z - other.z,
        }
    }
}

impl Neg for Vector {
    type Output = Vector;

    ghost neg_gives = { λ a r. r ≡ Pose.negated a };

    #[tactic(auto, unfolding(crate::specs::Pose::negated, crate::specs::Pose::vector))]
    fn neg(self) -> Vector {
        Vector {
            x: -self.x,
            y: -self.y,
            z: -self.z,
        }
    }
}

// A rotation matrix, by its three columns.
#[derive(Clone, Copy)]
pub struct Matrix {
    pub x: Vector,
    pub y: Vector,
    pub z: Vector,
}

// Why a quaternion has no direction: a part or the length is not finite, or the length is zero.
#[derive(Clone, Copy)]
pub enum Degenerate {
    NotFinite,
    Zero,
}

fn all_finite(q: Quaternion) -> bool
    ensures { result ≡ Pose.all_finite q }
{
    is_finite(q.x) & is_finite(q.y) & is_finite(q.z) & is_finite(q.w)
}

#[tactic(auto, unfolding(crate::specs::Pose::quaternion_length))]
fn quaternion_length(q: Quaternion) -> f64
    ensures { result ≡ Pose.quaternion_length q }
{
    sqrt(q.x * q.x + q.y * q.y + q.z * q.z + q.w * q.w)
}

// q over its length, unless a part or the length is not finite, or the length is zero.
#[tactic(auto, unfolding(crate::specs::Pose::try_normalize, crate::proofs::Literals::of_bits))]
pub fn try_normalize(q: Quaternion) -> Result<Quaternion, Degenerate>
    ensures { result ≡ Pose.try_normalize q }
{
    let l = quaternion_length(q);
    if !all_finite(q) | !is_finite(l) {
        return Err(Degenerate::NotFinite);
    }
    if l <= 0.0 {
        return Err(Degenerate::Zero);
    }
    Ok(Quaternion {
        x: q.x / l,
        y: q.y / l,
        z: q.z / l,
        w: q.w / l,
    })
}

// The rotation matrix of a normalized quaternion. It keeps the Rust's name and is
// no `From`: of other quaternions the matrix is no rotation, and the type does not say which.
#[tactic(auto, unfolding(crate::specs::Pose::from_quat, crate::proofs::Literals::of_bits))]
pub fn from_quat(q: Quaternion) -> Matrix
    ensures { result ≡ Pose.from_quat q }
{
    let x2 = q.x + q.x;
    let y2 = q.y + q.y;
    let z2 = q.z + q.z;
    Matrix {
        x: Vector {
            x: 1.0 - (q.y * y2 + q.z * z2),
            y: q.x * y2 + q.w * z2,
            z: q.x * z2 - q.w * y2,
        },
        y: Vector {
            x: q.x * y2 - q.w * z2,
            y: 1.0 - (q.x * x2 + q.z * z2),
            z: q.y * z2 + q.w * x2,
        },
        z: Vector {
            x: q.x * z2 + q.w * y2,
            y: q.y * z2 - q.w * x2,
            z: 1.0 - (q.x * x2 + q.y * y2),
        },
    }
}

#[tactic(auto, unfolding(crate::specs::Pose::dot))]
pub(crate) fn dot(a: Vector, b: Vector) -> f64
    ensures { result ≡ Pose.dot a b }
{
    a.x * b.x + a.y * b.y + a.z * b.z
}

#[tactic(auto, unfolding(crate::specs::Pose::vector_length))]
pub(crate) fn vector_length(a: Vector) -> f64
    ensures { result ≡ Pose.vector_length a }
{
    sqrt(dot(a, a))
}
