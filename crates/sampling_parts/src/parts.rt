// The numbers of an answer, each by its place: C asks for one number at a time, by whole numbers.
ghost use Rattle.std.specs.Prelude.{◌≡◌};
ghost use Rattle.sampling_parts.specs.Parts as Parts;

use float::number::bits;
use sampling::constraints::Center;
use sampling::intervals::{Intervals, Range};
use sampling::pose::{Degenerate, Matrix, Quaternion, Vector, from_quat};

// Whether a number is not 0.
#[tactic(auto, unfolding(crate::specs::Parts::yes))]
pub fn yes(n: u64) -> bool
    ensures { result ≡ Parts.yes n }
{
    n != 0
}

// Part 0 is the centre, every other the tolerance.
#[tactic(auto, unfolding(crate::specs::Parts::of_center))]
pub fn of_center(c: Center, part: u64) -> u64
    ensures { result ≡ Parts.of_center c part }
{
    match part {
        0 => bits(c.center),
        _ => bits(c.tolerance),
    }
}

// Part 0 is 1, part 1 the lower end, every other the upper end.
#[tactic(auto, unfolding(crate::specs::Parts::of_ends))]
fn of_ends(lower: f64, upper: f64, part: u64) -> u64
    ensures { result ≡ Parts.of_ends lower upper part }
{
    match part {
        0 => 1,
        1 => bits(lower),
        _ => bits(upper),
    }
}

// Every part of no interval is 0.
#[tactic(auto, unfolding(crate::specs::Parts::of_range))]
pub fn of_range(range: Range, part: u64) -> u64
    ensures { result ≡ Parts.of_range range part }
{
    match range {
        None => 0,
        Some((lower, upper)) => of_ends(lower, upper, part),
    }
}

// The first for 0, the second for 1, else the third.
#[tactic(auto, unfolding(crate::specs::Parts::one_of))]
pub fn one_of(i: Intervals, which: u64) -> Range
    ensures { result ≡ Parts.one_of i which }
{
    match which {
        0 => i.first,
        1 => i.second,
        _ => i.third,
    }
}

// x, y and z stand at 0, 1 and 2.
#[tactic(auto, unfolding(crate::specs::Parts::of_vector))]
fn of_vector(v: Vector, at: u64) -> f64
    ensures { result ≡ Parts.of_vector v at }
{
    match at {
        0 => v.x,
        1 => v.y,
        _ => v.z,
    }
}

// x, y, z and w stand at 1, 2, 3 and 4.
#[tactic(auto, unfolding(crate::specs::Parts::of_quaternion))]
fn of_quaternion(q: Quaternion, at: u64) -> f64
    ensures { result ≡ Parts.of_quaternion q at }
{
    match at {
        1 => q.x,
        2 => q.y,
        3 => q.z,
        _ => q.w,
    }
}

// The columns' parts, one column after the other, from 0 on.
#[tactic(auto, unfolding(crate::specs::Parts::of_matrix))]
fn of_matrix(m: Matrix, at: u64) -> f64
    ensures { result ≡ Parts.of_matrix m at }
{
    match at {
        0..=2 => of_vector(m.x, at),
        3..=5 => of_vector(m.y, at - 3),
        _ => of_vector(m.z, at - 6),
    }
}

// Part 0 is 2, 1 to 4 are the quaternion's, 5 to 13 its matrix's, every other is 0.
#[tactic(auto, unfolding(crate::specs::Parts::of_unit))]
fn of_unit(q: Quaternion, part: u64) -> u64
    ensures { result ≡ Parts.of_unit q part }
{
    match part {
        0 => 2,
        1..=4 => bits(of_quaternion(q, part)),
        5..=13 => bits(of_matrix(from_quat(q), part - 5)),
        _ => 0,
    }
}

// Part 0 is 1, every other 0.
#[tactic(auto, unfolding(crate::specs::Parts::of_zero))]
fn of_zero(part: u64) -> u64
    ensures { result ≡ Parts.of_zero part }
{
    u64::from(part == 0)
}

// Part 0 is 0 where a part or the length is not finite, 1 where the length is zero, else 2.
#[tactic(auto, unfolding(crate::specs::Parts::of_pose))]
pub fn of_pose(n: Result<Quaternion, Degenerate>, part: u64) -> u64
    ensures { result ≡ Parts.of_pose n part }
{
    match n {
        Err(Degenerate::NotFinite) => 0,
        Err(Degenerate::Zero) => of_zero(part),
        Ok(q) => of_unit(q, part),
    }
}
