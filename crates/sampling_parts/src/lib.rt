// Module 4, one number at a time: floats by bits, in and out, so that every NaN is
// 7FF8000000000000. The last parameter says which number of the answer is wanted. `sampling_parts_c`
// has these functions for C.
#![tactic(auto)]

ghost use Rattle.std.specs.Prelude.{◌≡◌};
ghost use Rattle.std.specs.Float.{binary64};
ghost use Rattle.std.specs.Float.Ieee.{of_bits};
ghost use Rattle.sampling_parts.specs.Parts as Parts;

use crate::parts::{of_center, of_pose, of_range, one_of, yes};
use float::number::of_bits;
use sampling::constraints::{Center, compute_center};
use sampling::intervals::wrist_limit_intervals;
use sampling::job::Joint;
use sampling::limits::limits;
use sampling::pose::{Quaternion, try_normalize};

pub mod parts;

// The limits from `from` to `to`: their centre for part 0, else their tolerance.
#[tactic(auto, unfolding(crate::specs::Parts::center))]
pub fn parts_center(from: u64, to: u64, part: u64) -> u64
    ensures { result ≡ Parts.center (of_bits binary64 from) (of_bits binary64 to) part }
{
    of_center(compute_center(of_bits(from), of_bits(to)), part)
}

// The interval of a joint's model angle, where `limited` is 0 for no limits.
#[tactic(auto, unfolding(crate::specs::Parts::limits))]
pub fn parts_limits(
    limited: u64,
    sign: u64,
    offset: u64,
    reference: u64,
    from: u64,
    to: u64,
    part: u64,
) -> u64
    ensures { result ≡ Parts.limits limited (Parts.joint sign offset reference from to) part }
{
    let j = Joint {
        sign: of_bits(sign),
        offset: of_bits(offset),
        reference: of_bits(reference),
        from: of_bits(from),
        to: of_bits(to),
    };
    of_range(limits(yes(limited), j), part)
}

// One of the three intervals of allowed displacements: 0, 1, else the third.
#[tactic(auto, unfolding(crate::specs::Parts::interval))]
pub fn parts_interval(
    center: u64,
    tolerance: u64,
    reference: u64,
    sign: u64,
    which: u64,
    part: u64,
) -> u64
    ensures { result ≡ Parts.interval (Parts.range center tolerance) (of_bits binary64 reference) (of_bits binary64 sign) which part }
{
    let c = Center {
        center: of_bits(center),
        tolerance: of_bits(tolerance),
    };
    let three = wrist_limit_intervals(c, of_bits(reference), of_bits(sign));
    of_range(one_of(three, which), part)
}

// The normalized quaternion and its matrix.
#[tactic(auto, unfolding(crate::specs::Parts::pose))]
pub fn parts_pose(x: u64, y: u64, z: u64, w: u64, part: u64) -> u64
    ensures { result ≡ Parts.pose (Parts.quaternion x y z w) part }
{
    let q = Quaternion {
        x: of_bits(x),
        y: of_bits(y),
        z: of_bits(z),
        w: of_bits(w),
    };
    of_pose(try_normalize(q), part)
}
