#![tactic(auto)]
// The functions of `sampling_parts` for C: floats by bits, in and out. The archive of this crate is
// the one that C callers know as `libsampling_parts.a`.
ghost use Rattle.std.specs.Prelude.{◌≡◌};
ghost use Rattle.std.specs.Float.{binary64};
ghost use Rattle.std.specs.Float.Ieee.{of_bits};
ghost use Rattle.sampling_parts.specs.Parts as Parts;

// The limits from `from` to `to`: their centre for part 0, else their tolerance.
#[unsafe(no_mangle)]
pub extern "C" fn parts_center(from: u64, to: u64, part: u64) -> u64
    ensures { result ≡ Parts.center (of_bits binary64 from) (of_bits binary64 to) part }
{
    sampling_parts::parts_center(from, to, part)
}

// The interval of a joint's model angle, where `limited` is 0 for no limits.
#[unsafe(no_mangle)]
pub extern "C" fn parts_limits(
    limited: u64,
    sign: u64,
    offset: u64,
    reference: u64,
    from: u64,
    to: u64,
    part: u64,
) -> u64
    ensures { result ≡ Parts.limits limited (Parts.joint sign offset reference from to) part }
{
    sampling_parts::parts_limits(limited, sign, offset, reference, from, to, part)
}

// One of the three intervals of allowed displacements: 0, 1, else the third.
#[unsafe(no_mangle)]
pub extern "C" fn parts_interval(
    center: u64,
    tolerance: u64,
    reference: u64,
    sign: u64,
    which: u64,
    part: u64,
) -> u64
    ensures { result ≡ Parts.interval (Parts.range center tolerance) (of_bits binary64 reference) (of_bits binary64 sign) which part }
{
    sampling_parts::parts_interval(center, tolerance, reference, sign, which, part)
}

// The normalized quaternion and its matrix.
#[unsafe(no_mangle)]
pub extern "C" fn parts_pose(x: u64, y: u64, z: u64, w: u64, part: u64) -> u64
    ensures { result ≡ Parts.pose (Parts.quaternion x y z w) part }
{
    sampling_parts::parts_pose(x, y, z, w, part)
}
