// The slices of narrow bends, from src/singularity/j1j2free.rs.
ghost use Rattle.std.specs.Prelude.{◌≡◌, ◌+◌, ◌≤◌};
ghost use Rattle.arrayvec.specs.ArrayVec.{array_vec_len, Extends};
ghost use Rattle.sampling.specs.J1j2free.{bends};
ghost use Rattle.sampling.specs.BendSlices as Of;

use crate::angles::Angles;
use crate::bends::norm_roots;
use crate::boundaries::across;
use crate::continuum::ROOT_ROUNDOFF;
use crate::intervals::Range;
use crate::j1j2free::Folded;
use crate::pose::{Matrix, Vector, vector_length};
use arrayvec::ArrayVec;
use float::arc::{asin, atan2};
use float::number::{abs, clamp};
use float::trig::{P, SinCos, hypot, sin_cos};
use polynomial::angle::wrapped_angle;
use polynomial::curve::Harmonic;

// Where the transverse component has a value.
#[tactic(auto, unfolding(crate::specs::BendSlices::transverse, crate::proofs::Literals::of_bits))]
fn transverse(radius: f64, azimuth: f64, component: f64, out: &mut Angles)
    requires { array_vec_len out.old + 2 ≤ 300 }
    ensures items { Extends out.old (Of.transverse radius azimuth component) out.new }
    ensures most { array_vec_len out.new ≤ array_vec_len out.old + 2 }
{
    if (0.0 < radius) & (abs(component) <= radius * (1.0 + ROOT_ROUNDOFF)) {
        let offset = asin(clamp(component / radius));
        out.push(wrapped_angle(azimuth - offset));
        out.push(wrapped_angle(azimuth - P + offset));
    }
}

// Joint 4 at both ends of its limits.
#[tactic(auto, unfolding(crate::specs::BendSlices::transverse_range))]
fn transverse_range(radius: f64, azimuth: f64, extreme: f64, range: Range, out: &mut Angles)
    requires { array_vec_len out.old + 4 ≤ 300 }
    ensures items { Extends out.old (Of.transverse_range radius azimuth extreme range) out.new }
    ensures most { array_vec_len out.new ≤ array_vec_len out.old + 4 }
{
    if let Some((lower, upper)) = range {
        transverse(radius, azimuth, extreme * sin_cos(lower).sine, out);
        transverse(radius, azimuth, extreme * sin_cos(upper).sine, out);
    }
}

// The extrema, then joint 4's limits.
#[tactic(auto, unfolding(crate::specs::BendSlices::transverses))]
fn transverses(z: Vector, s5: f64, range4: Range, out: &mut Angles)
    requires { array_vec_len out.old + 8 ≤ 300 }
    ensures items { Extends out.old (Of.transverses z s5 range4) out.new }
    ensures most { array_vec_len out.new ≤ array_vec_len out.old + 8 }
{
    let norm = vector_length(z);
    let radius = hypot(z.x, z.y);
    let azimuth = atan2(z.y, z.x);
    transverse(radius, azimuth, -norm * s5, out);
    transverse(radius, azimuth, norm * s5, out);
    transverse_range(radius, azimuth, norm * s5, range4, out);
}

// The arm's axis, by joints 5 and 6.
#[tactic(auto, unfolding(crate::specs::BendSlices::arm_axis))]
fn arm_axis(m: Matrix, q5: SinCos, q6: SinCos) -> Vector
    ensures { result ≡ Of.arm_axis m q5 q6 }
{
    m.x * (-q5.sine * q6.cosine) + m.y * (q5.sine * q6.sine) + m.z * q5.cosine
}

// The two angles at which joint 1 points along a vector, or against it.
#[tactic(auto, unfolding(crate::specs::BendSlices::axis_angles, crate::proofs::Literals::of_bits))]
fn axis_angles(v: Vector) -> [f64; 2]
    ensures { result ≡ Of.axis_angles v }
{
    let angle = atan2(v.y, v.x);
    [angle, wrapped_angle(angle + P)]
}

#[tactic(auto, unfolding(crate::specs::BendSlices::axes_range))]
fn axes_range(m: Matrix, q5: SinCos, range: Range, out: &mut Angles)
    requires { array_vec_len out.old + 4 ≤ 300 }
    ensures items { Extends out.old (Of.axes_range m q5 range) out.new }
    ensures most { array_vec_len out.new ≤ array_vec_len out.old + 4 }
{
    if let Some((lower, upper)) = range {
        let first = axis_angles(arm_axis(m, q5, sin_cos(lower)));
        let second = axis_angles(arm_axis(m, q5, sin_cos(upper)));
        out.try_extend_from_slice(&first).unwrap();
        out.try_extend_from_slice(&second).unwrap();
    }
}

// X of joint 4's vector, where joints 2 and 3 together are at an angle.
#[tactic(auto, unfolding(crate::specs::BendSlices::fold))]
fn fold(z: Vector, angle: f64) -> Harmonic
    ensures { result ≡ Of.fold z angle }
{
    let a = sin_cos(angle);
    Harmonic {
        constant: -z.z * a.sine,
        cosine: z.x * a.cosine,
        sine: z.y * a.cosine,
    }
}

// Joint 2 at an angle: where that vector is as long as joint 5's bend makes it.
#[tactic(auto, unfolding(crate::specs::BendSlices::folds))]
fn folds(z: Vector, q3: f64, s5: f64, angle2: f64, out: &mut Angles)
    requires { array_vec_len out.old + 58 ≤ 300 }
    ensures items { Extends out.old (Of.folds z q3 s5 angle2) out.new }
    ensures most { array_vec_len out.new ≤ array_vec_len out.old + 58 }
{
    let x = fold(z, angle2 + q3);
    let y = across(z);
    let norm = vector_length(z) * abs(s5);
    norm_roots(x, y, norm, out);
}

#[tactic(auto, unfolding(crate::specs::BendSlices::folds_range))]
fn folds_range(z: Vector, q3: f64, s5: f64, range: Range, out: &mut Angles)
    requires { array_vec_len out.old + 116 ≤ 300 }
    ensures items { Extends out.old (Of.folds_range z q3 s5 range) out.new }
    ensures most { array_vec_len out.new ≤ array_vec_len out.old + 116 }
{
    if let Some((lower, upper)) = range {
        folds(z, q3, s5, lower, out);
        folds(z, q3, s5, upper, out);
    }
}

// One end of joint 5's limits.
#[tactic(auto, unfolding(crate::specs::BendSlices::bend_slice))]
fn bend_slice(t: &Folded, angle5: f64, out: &mut Angles)
    requires { array_vec_len out.old + 128 ≤ 300 }
    ensures items { Extends out.old (Of.bend_slice t.now.matrix t.now.q3 t.now.range2 t.now.range4 t.now.range6 angle5) out.new }
    ensures most { array_vec_len out.new ≤ array_vec_len out.old + 128 }
{
    let z = t.matrix.z;
    let q5 = sin_cos(angle5);
    transverses(z, q5.sine, t.range4, out);
    axes_range(t.matrix, q5, t.range6, out);
    folds_range(z, t.q3, q5.sine, t.range2, out);
}

// Critical slices of joint 1 where a cosine of joint 5 differs from that of a pole by less than the
// roundoff.
#[tactic(auto, unfolding(crate::specs::J1j2free::bends, crate::specs::BendSlices::bend_slices))]
pub(crate) fn bend_slices(t: &Folded) -> Angles
    ensures { result.items ≡ bends t.now }
{
    let mut out = ArrayVec::new();
    if let Some((lower, upper)) = t.range5 {
        bend_slice(t, lower, &mut out);
        bend_slice(t, upper, &mut out);
    }
    out
}
