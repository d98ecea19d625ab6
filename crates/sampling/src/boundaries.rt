// The boundary curves of two free joints, from src/singularity/j1j2free.rs.
ghost use Rattle.std.specs.Prelude.{◌≡◌, ◌+◌, ◌≤◌};
ghost use Rattle.arrayvec.specs.ArrayVec.{array_vec_len, Extends};
ghost use Rattle.sampling.specs.J1j2free.{curves};
ghost use Rattle.sampling.specs.Promises.Curves.{AtEnds};
ghost use Rattle.sampling.specs.Boundaries as Of;

use crate::intervals::Range;
use crate::j1j2free::Folded;
use crate::job::Joint;
use crate::limits::{centered, limits_of};
use crate::pose::{Matrix, Vector};
use arrayvec::ArrayVec;
use float::trig::{P, sin_cos};
use polynomial::curve::{Curve, Harmonic};

// The most boundary curves.
pub(crate) const CURVES: usize = 18;

pub(crate) type Curves = ArrayVec<Curve, CURVES>;

// A harmonic that is a constant.
#[tactic(auto, unfolding(crate::specs::Boundaries::level, crate::proofs::Literals::of_bits))]
fn level(x: f64) -> Harmonic
    ensures { result ≡ Of.level x }
{
    Harmonic {
        constant: x,
        cosine: 0.0,
        sine: 0.0,
    }
}

// 0, x, y of a column.
#[tactic(auto, unfolding(crate::specs::Boundaries::along, crate::proofs::Literals::of_bits))]
fn along(v: Vector) -> Harmonic
    ensures { result ≡ Of.along v }
{
    Harmonic {
        constant: 0.0,
        cosine: v.x,
        sine: v.y,
    }
}

// 0, y, -x of a column.
#[tactic(auto, unfolding(crate::specs::Boundaries::across, crate::proofs::Literals::of_bits))]
pub(crate) fn across(v: Vector) -> Harmonic
    ensures { result ≡ Of.across v }
{
    Harmonic {
        constant: 0.0,
        cosine: v.y,
        sine: -v.x,
    }
}

// A(q1) cos(t) + B(q1) sin(t) + C(q1) = 0.
#[tactic(auto, unfolding(crate::specs::Boundaries::curve))]
fn curve_of(a: Harmonic, b: Harmonic, c: Harmonic) -> Curve
    ensures { result ≡ Of.curve a b c }
{
    Curve {
        a0: a.constant,
        a1: a.cosine,
        a2: a.sine,
        b0: b.constant,
        b1: b.cosine,
        b2: b.sine,
        c0: c.constant,
        c1: c.cosine,
        c2: c.sine,
    }
}

#[tactic(auto, unfolding(crate::specs::Boundaries::second_curve, crate::proofs::Literals::of_bits))]
fn second_curve(q3: f64, angle: f64) -> Curve
    ensures { result ≡ Of.second_curve q3 angle }
{
    let t = sin_cos(angle + q3);
    let a = level(-t.sine);
    let b = level(t.cosine);
    let c = level(0.0);
    curve_of(a, b, c)
}

// The curve along which the cosine of joint 5 has a value.
#[tactic(auto, unfolding(crate::specs::Boundaries::bend_curve))]
fn bend_curve(z: Vector, cosine: f64) -> Curve
    ensures { result ≡ Of.bend_curve z cosine }
{
    let a = level(z.z);
    let b = along(z);
    let c = level(-cosine);
    curve_of(a, b, c)
}

#[tactic(auto, unfolding(crate::specs::Boundaries::fourth_curve))]
fn fourth_curve(z: Vector, angle: f64) -> Curve
    ensures { result ≡ Of.fourth_curve z angle }
{
    let t = sin_cos(angle);
    let a = along(z) * -t.sine;
    let b = level(z.z * t.sine);
    let c = across(z) * t.cosine;
    curve_of(a, b, c)
}

#[tactic(auto, unfolding(crate::specs::Boundaries::fifth_curve))]
fn fifth_curve(z: Vector, angle: f64) -> Curve
    ensures { result ≡ Of.fifth_curve z angle }
{
    let t = sin_cos(angle);
    bend_curve(z, t.cosine)
}

#[tactic(auto, unfolding(crate::specs::Boundaries::sixth_curve, crate::proofs::Literals::of_bits))]
fn sixth_curve(m: Matrix, angle: f64) -> Curve
    ensures { result ≡ Of.sixth_curve m angle }
{
    let t = sin_cos(angle);
    let a = level(m.y.z * t.cosine + m.x.z * t.sine);
    let b = along(m.y) * t.cosine + along(m.x) * t.sine;
    let c = level(0.0);
    curve_of(a, b, c)
}

// At a pole, an angle of joint 4 with one of joint 6.
#[tactic(auto, unfolding(crate::specs::Boundaries::corner_curve))]
fn corner_curve(m: Matrix, sign: f64, q4: f64, q6: f64) -> Curve
    ensures { result ≡ Of.corner_curve m sign q4 q6 }
{
    let t = sin_cos(q4 + sign * q6);
    let a = along(m.y) * -t.cosine + along(m.x) * (-sign * t.sine);
    let b = level(m.y.z * t.cosine + sign * m.x.z * t.sine);
    let c = across(m.x) * (sign * t.cosine) + across(m.y) * -t.sine;
    curve_of(a, b, c)
}

// The limits of a wrist joint, where they are present and leave a part of the turn out.
#[tactic(auto, unfolding(crate::specs::Boundaries::wrist_limits, crate::proofs::Literals::of_bits))]
pub(crate) fn wrist_limits(limited: bool, j: Joint) -> Range
    ensures { result ≡ Of.wrist_limits limited j }
{
    let c = centered(limited, j);
    if !limited | (P <= c.tolerance) {
        return None;
    }
    limits_of(c, j)
}

// The curves of both ends of a range. Here a function is told its room, as the lists of `angles` and
// `deferred` are: that is a fact of each call, which no type of the list has.
fn at_ends<F: Fn(f64) -> Curve>(range: Range, curve: F, out: &mut Curves)
    requires callable { F.IsAlwaysCallable curve }
    requires room { array_vec_len out.old + 2 ≤ CURVES }
    ensures items { AtEnds (F.post curve) range out.old.items out.new.items }
    ensures most { array_vec_len out.new ≤ array_vec_len out.old + 2 }
{
    if let Some((lower, upper)) = range {
        out.push(curve(lower));
        out.push(curve(upper));
    }
}

// Each end of joint 4's limits with each of joint 6's.
#[tactic(auto, unfolding(crate::specs::Boundaries::signed_corners))]
fn signed_corners(m: Matrix, sign: f64, fourth: (f64, f64), sixth: (f64, f64)) -> [Curve; 4]
    ensures { result ≡ Of.signed_corners m sign fourth.0 fourth.1 sixth.0 sixth.1 }
{
    let (a, b) = fourth;
    let (c, d) = sixth;
    [
        corner_curve(m, sign, a, c),
        corner_curve(m, sign, a, d),
        corner_curve(m, sign, b, c),
        corner_curve(m, sign, b, d),
    ]
}

#[tactic(auto, unfolding(crate::specs::Boundaries::corner_curves, crate::proofs::Literals::of_bits))]
fn corner_curves(m: Matrix, range4: Range, range6: Range, out: &mut Curves)
    requires { array_vec_len out.old + 8 ≤ CURVES }
    ensures items { Extends out.old (Of.corner_curves m range4 range6) out.new }
    ensures most { array_vec_len out.new ≤ array_vec_len out.old + 8 }
{
    if let (Some(fourth), Some(sixth)) = (range4, range6) {
        out.try_extend_from_slice(&signed_corners(m, -1.0, fourth, sixth))
            .unwrap();
        out.try_extend_from_slice(&signed_corners(m, 1.0, fourth, sixth))
            .unwrap();
    }
}

// Joint 2's interval, the poles, the wrist limits and the phases at a pole.
#[tactic(auto, unfolding(crate::specs::J1j2free::curves, crate::specs::Boundaries::boundaries))]
pub(crate) fn boundaries(t: &Folded) -> Curves
    ensures { result.items ≡ curves t.now }
{
    let m = t.matrix;
    let poles = Some((-1.0, 1.0));
    let mut out = ArrayVec::new();
    at_ends(t.range2, |angle| second_curve(t.q3, angle), &mut out);
    at_ends(poles, |cosine| bend_curve(m.z, cosine), &mut out);
    at_ends(t.range4, |angle| fourth_curve(m.z, angle), &mut out);
    at_ends(t.range5, |angle| fifth_curve(m.z, angle), &mut out);
    at_ends(t.range6, |angle| sixth_curve(m, angle), &mut out);
    corner_curves(m, t.range4, t.range6, &mut out);
    out
}
