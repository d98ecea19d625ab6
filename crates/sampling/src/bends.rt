// The boundary angles of joint 5, and all boundary angles in order, from src/singularity/continuum.rs.
ghost use Rattle.std.specs.Prelude.{◌≡◌, ◌+◌, ◌≤◌};
ghost use Rattle.polynomial.specs.Curve.{squared_norm_roots};
ghost use Rattle.arrayvec.specs.ArrayVec.{array_vec_len, Extends};
ghost use Rattle.sampling.specs.SampleAngles.{roots};
ghost use Rattle.sampling.specs.Bends as Of;

use crate::angles::Angles;
use crate::continuum::Trig;
use crate::intervals::Range;
use crate::marks::Marks;
use crate::polar::Polar;
use crate::rays::{poles, ray_angles, roots_at, sixth_angles};
use crate::sample_angles::Free;
use crate::wrist::Ray;
use arrayvec::ArrayVec;
use float::number::{abs, is_finite};
use float::trig::sin_cos;
use polynomial::curve::Harmonic;
use polynomial::norm::squared_norm_roots;

// Roots of x(angle)^2 + y(angle)^2 = norm^2.
pub(crate) fn norm_roots(x: Harmonic, y: Harmonic, norm: f64, out: &mut Angles)
    requires { array_vec_len out.old + 58 ≤ 300 }
    ensures items { Extends out.old (squared_norm_roots x y norm) out.new }
    ensures most { array_vec_len out.new ≤ array_vec_len out.old + 58 }
{
    let mut found = [0.0; 58];
    let n = squared_norm_roots(x, y, norm, &mut found);
    out.try_extend_from_slice(&found[..n]).unwrap();
}

impl From<Trig> for Harmonic {
    ghost from_gives = { λ t h. h ≡ Of.harmonic t };

    #[tactic(auto, unfolding(crate::specs::Bends::harmonic))]
    fn from(t: Trig) -> Harmonic {
        Harmonic {
            constant: t.constant,
            cosine: t.cosine,
            sine: t.sine,
        }
    }
}

// Whether a bend of joint 5, by its sine, is close to a pole, not at it: its cosine hardly changes there.
#[tactic(auto, unfolding(crate::specs::Bends::narrow, crate::proofs::Literals::of_bits, crate::proofs::Literals::round))]
fn narrow(sine: f64) -> bool
    ensures { result ≡ Of.narrow sine }
{
    (0.0 < sine) & (sine < 1.0e-4)
}

// Where joint 5 is bent by an angle; narrow ranges near the poles are kept. Cosine and ray go side by
// side here and below: the ray is the wrist's, and a struct of both would hold a copy of it, or a loan.
#[tactic(auto, unfolding(crate::specs::Bends::bend_roots))]
fn bend_roots(cos5: &Polar, q4: &Ray, angle: f64, out: &mut Angles)
    requires { array_vec_len out.old + 60 ≤ 300 }
    ensures items { Extends out.old (Of.bend_roots cos5.now.harmonic q4.now angle) out.new }
    ensures most { array_vec_len out.new ≤ array_vec_len out.old + 60 }
{
    let a = sin_cos(angle);
    roots_at(cos5, a.cosine, out);
    let sine = abs(a.sine);
    if narrow(sine) {
        norm_roots(Harmonic::from(q4.x), Harmonic::from(q4.y), sine, out);
    }
}

// An angle counts if it is finite.
#[tactic(auto, unfolding(crate::specs::Bends::bend_at))]
fn bend_at(cos5: &Polar, q4: &Ray, angle: f64, out: &mut Angles)
    requires { array_vec_len out.old + 60 ≤ 300 }
    ensures items { Extends out.old (Of.bend_at cos5.now.harmonic q4.now angle) out.new }
    ensures most { array_vec_len out.new ≤ array_vec_len out.old + 60 }
{
    if is_finite(angle) {
        bend_roots(cos5, q4, angle, out);
    }
}

#[tactic(auto, unfolding(crate::specs::Bends::bend_range))]
fn bend_range(cos5: &Polar, q4: &Ray, range: Range, out: &mut Angles)
    requires { array_vec_len out.old + 120 ≤ 300 }
    ensures items { Extends out.old (Of.bend_range cos5.now.harmonic q4.now range) out.new }
    ensures most { array_vec_len out.new ≤ array_vec_len out.old + 120 }
{
    if let Some((lower, upper)) = range {
        bend_at(cos5, q4, lower, out);
        bend_at(cos5, q4, upper, out);
    }
}

// The reference and, with limits, their centre and ends.
#[tactic(auto, unfolding(crate::specs::Bends::bend_marks))]
fn bend_marks(cos5: &Polar, q4: &Ray, marks: &Marks, out: &mut Angles)
    requires { array_vec_len out.old + 240 ≤ 300 }
    ensures items { Extends out.old (Of.bend_marks cos5.now.harmonic q4.now marks.now) out.new }
    ensures most { array_vec_len out.new ≤ array_vec_len out.old + 240 }
{
    bend_at(cos5, q4, marks.reference, out);
    if let Some(limits) = marks.limits {
        bend_at(cos5, q4, limits.center, out);
        bend_range(cos5, q4, limits.range, out);
    }
}

// All boundary angles of a free joint.
#[tactic(auto, unfolding(crate::specs::SampleAngles::roots, crate::specs::Bends::all_roots))]
pub(crate) fn all_roots(f: &Free) -> Angles
    ensures { result.items ≡ roots f.now }
{
    let mut out = ArrayVec::new();
    let w = &f.wrist;
    let cos5 = Polar::new(w.cos5);
    out.push(f.near);
    poles(&cos5, &mut out);
    ray_angles(&w.q4, &f.fourth, &mut out);
    bend_marks(&cos5, &w.q4, &f.fifth, &mut out);
    sixth_angles(w, &f.fourth, &f.sixth, &mut out);
    out.push(f.limits.center);
    out
}
