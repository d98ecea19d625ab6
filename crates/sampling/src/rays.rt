// The boundary angles of joints 4 and 6, from src/singularity/continuum.rs. Those of a ray are
// deferred, and then worked out together.
ghost use Rattle.std.specs.Prelude.{◌≡◌, ◌+◌, ◌≤◌, ◌<◌};
ghost use Rattle.arrayvec.specs.ArrayVec.{array_vec_len, Extends};
ghost use Rattle.sampling.specs.Promises.Deferred.{Defers};
ghost use Rattle.sampling.specs.Continuum as Continuum;
ghost use Rattle.sampling.specs.Rays as Of;

use crate::angles::Angles;
use crate::continuum::line;
use crate::deferred::{Deferred, angles_of, defer};
use crate::intervals::Range;
use crate::marks::Marks;
use crate::polar::Polar;
use crate::wrist::{Ray, Wrist};
use arrayvec::ArrayVec;
use float::number::is_finite;

// Angles where the harmonic equals the target.
#[tactic(auto, unfolding(crate::specs::Continuum::roots))]
pub(crate) fn roots_at(t: &Polar, target: f64, out: &mut Angles)
    requires { array_vec_len out.old + 2 ≤ 300 }
    ensures items { Extends out.old (Continuum.roots t.now.harmonic target) out.new }
    ensures most { array_vec_len out.new ≤ array_vec_len out.old + 2 }
{
    if let Some((first, second)) = t.crossings(target) {
        out.push(first);
        out.push(second);
    }
}

#[tactic(auto, unfolding(crate::specs::Rays::poles, crate::proofs::Literals::of_bits))]
pub(crate) fn poles(cos5: &Polar, out: &mut Angles)
    requires { array_vec_len out.old + 4 ≤ 300 }
    ensures items { Extends out.old (Of.poles cos5.now.harmonic) out.new }
    ensures most { array_vec_len out.new ≤ array_vec_len out.old + 4 }
{
    roots_at(cos5, 1.0, out);
    roots_at(cos5, -1.0, out);
}

// Asks for the angles where the vector lies on the boundary line of an angle. Ray and list go side by
// side here and below: three rays of a wrist add to one list.
#[tactic(auto, unfolding(crate::specs::Continuum::ray_roots, crate::proofs::Literals::of_bits))]
fn ray_roots(ray: &Ray, angle: f64, deferred: &mut Deferred)
    requires { array_vec_len deferred.old < 14 }
    ensures items { Defers deferred.old (Continuum.ray_roots ray.now.x ray.now.y angle) deferred.new }
    ensures most { array_vec_len deferred.new ≤ array_vec_len deferred.old + 1 }
{
    defer(line(ray.x, ray.y, angle), 0.0, deferred);
}

// An angle counts if it is finite.
#[tactic(auto, unfolding(crate::specs::Rays::ray_at))]
fn ray_at(ray: &Ray, angle: f64, deferred: &mut Deferred)
    requires { array_vec_len deferred.old < 14 }
    ensures items { Defers deferred.old (Of.ray_at ray.now angle) deferred.new }
    ensures most { array_vec_len deferred.new ≤ array_vec_len deferred.old + 1 }
{
    if is_finite(angle) {
        ray_roots(ray, angle, deferred);
    }
}

// Both calls are written out, as in `bend_range`, `transverse_range`, `axes_range`, `folds_range` and
// `bend_slices`: a closure that adds to a list owes it room at each, by clauses longer than these,
// and one that gives a list of its own got no proof, since its bound names the list's size.
#[tactic(auto, unfolding(crate::specs::Rays::ray_range))]
fn ray_range(ray: &Ray, range: Range, deferred: &mut Deferred)
    requires { array_vec_len deferred.old + 2 ≤ 14 }
    ensures items { Defers deferred.old (Of.ray_range ray.now range) deferred.new }
    ensures most { array_vec_len deferred.new ≤ array_vec_len deferred.old + 2 }
{
    if let Some((lower, upper)) = range {
        ray_at(ray, lower, deferred);
        ray_at(ray, upper, deferred);
    }
}

// The reference and, with limits, their centre and ends. `bend_marks` has the same shape, over a
// list of another type with other room: one function for both would take a closure, as above.
#[tactic(auto, unfolding(crate::specs::Rays::ray_marks))]
fn ray_marks(ray: &Ray, marks: &Marks, deferred: &mut Deferred)
    requires { array_vec_len deferred.old + 4 ≤ 14 }
    ensures items { Defers deferred.old (Of.ray_marks ray.now marks.now) deferred.new }
    ensures most { array_vec_len deferred.new ≤ array_vec_len deferred.old + 4 }
{
    ray_at(ray, marks.reference, deferred);
    if let Some(limits) = marks.limits {
        ray_at(ray, limits.center, deferred);
        ray_range(ray, limits.range, deferred);
    }
}

// An angle of joint 4 with one of joint 6, at a pole.
#[tactic(auto, unfolding(crate::specs::Rays::corner))]
fn corner(ray: &Ray, sign: f64, a: f64, b: f64, deferred: &mut Deferred)
    requires { array_vec_len deferred.old < 14 }
    ensures items { Defers deferred.old (Of.corner ray.now sign a b) deferred.new }
    ensures most { array_vec_len deferred.new ≤ array_vec_len deferred.old + 1 }
{
    ray_roots(ray, a + sign * b, deferred);
}

// Each end of joint 4's limits with each of joint 6's.
#[tactic(auto, unfolding(crate::specs::Rays::corners))]
fn corners(ray: &Ray, sign: f64, fourth: Range, sixth: Range, deferred: &mut Deferred)
    requires { array_vec_len deferred.old + 4 ≤ 14 }
    ensures items { Defers deferred.old (Of.corners ray.now sign fourth sixth) deferred.new }
    ensures most { array_vec_len deferred.new ≤ array_vec_len deferred.old + 4 }
{
    if let (Some((a, b)), Some((c, d))) = (fourth, sixth) {
        corner(ray, sign, a, c, deferred);
        corner(ray, sign, a, d, deferred);
        corner(ray, sign, b, c, deferred);
        corner(ray, sign, b, d, deferred);
    }
}

// The marks of joints 4 and 6 go side by side: joint 6's are an Option further up, and those of both are
// ranges in `corners`, so a pair would be of three types.
#[tactic(auto, unfolding(crate::specs::Rays::phase_roots))]
fn phase_roots(ray: &Ray, sign: f64, fourth: &Marks, sixth: &Marks, deferred: &mut Deferred)
    requires { array_vec_len deferred.old + 5 ≤ 14 }
    ensures items { Defers deferred.old (Of.phase_roots ray.now sign fourth.now sixth.now) deferred.new }
    ensures most { array_vec_len deferred.new ≤ array_vec_len deferred.old + 5 }
{
    corner(ray, sign, fourth.reference, sixth.reference, deferred);
    corners(ray, sign, fourth.range(), sixth.range(), deferred);
}

#[tactic(auto, unfolding(crate::specs::Rays::phases, crate::proofs::Literals::of_bits))]
fn phases(w: &Wrist, fourth: &Marks, sixth: &Marks, deferred: &mut Deferred)
    requires { array_vec_len deferred.old + 10 ≤ 14 }
    ensures items { Defers deferred.old (Of.phases w.now fourth.now sixth.now) deferred.new }
    ensures most { array_vec_len deferred.new ≤ array_vec_len deferred.old + 10 }
{
    phase_roots(&w.sum, 1.0, fourth, sixth, deferred);
    phase_roots(&w.difference, -1.0, fourth, sixth, deferred);
}

// Joint 6, if it is not fixed.
#[tactic(auto, unfolding(crate::specs::Rays::sixth_roots))]
fn sixth_roots(w: &Wrist, fourth: &Marks, sixth: &Option<Marks>, deferred: &mut Deferred)
    requires { array_vec_len deferred.old + 14 ≤ 14 }
    ensures items { Defers deferred.old (Of.sixth_roots w.now fourth.now sixth.now) deferred.new }
    ensures most { array_vec_len deferred.new ≤ array_vec_len deferred.old + 14 }
{
    if let Some(marks) = sixth {
        ray_marks(&w.q6, marks, deferred);
        phases(w, fourth, marks, deferred);
    }
}

// The angles at which a ray meets a joint's marks, worked out together.
pub(crate) fn ray_angles(ray: &Ray, marks: &Marks, out: &mut Angles)
    requires { array_vec_len out.old + 8 ≤ 300 }
    ensures items { Extends out.old (Of.ray_marks ray.now marks.now) out.new }
    ensures most { array_vec_len out.new ≤ array_vec_len out.old + 8 }
{
    let mut deferred = ArrayVec::new();
    ray_marks(ray, marks, &mut deferred);
    angles_of(&deferred, out);
}

// The angles at which joint 6, or its sum or difference with joint 4, meets their marks.
pub(crate) fn sixth_angles(w: &Wrist, fourth: &Marks, sixth: &Option<Marks>, out: &mut Angles)
    requires { array_vec_len out.old + 28 ≤ 300 }
    ensures items { Extends out.old (Of.sixth_roots w.now fourth.now sixth.now) out.new }
    ensures most { array_vec_len out.new ≤ array_vec_len out.old + 28 }
{
    let mut deferred = ArrayVec::new();
    sixth_roots(w, fourth, sixth, &mut deferred);
    angles_of(&deferred, out);
}
