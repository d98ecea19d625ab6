// Crossings that are deferred and worked out later, two at a time: what is worked out of one
// does not wait for the other.
ghost use Rattle.std.specs.Prelude.{◌≡◌, ◌++◌, ◌+◌, ◌*◌, ◌≤◌, ◌<◌, length};
ghost use Rattle.std.specs.List.{flat_map};
ghost use Rattle.arrayvec.specs.ArrayVec.{array_vec_len, Extends};
ghost use Rattle.sampling.specs.Continuum as Continuum;
ghost use Rattle.sampling.specs.Promises.Deferred as Of;

use crate::angles::Angles;
use crate::continuum::Trig;
use arrayvec::ArrayVec;
use float::arc::{acos, atan2, atan2_four, other_side};
use float::number::clamp;
use float::trig::hypot;
use polynomial::angle::wrapped_angle;

// The most crossings that are deferred together: joint 6's, and those of its phases with joint 4.
pub(crate) const CROSSINGS: usize = 14;

// Its room is asked for as that of `Angles` is: an Option from each would be pushed in ten places.
pub(crate) type Deferred = ArrayVec<Pending, CROSSINGS>;

// A polynomial's sine and cosine, and the cosine of the angle between its phase and a crossing.
#[derive(Clone, Copy, Default)]
pub struct Pending {
    pub sine: f64,
    pub cosine: f64,
    pub ratio: f64,
}

// Defers where the polynomial equals the target. What is needed is written in any case, and counted where
// there is an answer: nothing that is written waits for the test.
pub(crate) fn defer(t: Trig, target: f64, deferred: &mut Deferred)
    requires { array_vec_len deferred.old < CROSSINGS }
    ensures items { Of.Defers deferred.old (Continuum.roots t target) deferred.new }
    ensures most { array_vec_len deferred.new ≤ array_vec_len deferred.old + 1 }
{
    let radius = hypot(t.cosine, t.sine);
    let ratio = clamp(-(t.constant - target) / radius);
    deferred.push(Pending {
        sine: t.sine,
        cosine: t.cosine,
        ratio,
    });
    if !t.meets(radius, target) {
        deferred.pop();
    }
}

// The two angles of a deferred crossing.
#[tactic(auto, unfolding(crate::specs::Promises::Deferred::angles_of))]
fn angles_of_one(p: Pending) -> [f64; 2]
    ensures { result ≡ Of.angles_of p }
{
    let phase = atan2(p.sine, p.cosine);
    let offset = acos(p.ratio);
    [wrapped_angle(phase - offset), wrapped_angle(phase + offset)]
}

// The four angles of two deferred crossings.
#[tactic(auto, unfolding(crate::specs::Promises::Deferred::angles_of, float::specs::Trig::acos))]
fn angles_of_two(p: Pending, q: Pending) -> [f64; 4]
    ensures { result ≡ Of.angles_of p ++ Of.angles_of q }
{
    let y = [p.sine, other_side(p.ratio), q.sine, other_side(q.ratio)];
    let x = [p.cosine, p.ratio, q.cosine, q.ratio];
    let [a, b, c, d] = atan2_four(y, x);
    [
        wrapped_angle(a - b),
        wrapped_angle(a + b),
        wrapped_angle(c - d),
        wrapped_angle(c + d),
    ]
}

// The angles of all deferred crossings.
pub(crate) fn angles_of(deferred: &[Pending], out: &mut Angles)
    requires { array_vec_len out.old + 2 * length deferred.now ≤ 300 }
    ensures items { Extends out.old (flat_map Of.angles_of deferred.now) out.new }
    ensures len { array_vec_len out.new ≡ array_vec_len out.old + 2 * length deferred.now }
{
    let mut left = deferred;
    while let [p, q, rest @ ..] = left {
        out.try_extend_from_slice(&angles_of_two(*p, *q)).unwrap();
        left = rest;
    }
    if let [p] = left {
        out.try_extend_from_slice(&angles_of_one(*p)).unwrap();
    }
}
