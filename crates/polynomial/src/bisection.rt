// Bisecting an interval until no float lies strictly inside. First by plain arithmetic, as long as that
// tells the sign at the middle. Then mostly two steps at a time: the values at the middle and at both
// middles that can come next are worked out side by side.
ghost use Rattle.std.specs.Prelude.{◌≡◌};
ghost use Rattle.polynomial.specs.Polynomial as Of;
ghost use Rattle.polynomial.specs.Roots as Roots;
ghost use Rattle.float.specs.Promises.Order.{Span};
ghost use Rattle.polynomial.specs.Promises.Inside as Inside;

use crate::bounds::Bounds;
use crate::plain::Tested;
use crate::polynomial::Polynomial;
use float::number::{is_sign_positive, middle};
use std::ops::ControlFlow;

// The half of an interval to go on in.
#[derive(Clone, Copy)]
pub enum Half {
    Upper,
    Lower,
}

// A step at the middle m of lo and hi, where the value is v: the result, or the half to go on in.
#[tactic(auto, unfolding(crate::specs::Promises::Inside::step_at))]
fn step_at(lo: f64, hi: f64, m: f64, v: f64, positive: bool) -> ControlFlow<f64, Half>
    ensures { result ≡ Inside.step_at lo hi m v positive }
{
    if m == lo {
        return ControlFlow::Break(m);
    }
    if m == hi {
        return ControlFlow::Break(m);
    }
    if v == 0.0 {
        return ControlFlow::Break(middle(m, m));
    }
    if is_sign_positive(v) == positive {
        return ControlFlow::Continue(Half::Upper);
    }
    ControlFlow::Continue(Half::Lower)
}

// What a step at the middle m of lo and hi, where the value is v, leaves: the result, or the ends of
// an interval to go on in. They are no `Bounds`: that they can be bisected is known for the middle alone.
#[tactic(auto, unfolding(crate::specs::Promises::Inside::narrowed_once))]
fn narrowed_once(lo: f64, hi: f64, m: f64, v: f64, positive: bool) -> ControlFlow<f64, (f64, f64)>
    ensures { result ≡ Inside.narrowed_once lo hi m v positive }
{
    match step_at(lo, hi, m, v, positive)? {
        Half::Upper => ControlFlow::Continue((m, hi)),
        Half::Lower => ControlFlow::Continue((lo, m)),
    }
}

impl Polynomial<'_> {
    // What a step leaves or, where the three values are known, two steps. The ends are no `Bounds` here and in
    // both loops: a step leaves a pair, of which one would be made at each turn.
    #[tactic(auto, using(crate::proofs::bisection::Steps::two_steps))]
    fn narrowed(self, lo: f64, hi: f64, positive: bool) -> ControlFlow<f64, (f64, f64)>
        requires { Span 2 lo hi }
        ensures { Inside.Leaves (Of.evaluate self.entry.terms.now) positive lo hi result }
    {
        let m = middle(lo, hi);
        let below = middle(lo, m);
        let above = middle(m, hi);
        let Some((u, v, w)) = self.evaluate_three(below, m, above) else {
            return narrowed_once(lo, hi, m, self.evaluate(m), positive);
        };
        match step_at(lo, hi, m, v, positive)? {
            Half::Upper => narrowed_once(m, hi, above, w, positive),
            Half::Lower => narrowed_once(lo, m, below, u, positive),
        }
    }

    // Bisects the interval, by compensated values, until no float lies strictly inside.
    fn finely(self, from: f64, to: f64, positive: bool) -> f64
        requires { Span 2 from to }
        ensures { result ≡ Roots.bisected (Of.evaluate self.entry.terms.now) positive from to }
    {
        let mut lo = from;
        let mut hi = to;
        loop {
            match self.narrowed(lo, hi, positive) {
                ControlFlow::Break(x) => return x,
                ControlFlow::Continue(left) => (lo, hi) = left,
            }
        }
    }
}

impl Tested<'_> {
    // Bisects the interval while plain arithmetic tells the sign at the middle.
    fn roughly(self, from: f64, to: f64, positive: bool) -> ControlFlow<f64, (f64, f64)>
        requires { Span 2 from to }
        ensures { Inside.Rest (Of.evaluate self.entry.p.terms.now) positive from to result }
    {
        let mut lo = from;
        let mut hi = to;
        loop {
            let m = middle(lo, hi);
            let Some(sign) = self.plain_sign(m) else {
                return ControlFlow::Continue((lo, hi));
            };
            (lo, hi) = narrowed_once(lo, hi, m, sign, positive)?;
        }
    }

    // Bisects the interval until no float lies strictly inside; the value at its lower end is positive
    // where `positive` says so.
    pub(crate) fn bisect(self, at: Bounds, positive: bool) -> f64
        ensures { result ≡ Roots.bisected (Of.evaluate self.entry.p.terms.now) positive at.lower at.upper }
    {
        match self.roughly(at.lower, at.upper, positive) {
            ControlFlow::Break(x) => x,
            ControlFlow::Continue((lo, hi)) => self.p.finely(lo, hi, positive),
        }
    }
}
