// Polynomials with compensated coefficients, from src/singularity/j1j2free.rs.
ghost use Rattle.std.specs.Prelude.{◌≡◌, ◌≤◌, length, IfSome};
ghost use Rattle.std.specs.List.{list_all};
ghost use Rattle.polynomial.specs.Polynomial as Of;
ghost use Rattle.polynomial.specs.Promises.Inside.{finite_parts};

use crate::compensated::{Coefficients, Compensated};
use arrayvec::ArrayVec;
use float::number::abs;
use float::product_error::Halves;

// 128 * 2^-52 * 2^-52.
const ROUNDOFF: f64 = 6.310887241768095e-30;

// At most nine coefficients, lent, the constant term first.
#[derive(Clone, Copy)]
pub struct Polynomial<'a> {
    pub terms: &'a [Compensated],
    ghost few: { length terms.now ≤ 9 },
}

impl Polynomial<'_> {
    // The value at x, by compensated Horner arithmetic.
    #[tactic(auto, using(crate::proofs::polynomial::Horner::horner_steps), unfolding(crate::specs::Polynomial::evaluate, crate::specs::Polynomial::horner))]
    pub(crate) fn evaluate(self, x: f64) -> f64
        ensures { result ≡ Of.evaluate self.entry.terms.now x }
    {
        let halves = Halves::of(x);
        let mut sum = Compensated::from(0.0);
        for c in self.terms.iter().rev() {
            sum = sum.times_by(x, halves) + *c;
        }
        sum.value()
    }

    // The values at x, y and z, worked out side by side for speed, since one does not wait for another; none
    // where Dekker's halves do not serve. The tests stand between the products, so that these are not put into pairs.
    #[tactic(auto, using(crate::proofs::polynomial::Horner::horner_steps), unfolding(crate::specs::Polynomial::evaluate, crate::specs::Polynomial::horner))]
    pub(crate) fn evaluate_three(self, x: f64, y: f64, z: f64) -> Option<(f64, f64, f64)>
        ensures { IfSome result (λ v. v ≡ (Of.evaluate self.entry.terms.now x, Of.evaluate self.entry.terms.now y, Of.evaluate self.entry.terms.now z)) }
    {
        let at_x = Halves::of(x)?;
        let at_y = Halves::of(y)?;
        let at_z = Halves::of(z)?;
        let mut a = Compensated::from(0.0);
        let mut b = a;
        let mut d = a;
        for c in self.terms.iter().rev() {
            a = a.times_by_halves(at_x)? + *c;
            b = b.times_by_halves(at_y)? + *c;
            d = d.times_by_halves(at_z)? + *c;
        }
        Some((a.value(), b.value(), d.value()))
    }

    // The coefficients' magnitudes, added up as the value at x is.
    #[tactic(auto, unfolding(crate::specs::Polynomial::magnitudes))]
    fn magnitudes(self, x: f64) -> f64
        ensures { result ≡ Of.magnitudes self.entry.terms.now x }
    {
        let size = abs(x);
        let mut sum = 0.0;
        for c in self.terms.iter().rev() {
            sum = sum * size + abs(c.high) + abs(c.low);
        }
        sum
    }

    // Whether v, the value at x, fits a coefficient-scaled roundoff bound.
    #[tactic(auto, using(crate::proofs::Literals::literals), unfolding(crate::specs::Polynomial::value_near))]
    pub(crate) fn value_near(self, x: f64, v: f64) -> bool
        ensures { result ≡ Of.value_near self.entry.terms.now x v }
    {
        abs(v) <= ROUNDOFF * self.magnitudes(x)
    }

    // The coefficients without the zeros at the end.
    #[tactic(auto, using(crate::proofs::polynomial::Trim::trim_zero, crate::proofs::polynomial::Trim::trim_more), unfolding(crate::specs::Polynomial::trim))]
    pub(crate) fn trimmed(self) -> Self
        ensures { result.terms.now ≡ Of.trim self.entry.terms.now }
    {
        let mut left = self.terms;
        while let Some((last, front)) = left.split_last() {
            if !last.is_zero() {
                return Self { terms: left };
            }
            left = front;
        }
        Self { terms: left }
    }

    // Whether each part is finite.
    pub(crate) fn all_finite(self) -> bool
        ensures { result ≡ list_all finite_parts self.entry.terms.now }
    {
        self.terms.iter().all(|c| c.is_finite())
    }

    // The derivative.
    pub(crate) fn derivative(self) -> Coefficients
        ensures { result.items ≡ Of.derivative self.entry.terms.now }
    {
        let mut d = ArrayVec::new();
        for i in 1..self.terms.len() {
            d.push(self.terms[i] * Compensated::from(i as f64));
        }
        d
    }
}
