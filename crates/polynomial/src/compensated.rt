// Compensated numbers, from src/singularity/j1j2free.rs: a rounded value and its residual rounding
// error, by value.
ghost use Rattle.std.specs.Prelude.{◌≡◌, IfSome};
ghost use Rattle.float.specs.ProductError as ProductError;
ghost use Rattle.polynomial.specs.Compensated as Of;
ghost use Rattle.polynomial.specs.Promises.Inside.{finite_parts};

use arrayvec::ArrayVec;
use float::number::is_finite;
use float::product_error::{Halves, error_by_halves, product_error};
use std::ops::{Add, Mul};

#[derive(Clone, Copy, Default)]
pub struct Compensated {
    pub high: f64,
    pub low: f64,
}

// The coefficients of a polynomial: at most nine, the constant term first.
pub type Coefficients = ArrayVec<Compensated, 9>;

// A float with a residual of zero.
impl From<f64> for Compensated {
    ghost from_gives = { λ x r. r ≡ Of.from x };

    fn from(high: f64) -> Self {
        Self { high, low: 0.0 }
    }
}

// Adds both components and retains the rounding error.
impl Add for Compensated {
    type Output = Compensated;

    ghost add_gives = { λ a b r. r ≡ Of.plus a b };

    #[tactic(auto, unfolding(crate::specs::Compensated::plus))]
    fn add(self, other: Compensated) -> Compensated {
        let sum = self.high + other.high;
        let virtual_other = sum - self.high;
        Compensated::rounded(
            sum,
            (self.high - (sum - virtual_other))
                + (other.high - virtual_other)
                + self.low
                + other.low,
        )
    }
}

// Multiplies both components and retains the rounding error.
impl Mul for Compensated {
    type Output = Compensated;

    ghost mul_gives = { λ a b r. r ≡ Of.times a b };

    fn mul(self, other: Compensated) -> Compensated {
        self.product(other, product_error(self.high, other.high))
    }
}

impl Compensated {
    // The product with a float, where Dekker's halves serve both it and the high part.
    pub(crate) fn times_by_halves(self, x: Halves) -> Option<Self>
        ensures { IfSome result (λ r. r ≡ Of.times self (Of.from x.whole)) }
    {
        let error = error_by_halves(self.high, x)?;
        Some(self.product(Compensated::from(x.whole), error))
    }

    // The product with a float whose halves, where they serve, are at hand.
    pub(crate) fn times_by(self, x: f64, halves: Option<Halves>) -> Self
        requires { IfSome halves (λ h. h.whole ≡ x) }
        ensures { result ≡ Of.times self (Of.from x) }
    {
        if let Some(h) = halves {
            if let Some(product) = self.times_by_halves(h) {
                return product;
            }
        }
        self * Compensated::from(x)
    }

    // The product, by the error of the product of the high parts.
    #[tactic(auto, unfolding(crate::specs::Compensated::times))]
    fn product(self, other: Compensated, error: f64) -> Self
        requires { error ≡ ProductError.product_error self.high other.high }
        ensures { result ≡ Of.times self other }
    {
        let product = self.high * other.high;
        Compensated::rounded(
            product,
            error + self.high * other.low + self.low * other.high + self.low * other.low,
        )
    }

    // A sum and its error, as a rounded value and what is left of the error.
    fn rounded(sum: f64, error: f64) -> Self
        ensures { result ≡ Of.rounded sum error }
    {
        let high = sum + error;
        Self {
            high,
            low: error - (high - sum),
        }
    }

    // Both components rounded to one float.
    pub(crate) fn value(self) -> f64
        ensures { result ≡ Of.value self }
    {
        self.high + self.low
    }

    // Whether both components are finite.
    pub(crate) fn is_finite(self) -> bool
        ensures { result ≡ finite_parts self }
    {
        is_finite(self.high) && is_finite(self.low)
    }

    // Whether both components are zero.
    pub(crate) fn is_zero(self) -> bool
        ensures { result ≡ Of.is_zero self }
    {
        self.high == 0.0 && self.low == 0.0
    }
}
