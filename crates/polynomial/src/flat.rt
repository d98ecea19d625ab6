// The coefficients of a lent slice of floats: C lends floats.
ghost use Rattle.std.specs.Prelude.{◌≡◌, ◌+◌, ◌≤◌, length};
ghost use Rattle.polynomial.specs.Operation.{pairs};

use crate::compensated::{Coefficients, Compensated};
use arrayvec::ArrayVec;

// The pairs of at most 18 floats.
#[tactic(auto, unfolding(crate::specs::Operation::pairs))]
pub(crate) fn coefficients(s: &[f64]) -> Coefficients
    requires { length s.now ≤ 18 }
    ensures { result.items ≡ pairs s.now }
{
    let mut p = ArrayVec::new();
    let mut left = s;
    while let [high, low, rest @ ..] = left {
        p.push(Compensated {
            high: *high,
            low: *low,
        });
        left = rest;
    }
    p
}
