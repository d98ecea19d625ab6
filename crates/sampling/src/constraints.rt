// The centre and the tolerance of a joint's limits, from src/constraints.rs.
ghost use Rattle.std.specs.Prelude.{◌≡◌};
ghost use Rattle.sampling.specs.Constraints as Constraints;

use float::number::{is_finite, rem_euclid};
use float::trig::TWO_PI;

#[derive(Clone, Copy)]
pub struct Center {
    pub center: f64,
    pub tolerance: f64,
}

// The forward arc from a to b.
#[tactic(auto, unfolding(crate::proofs::Literals::of_bits))]
fn arc(a: f64, b: f64) -> f64
    ensures { result ≡ Constraints.arc a b }
{
    let end = rem_euclid(b, TWO_PI);
    let start = rem_euclid(a, TWO_PI);
    rem_euclid(end - start, TWO_PI)
}

// The centre and the tolerance of the limits from a to b. A NaN centre stands for limits that are not
// finite, and no Option: the definition has it so, and every test on it is false, as in the Rust.
#[tactic(auto, unfolding(crate::specs::Constraints::compute_center, crate::proofs::Literals::of_bits, crate::proofs::Literals::div))]
pub fn compute_center(a: f64, b: f64) -> Center
    ensures { result ≡ Constraints.compute_center a b }
{
    if !is_finite(a) | !is_finite(b) {
        return Center {
            center: f64::NAN,
            tolerance: f64::NAN,
        };
    }
    if a == b {
        return Center {
            center: 0.0,
            tolerance: f64::INFINITY,
        };
    }
    if a < b {
        return Center {
            center: (a + b) / 2.0,
            tolerance: (b - a) / 2.0,
        };
    }
    let span = arc(a, b);
    Center {
        center: a + span / 2.0,
        tolerance: span / 2.0,
    }
}
