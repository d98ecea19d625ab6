// Allowed displacements of a joint from a reference, from src/kinematics_impl.rs.
ghost use Rattle.std.specs.Prelude.{◌≡◌};
ghost use Rattle.sampling.specs.Intervals as Of;

use crate::constraints::Center;
use float::number::{is_finite, maximum, minimum};
use float::trig::{P, TWO_PI};
use polynomial::angle::wrapped_angle;

// A limit interval: none, or a pair of angles, as the Rust yields them.
pub type Range = Option<(f64, f64)>;

// Allowed displacements: the range shifted by a turn down, as it is, and by a turn up. Fields and no
// array: code and theorems take up each of the three in its own place, and no loop goes over them.
#[derive(Clone, Copy)]
pub struct Intervals {
    pub first: Range,
    pub second: Range,
    pub third: Range,
}

// The centre seen from the reference; a tolerance of P or more is the whole turn.
#[tactic(auto, unfolding(crate::specs::Intervals::seen, crate::proofs::Literals::of_bits))]
fn seen(c: Center, reference: f64, sign: f64) -> Center
    ensures { result ≡ Of.seen c reference sign }
{
    if P <= c.tolerance {
        return Center {
            center: 0.0,
            tolerance: P,
        };
    }
    let center = wrapped_angle(sign * (wrapped_angle(c.center) - reference));
    Center {
        center,
        tolerance: c.tolerance,
    }
}

// The copy of the range that is shifted by a turn, cut off at -P and P.
#[tactic(auto, unfolding(crate::specs::Intervals::interval, crate::proofs::Literals::of_bits, crate::proofs::Literals::neg))]
fn interval(c: Center, shift: f64) -> Range
    ensures { result ≡ Of.interval c shift }
{
    let lower = maximum(c.center + shift - c.tolerance, -P);
    let upper = minimum(c.center + shift + c.tolerance, P);
    if is_finite(c.center) & (0.0 <= c.tolerance) & (lower <= upper) {
        return Some((lower, upper));
    }
    None
}

// The range with its neighbouring copies, since it may cross the ±P cut.
#[tactic(auto, unfolding(crate::specs::Intervals::wrist_limit_intervals, crate::proofs::Literals::of_bits, crate::proofs::Literals::neg))]
pub fn wrist_limit_intervals(c: Center, reference: f64, sign: f64) -> Intervals
    ensures { result ≡ Of.wrist_limit_intervals c reference sign }
{
    let s = seen(c, reference, sign);
    let first = interval(s, -TWO_PI);
    let second = interval(s, 0.0);
    let third = interval(s, TWO_PI);
    Intervals {
        first,
        second,
        third,
    }
}
