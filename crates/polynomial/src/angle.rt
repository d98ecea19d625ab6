// Angles wrapped to one turn, from src/kinematics_impl.rs.
ghost use Rattle.std.specs.Prelude.{◌≡◌};
ghost use Rattle.polynomial.specs.Angle as Angle;

use float::number::rem_euclid;
use float::trig::{P, TWO_PI};

#[tactic(auto, using(crate::proofs::Literals::literals), unfolding(crate::specs::Angle::wrapped_angle))]
pub fn wrapped_angle(angle: f64) -> f64
    ensures { result ≡ Angle.wrapped_angle angle }
{
    rem_euclid(angle + P, TWO_PI) - P
}
