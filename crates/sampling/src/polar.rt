// A first harmonic with its radius and phase, which are worked out once where it has many targets.
ghost use Rattle.std.specs.Prelude.{◌≡◌};
ghost use Rattle.float.specs.Trig.{hypot, atan2};

use crate::continuum::Trig;
use float::arc::{acos, atan2};
use float::number::clamp;
use float::trig::hypot;
use polynomial::angle::wrapped_angle;

#[derive(Clone, Copy)]
pub struct Polar {
    pub harmonic: Trig,
    pub radius: f64,
    pub phase: f64,
    ghost radius_is: { radius ≡ hypot harmonic.cosine harmonic.sine },
    ghost phase_is: { phase ≡ atan2 harmonic.sine harmonic.cosine },
}

impl Polar {
    ghost use Rattle.sampling.specs.Continuum as Of;
    ghost use Rattle.sampling.specs.Promises.Polar as By;

    pub(crate) fn new(harmonic: Trig) -> Self
        ensures { result.harmonic ≡ harmonic }
    {
        Self {
            harmonic,
            radius: hypot(harmonic.cosine, harmonic.sine),
            phase: atan2(harmonic.sine, harmonic.cosine),
        }
    }

    // The wrapped angles on both sides of the phase.
    #[tactic(auto, unfolding(crate::specs::Promises::Polar::around))]
    fn around(&self, target: f64) -> (f64, f64)
        ensures { result ≡ By.around self.now.harmonic self.now.radius self.now.phase target }
    {
        let offset = acos(clamp(-(self.harmonic.constant - target) / self.radius));
        let first = wrapped_angle(self.phase - offset);
        let second = wrapped_angle(self.phase + offset);
        (first, second)
    }

    // The wrapped angles where the harmonic equals the target.
    #[tactic(auto, using(crate::proofs::continuum::Steps::crossed))]
    pub(crate) fn crossings(&self, target: f64) -> Option<(f64, f64)>
        ensures { result ≡ Of.crossings self.now.harmonic target }
    {
        if self.harmonic.meets(self.radius, target) {
            Some(self.around(target))
        } else {
            None
        }
    }
}
