// The editions of the sheet, and the numbers that trailers say for them.
ghost use Rattle.std.specs.Prelude.{◌≡◌};
ghost use Rattle.sheet.specs.Edition as Editions;

use crate::refusals::Fault;

// The editions, oldest first, each with its number.
#[derive(Clone, Copy)]
pub enum Edition {
    One = 1,
    Two = 2,
}

impl Edition {
    // The edition that Sampling writes.
    pub(crate) const NEWEST: Edition = Edition::Two;

    pub(crate) fn number(self) -> u16
        ensures { result ≡ Editions.number self }
    {
        self as u16
    }
}

// The edition that has a number, of all up to the newest; a trailer that says another is wrong.
impl TryFrom<u16> for Edition {
    type Error = Fault;

    ghost use Rattle.std.specs.Prelude.{Some, None, MatchResult};
    ghost use Rattle.sheet.specs.declared.refusals.Fault.TheVariants.{Trailer};
    ghost use Rattle.sheet.specs.Edition as Editions;

    ghost try_from_gives = { λ k r. MatchResult r (λ e. Editions.known Editions.newest k ≡ Some e)
        (λ f. (f ≡ Trailer) × (Editions.known Editions.newest k ≡ None)) };

    #[tactic(auto, unfolding(crate::specs::Edition::known, crate::specs::Edition::numbered))]
    fn try_from(k: u16) -> Result<Edition, Fault> {
        match k {
            1 => Ok(Edition::One),
            2 => Ok(Edition::Two),
            _ => Err(Fault::Trailer),
        }
    }
}
