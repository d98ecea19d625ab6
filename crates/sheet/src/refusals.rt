// What Sampling refuses and what is wrong with a sheet, each with the papers' number.
ghost use Rattle.std.specs.Prelude.{◌≡◌};

use polynomial::refusals::Numbered;
use sampling::pose::Degenerate;

// The refusals of Sampling, in their order.
#[derive(Clone, Copy)]
pub enum Refusal {
    Length = 1,
    Head = 2,
    Name = 41,
    Sign = 3,
    NotFinite = 4,
    Zero = 5,
    Arm = 6,
    Reference = 7,
    Offset = 8,
    Work = 10,
    Output = 11,
}

impl From<Degenerate> for Refusal {
    ghost use Rattle.sheet.specs.Promises.Tested as Promise;

    ghost from_gives = { λ d r. r ≡ Promise.refusal_of d };

    #[tactic(auto, unfolding(crate::specs::Promises::Tested::refusal_of))]
    fn from(d: Degenerate) -> Refusal {
        match d {
            Degenerate::NotFinite => Refusal::NotFinite,
            Degenerate::Zero => Refusal::Zero,
        }
    }
}

impl Numbered for Refusal {
    ghost use Rattle.sheet.specs.Refusals as Refusals;

    ghost number = { Refusals.number };

    fn number(self) -> u8 {
        self as u8
    }
}

// The refusals of Check, in their order.
#[derive(Clone, Copy)]
pub enum Fault {
    Length = 31,
    Trailer = 32,
    Request = 33,
    Unread = 34,
    Work = 35,
    Angles = 36,
}

impl Numbered for Fault {
    ghost use Rattle.sheet.specs.Refusals as Refusals;

    ghost number = { Refusals.fault_number };

    fn number(self) -> u8 {
        self as u8
    }
}
