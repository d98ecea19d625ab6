// What the operation Page refuses, and the papers' number of each.
ghost use Rattle.std.specs.Prelude.{◌≡◌};

use polynomial::refusals::Numbered;
use sheet::refusals::Fault;

// The check's refusals, that there is no such page, or that fewer bytes are lent.
#[derive(Clone, Copy)]
pub enum Refusal {
    Sheet(Fault),
    NoPage,
    Short,
}

impl From<Fault> for Refusal {
    ghost use Rattle.page.specs.declared.refusals.Refusal.TheVariants.{Sheet};

    ghost from_gives = { λ f r. r ≡ Sheet f };

    fn from(f: Fault) -> Refusal {
        Refusal::Sheet(f)
    }
}

impl Numbered for Refusal {
    ghost use Rattle.page.specs.Operation as Operation;

    ghost number = { Operation.number };

    // A match, and no discriminants: an enum whose variants hold values has none.
    fn number(self) -> u8 {
        match self {
            Refusal::Sheet(f) => f.number(),
            Refusal::NoPage => 43,
            Refusal::Short => 42,
        }
    }
}
