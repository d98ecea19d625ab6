// What the operation Roots refuses, and the numbers that 01 and 02 give refusals.
ghost use Rattle.std.specs.Prelude.{◌≡◌, ℕ};

// A refusal, of whatever operation, that has a number.
pub trait Numbered {
    ghost number: { Self → ℕ };

    fn number(self) -> u8
        ensures { result ≡ number self };
}

// The refusals of Roots, in 01's order, each with its number.
#[derive(Clone, Copy)]
pub enum Refusal {
    BadLength = 21,
    BadBounds = 22,
    BadPart = 23,
    ShortResult = 24,
}

impl Numbered for Refusal {
    ghost use Rattle.polynomial.specs.Operation.{refusal_number};

    ghost number = { refusal_number };

    fn number(self) -> u8 {
        self as u8
    }
}
