// Plain Horner arithmetic on the high parts alone. Where its value is far from zero beside the
// coefficients' magnitudes, it has the sign of the compensated value, which is not near zero then.
ghost use Rattle.std.specs.Prelude.{◌≡◌, true};
ghost use Rattle.polynomial.specs.Promises.Plain.{Tidy, AllTidy, AllTidy-prop, Tells, sign_if_sure};

use crate::compensated::Compensated;
use crate::polynomial::Polynomial;
use float::number::abs;

// 2^500, 2^52 and 2^-1010. MARGIN is 2^-43: how far from zero a plain value has to be, as a part of
// the scale.
const LARGEST: f64 = 3.273390607896142e150;

const LIFT: f64 = 4503599627370496.0;

const LEAST: f64 = 9.113902524445497e-305;

const MARGIN: f64 = 1.1368683772161603e-13;

// Whether a coefficient's residual is small beside its rounded value, and this is not large.
fn is_tidy(c: Compensated) -> bool
    ensures { result ≡ true → Tidy c }
{
    let size = abs(c.high);
    size <= LARGEST && abs(c.low) * LIFT <= size
}

// The sign, 1.0 or -1.0, of the plain value v at a point of this size; none where v may have another
// sign than the compensated value. A number, since it stands for the value where signs are compared.
fn sign_of(size: f64, v: f64, scale: f64) -> Option<f64>
    ensures { result ≡ sign_if_sure size v scale }
{
    if size <= 1.0 {
        if scale >= LEAST {
            let margin = MARGIN * scale;
            if v > margin {
                return Some(1.0);
            }
            if v < -margin {
                return Some(-1.0);
            }
        }
    }
    None
}

// A polynomial, and whether each coefficient has a small residual and is not large: tested once for all
// points.
#[derive(Clone, Copy)]
pub struct Tested<'a> {
    pub p: Polynomial<'a>,
    pub tidy: bool,
    ghost told: { tidy ≡ true → AllTidy p.terms.now } by { Prim.hlevel AllTidy-prop },
}

impl Polynomial<'_> {
    // Whether each coefficient has a small residual and is not large. By a loop: `Tidy` says more than the
    // test's value, and what `all` gives then has to be led from its calls to the list.
    pub(crate) fn all_tidy(self) -> bool
        ensures { result ≡ true → AllTidy self.entry.terms.now }
    {
        for c in self.terms {
            if !is_tidy(*c) {
                return false;
            }
        }
        true
    }
}

impl Tested<'_> {
    // The sign of the value at x, 1.0 or -1.0; none where plain arithmetic does not tell it.
    #[tactic(auto, using(crate::proofs::Literals::literals), unfolding(crate::specs::Promises::Plain::plain, crate::specs::Promises::Plain::scale))]
    pub(crate) fn plain_sign(self, x: f64) -> Option<f64>
        ensures { Tells result self.entry.p.terms.now x }
    {
        if !self.tidy {
            return None;
        }
        let size = abs(x);
        let mut sum = 0.0;
        let mut scale = 0.0;
        for c in self.p.terms.iter().rev() {
            sum = sum * x + c.high;
            scale = scale * size + abs(c.high);
        }
        sign_of(size, sum, scale)
    }
}
