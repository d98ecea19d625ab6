// The C interface: the operation Roots, its answer by 01's number.
ghost use Rattle.std.specs.Prelude.{◌≡◌, length};
ghost use Rattle.polynomial.specs.Operation as Operation;
ghost use Rattle.polynomial.specs.Roots as Roots;
ghost use Rattle.polynomial.specs.Kinds as Kinds;

use crate::numbers::signed_number;

// The result slice gets the roots in its first places, and kinds how each arose, 1 for a touch and 2
// for a crossing; the rest of both, and all of it on refusal, is left.
#[tactic(auto, using(crate::proofs::Signed::signed_roots, crate::proofs::of_polynomial::Largest::small_roots))]
#[unsafe(no_mangle)]
pub extern "C" fn polynomial_roots(
    coefficients: &[f64],
    lower: f64,
    upper: f64,
    res: &mut [f64],
    kinds: &mut [u8],
) -> i64
    ensures value { result ≡ Operation.number
        (Operation.answer coefficients.now lower upper (length res.old) (length kinds.old)) }
    ensures res_after { res.new ≡ Operation.filled
        (Operation.answer coefficients.now lower upper (length res.old) (length kinds.old))
        (Roots.roots (Operation.pairs coefficients.now) lower upper) res.old }
    ensures kinds_after { kinds.new ≡ Operation.filled
        (Operation.answer coefficients.now lower upper (length res.old) (length kinds.old))
        (Kinds.kinds (Operation.pairs coefficients.now) lower upper) kinds.old }
{
    signed_number(polynomial::operation::roots(coefficients, lower, upper, res, kinds))
}
