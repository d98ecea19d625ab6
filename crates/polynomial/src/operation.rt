// The operation Roots of document 01, with its refusals in 01's order.
ghost use Rattle.std.specs.Prelude.{◌≡◌, ◌≤◌, ◌^◌, length};
ghost use Rattle.std.specs.List.{list_all};
ghost use Rattle.polynomial.specs.Operation as Operation;
ghost use Rattle.polynomial.specs.Roots as Roots;
ghost use Rattle.polynomial.specs.Kinds as Kinds;

use crate::bounds::Bounds;
use crate::compensated::Compensated;
use crate::flat;
use crate::polynomial::Polynomial;
use crate::refusals::Refusal;
use crate::roots::marked_roots;
use float::number::abs;

// 2^400.
const LARGEST_PART: f64 = 2.5822498780869086e120;

// Whether the bounds are numbers within ±4, in order.
#[tactic(auto, using(crate::proofs::Literals::literals))]
pub(crate) fn bounds_hold(lower: f64, upper: f64) -> bool
    ensures { result ≡ Operation.bounds_hold lower upper }
{
    abs(lower) <= 4.0 && abs(upper) <= 4.0 && lower <= upper
}

// Whether a part is finite, and at most 2^400 in magnitude.
#[tactic(auto, using(crate::proofs::Literals::literals))]
pub(crate) fn part_holds(x: f64) -> bool
    ensures { result ≡ Operation.part_holds x }
{
    abs(x) <= LARGEST_PART
}

// Whether every part is finite, and at most 2^400 in magnitude.
fn parts_hold(s: &[f64]) -> bool
    ensures { result ≡ list_all Operation.part_holds s.now }
{
    s.iter().all(|x| part_holds(*x))
}

// The roots, found elsewhere first: the list may be too long for a slice. They and their kinds are two
// slices, as C lends them. Not inlined, so that a call that fits has no room to make.
#[inline(never)]
fn roots_apart<const N: usize>(
    p: Polynomial,
    bounds: Bounds,
    res: &mut [f64],
    kinds: &mut [u8],
) -> Result<usize, Refusal>
    requires { (2 ^ length p.terms.now ≤ N) × (N ≤ 512) }
    ensures value { result ≡ Operation.fitted (length (Roots.roots p.entry.terms.now bounds.lower bounds.upper)) (length res.old) (length kinds.old) }
    ensures res_after { res.new ≡ Operation.filled result (Roots.roots p.entry.terms.now bounds.lower bounds.upper) res.old }
    ensures kinds_after { kinds.new ≡ Operation.filled result (Kinds.kinds p.entry.terms.now bounds.lower bounds.upper) kinds.old }
{
    let mut found = [0.0; N];
    let mut arose = [0; N];
    let count = marked_roots(p, bounds, &mut found, &mut arose);
    if res.len() < count {
        return Err(Refusal::ShortResult);
    }
    if kinds.len() < count {
        return Err(Refusal::ShortResult);
    }
    res[..count].copy_from_slice(&found[..count]);
    kinds[..count].copy_from_slice(&arose[..count]);
    Ok(count)
}

// The roots, found in the two slices themselves where these have places for every list of so many coefficients.
// Inlined, since as a call it took a tenth of the time of a line's root.
#[inline(always)]
fn roots_fitted<const N: usize>(
    p: Polynomial,
    bounds: Bounds,
    res: &mut [f64],
    kinds: &mut [u8],
) -> Result<usize, Refusal>
    requires { (2 ^ length p.terms.now ≤ N) × (N ≤ 512) }
    ensures value { result ≡ Operation.fitted (length (Roots.roots p.entry.terms.now bounds.lower bounds.upper)) (length res.old) (length kinds.old) }
    ensures res_after { res.new ≡ Operation.filled result (Roots.roots p.entry.terms.now bounds.lower bounds.upper) res.old }
    ensures kinds_after { kinds.new ≡ Operation.filled result (Kinds.kinds p.entry.terms.now bounds.lower bounds.upper) kinds.old }
{
    let n = p.terms.len();
    if 1 << n <= res.len() {
        if 1 << n <= kinds.len() {
            return Ok(marked_roots(p, bounds, res, kinds));
        }
    }
    roots_apart::<N>(p, bounds, res, kinds)
}

// The same of coefficients as pairs. One has no root, and two are lent by themselves: a list, which nine places
// are cleared for, took longer to make than the root to find.
#[tactic(auto, using(crate::proofs::operation::Answers::no_root, crate::proofs::operation::Answers::no_kind), unfolding(crate::specs::Operation::pairs))]
fn roots_of(
    coefficients: &[f64],
    bounds: Bounds,
    res: &mut [f64],
    kinds: &mut [u8],
) -> Result<usize, Refusal>
    requires { length coefficients.now ≤ 18 }
    ensures value { result ≡ Operation.fitted (length (Roots.roots (Operation.pairs coefficients.now) bounds.lower bounds.upper))
        (length res.old) (length kinds.old) }
    ensures res_after { res.new ≡ Operation.filled result (Roots.roots (Operation.pairs coefficients.now) bounds.lower bounds.upper) res.old }
    ensures kinds_after { kinds.new ≡ Operation.filled result (Kinds.kinds (Operation.pairs coefficients.now) bounds.lower bounds.upper) kinds.old }
{
    if coefficients.len() < 4 {
        return Ok(0);
    }
    if let [high, low, next_high, next_low] = *coefficients {
        let next = Compensated {
            high: next_high,
            low: next_low,
        };
        let terms = [Compensated { high, low }, next];
        return roots_fitted::<4>(Polynomial { terms: &terms }, bounds, res, kinds);
    }
    let list = flat::coefficients(coefficients);
    let p = Polynomial {
        terms: list.as_slice(),
    };
    roots_fitted::<512>(p, bounds, res, kinds)
}

// The operation: the number of roots, or the first refusal. Coefficients come as pairs, constant first.
// The result slice gets the roots in its first places, and kinds how each arose; the rest of both, and all of it on refusal, is left.
pub fn roots(
    coefficients: &[f64],
    lower: f64,
    upper: f64,
    res: &mut [f64],
    kinds: &mut [u8],
) -> Result<usize, Refusal>
    ensures value { result ≡ Operation.answer coefficients.now lower upper (length res.old) (length kinds.old) }
    ensures res_after { res.new ≡ Operation.filled result (Roots.roots (Operation.pairs coefficients.now) lower upper) res.old }
    ensures kinds_after { kinds.new ≡ Operation.filled result (Kinds.kinds (Operation.pairs coefficients.now) lower upper) kinds.old }
{
    let len = coefficients.len();
    if len % 2 == 1 {
        return Err(Refusal::BadLength);
    }
    if 18 < len {
        return Err(Refusal::BadLength);
    }
    if !bounds_hold(lower, upper) {
        return Err(Refusal::BadBounds);
    }
    if !parts_hold(coefficients) {
        return Err(Refusal::BadPart);
    }
    roots_of(coefficients, Bounds { lower, upper }, res, kinds)
}
