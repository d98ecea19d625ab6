// The root finder, from src/singularity/j1j2free.rs: the roots of degree d come from partition
// points, and those from the derivative's roots; the degree falls.
ghost use Rattle.std.specs.Prelude.{◌≡◌, true, ◌++◌, ◌+◌, ◌^◌, ◌≤◌, ◌<◌, length, take, drop};
ghost use Rattle.polynomial.specs.Cuts.{put};
ghost use Rattle.polynomial.specs.Polynomial as Of;
ghost use Rattle.polynomial.specs.Roots as Roots;
ghost use Rattle.polynomial.specs.Kinds as Kinds;
ghost use Rattle.polynomial.specs.Promises.Front.{Front};
ghost use Rattle.polynomial.specs.Promises.Inside.{Ready, Stands, touched, crossed, found, kinds_of, points_of, counting_of};

use crate::bounds::Bounds;
use crate::compensated::Compensated;
use crate::cuts::insert;
use crate::kinds::mark;
use crate::plain::Tested;
use crate::polynomial::Polynomial;
use float::number::is_sign_positive;

// Two neighbouring points, and the values there.
#[derive(Clone, Copy)]
pub struct Interval {
    pub ends: Bounds,
    pub u: f64,
    pub v: f64,
}

// Whether two values have different signs, and neither is zero.
fn crosses(u: f64, v: f64) -> bool
    ensures { result ≡ Roots.crosses u v }
{
    if u == 0.0 || v == 0.0 {
        return false;
    }
    is_sign_positive(u) != is_sign_positive(v)
}

// Puts v into the cuts in the first k places of out, which has a place more. The list may stand in the
// slice that C lends, so its length goes beside it; partition points and a chart's angles are put by it too,
// since a list of another type would need a second `insert`.
#[tactic(auto, using(crate::proofs::roots::Kept::kept_some))]
pub(crate) fn keep(out: &mut [f64], k: usize, v: f64) -> usize
    requires { k < length out.old }
    ensures value { result ≡ length (put v (take k out.old)) }
    ensures out_after { out.new ≡ put v (take k out.old) ++ drop result out.old }
{
    insert(out, k, v).unwrap()
}

// Puts the end of the bisection between two points, whose values are u and v, into the cuts in the
// first k places of out if the values cross zero. Here and in `look` out may be what C lends, so the
// list is no `ArrayVec`, and its length goes beside it; a struct of both, made in `scan` and lent on, would be
// taken apart there again for what `scan` promises of out, and is no plainer.
fn cross(p: Tested, at: Interval, out: &mut [f64], k: usize) -> usize
    requires { k < length out.old }
    ensures { Front (crossed (Of.evaluate p.entry.p.terms.now) at.ends.lower at.ends.upper at.u at.v (take k out.old)) out.old result out.new }
{
    if crosses(at.u, at.v) {
        return keep(out, k, p.bisect(at.ends, is_sign_positive(at.u)));
    }
    k
}

// What a look at a point gives: whether it is near zero, a number that stands for the value there,
// and how many cuts there are.
#[derive(Clone, Copy)]
pub struct Seen {
    pub near: bool,
    pub v: f64,
    pub k: usize,
}

// Looks at x, and puts it into the cuts in the first k places of out if the value there is near zero.
// Where plain arithmetic tells the value's sign, it is not, and the sign stands for it.
#[tactic(auto, unfolding(crate::specs::Polynomial::near_zero, crate::specs::Polynomial::evaluate))]
fn look(p: Tested, x: f64, out: &mut [f64], k: usize) -> Seen
    requires { k < length out.old }
    ensures near_value { result.near ≡ Of.near_zero p.entry.p.terms.now x }
    ensures stands { Stands result.v (Of.evaluate p.entry.p.terms.now x) }
    ensures kept { Front (touched p.entry.p.terms.now x (take k out.old)) out.old result.k out.new }
{
    if let Some(sign) = p.plain_sign(x) {
        return Seen {
            near: false,
            v: sign,
            k,
        };
    }
    let v = p.p.evaluate(x);
    if p.p.value_near(x, v) {
        let m = keep(out, k, x);
        return Seen {
            near: true,
            v,
            k: m,
        };
    }
    Seen { near: false, v, k }
}

// How many roots a scan found, and how many points near zero.
#[derive(Clone, Copy)]
pub struct Counts {
    pub roots: usize,
    pub near: usize,
}

// The points near zero and the ends of the bisections between neighbours, as cuts in the first places
// of out. Each point is looked at once; those near zero are gathered in the first places of points,
// where the others are no longer needed.
fn scan(p: Polynomial, points: &mut [f64], out: &mut [f64]) -> Counts
    requires { (0 < length points.old) × (length points.old + length points.old ≤ length out.old) × Ready points.old }
    ensures near { (result.near ≤ length points.old) × (take result.near points.new ≡ Roots.touches p.entry.terms.now points.old) }
    ensures roots { Front (found p.entry.terms.now points.old) out.old result.roots out.new }
{
    let tested = Tested {
        p,
        tidy: p.all_tidy(),
    };
    let mut lo = points[0];
    let first = look(tested, lo, out, 0);
    let mut u = first.v;
    let mut k = first.k;
    let mut near = usize::from(first.near);
    // by index, since the points near zero are written to the slice that is read
    for i in 1..points.len() {
        let hi = points[i];
        let seen = look(tested, hi, out, k);
        let v = seen.v;
        points[near] = hi;
        near += usize::from(seen.near);
        let ends = Bounds {
            lower: lo,
            upper: hi,
        };
        k = cross(tested, Interval { ends, u, v }, out, seen.k);
        lo = hi;
        u = v;
    }
    Counts { roots: k, near }
}

// The coefficients that count: without the zeros at the end, and none where a part is not finite.
#[tactic(auto, using(crate::proofs::polynomial::Every::all_finite_is))]
fn counting(p: Polynomial) -> Polynomial
    ensures { result.terms.now ≡ counting_of p.entry.terms.now }
{
    let left = p.trimmed();
    if left.all_finite() {
        return left;
    }
    Polynomial { terms: &[] }
}

// The root of a + b * x, where it lies between the bounds, in the first place of out: place and count, as
// `curve_roots` gives them, since with an `Option` both callers would write the place themselves.
#[tactic(auto, unfolding(crate::specs::Roots::quotient))]
fn line_root(a: Compensated, b: Compensated, bounds: Bounds, out: &mut [f64]) -> usize
    requires { 0 < length out.old }
    ensures { Front (Roots.quotient a b bounds.lower bounds.upper) out.old result out.new }
{
    let root = -a.value() / b.value();
    if bounds.lower <= root && root <= bounds.upper {
        out[0] = root;
        return 1;
    }
    0
}

// The roots of three coefficients or more, in the first places of out. The partition points, the
// bounds with the derivative's roots between them, sorted, each once, come to the first places of
// points; those near zero are left in front there. That the places suffice is asked here, in `roots`,
// `marked_curve` and `marked_roots` of polynomial and slice together: a struct of both would be made
// anew at each call, since points and out change places for the derivative.
#[cycle(derivatives)]
fn curve_roots(p: Polynomial, bounds: Bounds, points: &mut [f64], out: &mut [f64]) -> Counts
    requires { (2 < length p.terms.now) × (2 ^ length p.terms.now ≤ length points.old) × (2 ^ length p.terms.now ≤ length out.old) }
    ensures near { (result.near ≤ length points.old) × (take result.near points.new ≡
        Roots.touches p.entry.terms.now (points_of p.entry.terms.now bounds.lower bounds.upper)) }
    ensures roots { Front (found p.entry.terms.now (points_of p.entry.terms.now bounds.lower bounds.upper)) out.old result.roots out.new }
{
    let derivative = p.derivative();
    let slopes = Polynomial {
        terms: derivative.as_slice(),
    };
    let k = roots(slopes, bounds, points);
    let with_lower = keep(points, k, bounds.lower);
    let count = keep(points, with_lower, bounds.upper);
    scan(p, &mut points[..count], out)
}

// The roots, in the first places of out. What stands behind them is left.
#[cycle(derivatives)]
pub fn roots(p: Polynomial, bounds: Bounds, out: &mut [f64]) -> usize
    requires { 2 ^ length p.terms.now ≤ length out.old }
    ensures { Front (Roots.roots p.entry.terms.now bounds.lower bounds.upper) out.old result out.new }
{
    let left = counting(p);
    match left.terms.len() {
        0 | 1 => 0,
        2 => line_root(left.terms[0], left.terms[1], bounds, out),
        // fewer places have to be cleared than 512; a function in a cycle of calls has no const parameter
        3..=5 => curve_roots(left, bounds, &mut [0.0; 32], out).roots,
        _ => curve_roots(left, bounds, &mut [0.0; 512], out).roots,
    }
}

// As `curve_roots`, with the kinds of the roots in the first places of kinds. Values and kinds are two slices
// here and below, as C lends them.
#[tactic(auto, using(crate::proofs::roots::Kept::front_take, crate::proofs::kinds::Marks::marked_as, crate::proofs::roots::Cycle::found_room))]
fn marked_curve(
    p: Polynomial,
    bounds: Bounds,
    points: &mut [f64],
    out: &mut [f64],
    kinds: &mut [u8],
) -> usize
    requires { (2 < length p.terms.now) × (2 ^ length p.terms.now ≤ length points.old) × (2 ^ length p.terms.now ≤ length out.old) ×
        (2 ^ length p.terms.now ≤ length kinds.old) }
    ensures value { Front (found p.entry.terms.now (points_of p.entry.terms.now bounds.lower bounds.upper)) out.old result out.new }
    ensures kinds_after { kinds.new ≡ kinds_of (Roots.touches p.entry.terms.now (points_of p.entry.terms.now bounds.lower bounds.upper))
        (found p.entry.terms.now (points_of p.entry.terms.now bounds.lower bounds.upper)) ++ drop result kinds.old }
{
    let counts = curve_roots(p, bounds, points, out);
    mark(&points[..counts.near], &out[..counts.roots], kinds);
    counts.roots
}

// The same with places for the partition points. Apart from `marked_roots`, so that a line's root waits for no
// room of theirs.
#[inline(never)]
fn marked_by_degree(p: Polynomial, bounds: Bounds, out: &mut [f64], kinds: &mut [u8]) -> usize
    requires { (2 < length p.terms.now) × (2 ^ length p.terms.now ≤ length out.old) × (2 ^ length p.terms.now ≤ length kinds.old) }
    ensures value { Front (found p.entry.terms.now (points_of p.entry.terms.now bounds.lower bounds.upper)) out.old result out.new }
    ensures kinds_after { kinds.new ≡ kinds_of (Roots.touches p.entry.terms.now (points_of p.entry.terms.now bounds.lower bounds.upper))
        (found p.entry.terms.now (points_of p.entry.terms.now bounds.lower bounds.upper)) ++ drop result kinds.old }
{
    match p.terms.len() {
        0..=5 => marked_curve(p, bounds, &mut [0.0; 32], out, kinds),
        _ => marked_curve(p, bounds, &mut [0.0; 512], out, kinds),
    }
}

// As `roots`, with the kinds of the roots in the first places of kinds. A line's root is no partition
// point, and so a crossing. The arms are those of `roots`, which stands in a cycle of calls: one function
// for both would need a trait for what is done with the touches, with clauses of its own in that cycle.
pub fn marked_roots(p: Polynomial, bounds: Bounds, out: &mut [f64], kinds: &mut [u8]) -> usize
    requires { (2 ^ length p.terms.now ≤ length out.old) × (2 ^ length p.terms.now ≤ length kinds.old) }
    ensures value { Front (Roots.roots p.entry.terms.now bounds.lower bounds.upper) out.old result out.new }
    ensures kinds_after { kinds.new ≡ Kinds.kinds p.entry.terms.now bounds.lower bounds.upper ++ drop result kinds.old }
{
    let left = counting(p);
    match left.terms.len() {
        0 | 1 => 0,
        2 => {
            let count = line_root(left.terms[0], left.terms[1], bounds, out);
            mark(&[], &out[..count], kinds);
            count
        }
        _ => marked_by_degree(left, bounds, out, kinds),
    }
}
