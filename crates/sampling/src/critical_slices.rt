// The cuts of joint 1 at the intersections and the vertical tangencies of curves, from
// src/singularity/j1j2free.rs.
ghost use Rattle.std.specs.Prelude.{◌≡◌, ◌≤◌, ◌<◌, length, map};
ghost use mathlib.Core.List.{flat_map};
ghost use Rattle.sampling.specs.Promises.Curves.{most_curves};
ghost use Rattle.sampling.specs.Promises.Charts.{Bounded, plain};
ghost use Rattle.sampling.specs.Promises.Grown.{Grown};
ghost use Rattle.sampling.specs.CriticalSlices as Of;
ghost use Rattle.sampling.specs.Promises.Numerators.{polynomials_of, meetings};

use crate::boundaries::CURVES;
use crate::samples::Interval;
use crate::work::Cuts;
use arrayvec::ArrayVec;
use float::arc::atan;
use float::number::middle;
use float::trig::tan;
use polynomial::arithmetic::{add, determinant, multiply};
use polynomial::bounds::Bounds;
use polynomial::compensated::{Coefficients, Compensated};
use polynomial::curve::{Curve, Numerators};
use polynomial::polynomial::Polynomial;
use polynomial::roots::roots;

// The chart u = tan((q1 - origin) / 2): its origin and its bounds, which the root finder takes.
#[derive(Clone, Copy)]
pub struct Chart {
    pub origin: f64,
    pub bounds: Bounds,
}

// The chart of a part of joint 1's interval.
#[tactic(auto, unfolding(crate::specs::CriticalSlices::chart, crate::proofs::Literals::of_bits))]
pub(crate) fn chart_of(part: Interval) -> Chart
    requires { Bounded (Of.chart part.lower part.upper) }
    ensures { plain result ≡ Of.chart part.lower part.upper }
{
    let Interval { lower, upper } = part;
    let origin = middle(lower, upper);
    let bounds = Bounds {
        lower: tan((lower - origin) / 2.0),
        upper: tan((upper - origin) / 2.0),
    };
    Chart { origin, bounds }
}

// The angles of the roots.
fn angles(cuts: &mut Cuts, origin: f64, roots: &[f64])
    ensures { Grown (Of.angles origin roots.now) cuts.old cuts.new }
{
    for u in roots {
        cuts.push(origin + 2.0 * atan(*u));
    }
}

// An inner call of the root finder. Cuts and chart go side by side here and below, since the same cuts
// are also given values that come by no chart.
#[tactic(auto, using(crate::proofs::Lengths::pow_mono), unfolding(crate::specs::CriticalSlices::chart_roots))]
fn chart_roots(cuts: &mut Cuts, c: Chart, p: Polynomial)
    ensures { Grown (Of.chart_roots (plain c) p.entry.terms.now) cuts.old cuts.new }
{
    let mut found = [0.0; 512];
    let m = roots(p, c.bounds, &mut found);
    angles(cuts, c.origin, &found[..m]);
}

// p * p + q * q - r * r, of as many coefficients each.
#[tactic(auto, using(crate::proofs::Lengths::lengths), unfolding(crate::specs::CriticalSlices::squares, crate::proofs::Literals::of_bits))]
fn squares(p: &[Compensated], q: &[Compensated], r: &[Compensated]) -> Coefficients
    requires { (0 < length p.now) × (length p.now ≤ 5) × (length q.now ≡ length p.now) × (length r.now ≡ length p.now) }
    ensures { result.items ≡ Of.squares p.now q.now r.now }
{
    let sum = add(multiply(p, p).as_slice(), multiply(q, q).as_slice(), 1.0);
    add(sum.as_slice(), multiply(r, r).as_slice(), -1.0)
}

// The polynomial of a curve's vertical tangencies.
#[tactic(auto, unfolding(crate::specs::CriticalSlices::tangency))]
fn tangency(k: Numerators) -> Coefficients
    ensures { result.items ≡ Of.tangency (polynomials_of k) }
{
    let a = k.a;
    let b = k.b;
    let c = k.c;
    squares(&a, &b, &c)
}

// The polynomial of the intersections of two curves.
#[tactic(auto, using(crate::proofs::Lengths::lengths), unfolding(crate::specs::CriticalSlices::intersection))]
fn intersection(k: Numerators, l: Numerators) -> Coefficients
    ensures { result.items ≡ Of.intersection (polynomials_of k) (polynomials_of l) }
{
    let a = k.a;
    let b = k.b;
    let c = k.c;
    let d = l.a;
    let e = l.b;
    let f = l.c;
    let denominator = determinant(&a, &e, &d, &b);
    let cosine = determinant(&b, &f, &e, &c);
    let sine = determinant(&c, &d, &f, &a);
    squares(cosine.as_slice(), sine.as_slice(), denominator.as_slice())
}

// A later curve, k, with each of the earlier ones, which are the first operands.
fn meetings(cuts: &mut Cuts, c: Chart, earlier: &[Numerators], k: Numerators)
    ensures { Grown (flat_map (Of.chart_roots (plain c)) (meetings (map polynomials_of earlier.now) (polynomials_of k))) cuts.old cuts.new }
{
    for e in earlier {
        let both = intersection(*e, k);
        let p = Polynomial {
            terms: both.as_slice(),
        };
        chart_roots(cuts, c, p);
    }
}

// Each of the curves alone, then with each earlier one, whose polynomials are kept.
pub(crate) fn critical(cuts: &mut Cuts, c: Chart, curves: &[Curve])
    requires { length curves.now ≤ most_curves }
    ensures { Grown (Of.critical (plain c) curves.now) cuts.old cuts.new }
{
    let mut known: ArrayVec<Numerators, CURVES> = ArrayVec::new();
    for curve in curves {
        let k = curve.polynomials(c.origin);
        let own = tangency(k);
        let p = Polynomial {
            terms: own.as_slice(),
        };
        chart_roots(cuts, c, p);
        meetings(cuts, c, known.as_slice(), k);
        known.push(k);
    }
}
