// Roots of x(angle)^2 + y(angle)^2 = norm^2, from src/singularity/j1j2free.rs.
ghost use Rattle.std.specs.Prelude.{◌≡◌, ◌++◌, ◌+◌, ◌≤◌, length, take, drop};
ghost use Rattle.polynomial.specs.Curve as Of;
ghost use Rattle.polynomial.specs.Promises.Front.{Front};
ghost use Rattle.polynomial.specs.Promises.Norm.{put_all};

use crate::angle::wrapped_angle;
use crate::bounds::Bounds;
use crate::curve::{Harmonic, norm_polynomial};
use crate::polynomial::Polynomial;
use crate::roots::{keep, roots};
use float::arc::atan;
use float::number::middle;
use float::trig::P;
use std::ops::Range;

// The angles of the roots in the chart around the origin, put into the cuts in the first k places of
// out. Here and in `half_roots` the list is no `ArrayVec`: `insert` puts into a slice, since the root
// finder's list may stand in what C lends, and one more for an `ArrayVec` would be a second `insert`.
fn chart(found: &[f64], origin: f64, out: &mut [f64], k: usize) -> usize
    requires { k + length found.now ≤ length out.old }
    ensures { Front (put_all (Of.chart_angles origin found.now) (take k out.old)) out.old result out.new }
{
    let mut n = k;
    for u in found {
        n = keep(out, n, wrapped_angle(origin + 2.0 * atan(*u)));
    }
    n
}

// The roots in one half of the turn, put into the cuts in the first k places of out.
fn half_roots(
    x: Harmonic,
    y: Harmonic,
    norm: f64,
    half: Range<f64>,
    out: &mut [f64],
    k: usize,
) -> usize
    requires { k + 29 ≤ length out.old }
    ensures { Front (put_all (Of.half_roots x y norm half.start half.end) (take k out.old)) out.old result out.new }
{
    let mut found = [0.0; 32];
    let origin = middle(half.start, half.end);
    let list = norm_polynomial(x, y, norm, origin);
    let p = Polynomial {
        terms: list.as_slice(),
    };
    let bounds = Bounds {
        lower: -1.0,
        upper: 1.0,
    };
    let n = roots(p, bounds, &mut found);
    chart(&found[..n], origin, out, k)
}

// The roots, sorted, each once, in the first places of out. What stands behind them is left.
pub fn squared_norm_roots(x: Harmonic, y: Harmonic, norm: f64, out: &mut [f64]) -> usize
    requires { 58 ≤ length out.old }
    ensures value { result ≡ length (Of.squared_norm_roots x y norm) }
    ensures out_after { out.new ≡ Of.squared_norm_roots x y norm ++ drop result out.old }
{
    let k = half_roots(x, y, norm, -P..0.0, out, 0);
    half_roots(x, y, norm, 0.0..P, out, k)
}
