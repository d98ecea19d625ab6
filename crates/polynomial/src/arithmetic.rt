// Sums and products of polynomials, from src/singularity/j1j2free.rs.
ghost use Rattle.std.specs.Prelude.{◌≡◌, ◌+◌, ◌-◌, ◌≤◌, ◌<◌, length};
ghost use Rattle.polynomial.specs.Polynomial as Of;

use crate::compensated::{Coefficients, Compensated};
use arrayvec::ArrayVec;

// a + scale * b, of as many coefficients each.
#[tactic(auto, unfolding(crate::specs::Polynomial::add))]
pub fn add(a: &[Compensated], b: &[Compensated], scale: f64) -> Coefficients
    requires { (length a.now ≤ 9) × (length b.now ≡ length a.now) }
    ensures { result.items ≡ Of.add a.now b.now scale }
{
    let factor = Compensated::from(scale);
    let mut r = ArrayVec::new();
    for (x, y) in a.iter().zip(b) {
        r.push(Compensated::from(0.0) + *x + *y * factor);
    }
    r
}

// The coefficient k of a * b: from zero, the sum over each place i of a that has a partner k - i in b.
// Here, in `multiply` and in `determinant` the sizes add up to ten at most, so that the product has nine
// coefficients: a clause of two factors, which a type of one cannot hold.
#[tactic(auto, using(crate::proofs::arithmetic::Products::column_more, crate::proofs::arithmetic::Products::column_end))]
fn coefficient(a: &[Compensated], b: &[Compensated], k: usize) -> Compensated
    requires { (length a.now + length b.now ≤ 10) × (k < length a.now + length b.now - 1) }
    ensures { result ≡ Of.coefficient a.now b.now k }
{
    let mut sum = Compensated::from(0.0);
    for i in (k + 1).saturating_sub(b.len())..a.len().min(k + 1) {
        sum = sum + a[i] * b[k - i];
    }
    sum
}

// a * b.
#[tactic(auto, using(crate::proofs::arithmetic::Products::product_steps))]
pub fn multiply(a: &[Compensated], b: &[Compensated]) -> Coefficients
    requires { (0 < length a.now) × (length a.now + length b.now ≤ 10) }
    ensures { result.items ≡ Of.multiply a.now b.now }
{
    let mut r = ArrayVec::new();
    for k in 0..a.len() + b.len() - 1 {
        r.push(coefficient(a, b, k));
    }
    r
}

// a * b - c * d, where both products are as long.
#[tactic(auto, using(crate::specs::Laws::Nine::length_multiply), unfolding(crate::specs::Polynomial::determinant))]
pub fn determinant(
    a: &[Compensated],
    b: &[Compensated],
    c: &[Compensated],
    d: &[Compensated],
) -> Coefficients
    requires { (0 < length a.now) × (length a.now + length b.now ≤ 10) × (length c.now ≡ length a.now) × (length d.now ≡ length b.now) }
    ensures { result.items ≡ Of.determinant a.now b.now c.now d.now }
{
    add(multiply(a, b).as_slice(), multiply(c, d).as_slice(), -1.0)
}
