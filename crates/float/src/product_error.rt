// The error of a rounded product, `fma(a, b, -(a * b))`: by Dekker's halves where a is zero or from
// 2^-200 to 2^400 in magnitude, and b zero or from 2^-768 to 2^400, and by the fused product elsewhere.
ghost use Rattle.std.specs.Prelude.{◌≡◌, IfSome, is_some};
ghost use Rattle.float.specs.ProductError as ProductError;
ghost use Rattle.float.specs.Promises.Halves as Of;

use crate::mul_add::mul_add;

// 2^400, 2^-200 and 2^-768: where the halves serve. 2^27 + 1: where they are split.
const MOST: f64 = 2.5822498780869086e120;

const LEAST: f64 = 6.223015277861142e-61;

const LEAST_HALVED: f64 = 6.441148769597133e-232;

const SPLITTER: f64 = 134217729.0;

// Whether a magnitude is zero or from `low` to 2^400.
#[tactic(auto, using(crate::proofs::product_error::Range::most_is, crate::specs::Laws::Zero::zero_bits), unfolding(crate::specs::Promises::Halves::sized))]
fn sized(low: f64, m: f64) -> bool
    ensures { result ≡ Of.sized low m }
{
    if m <= MOST {
        if m >= low {
            return true;
        }
        return m == 0.0;
    }
    false
}

// Whether the magnitude of x is zero or from `low` to 2^400. The test is `in_range` word for word; by `abs`,
// which gives +0.0 at either zero, a lemma on the two zeros would come in.
#[tactic(auto, using(crate::specs::Laws::Zero::zero_bits), unfolding(crate::specs::Promises::Halves::in_range))]
fn within(low: f64, x: f64) -> bool
    ensures { result ≡ Of.in_range low x }
{
    if x < 0.0 {
        return sized(low, -x);
    }
    sized(low, x)
}

// Whether Dekker's halves serve a first operand.
pub fn in_range(x: f64) -> bool
    ensures { result ≡ Of.in_range Of.least x }
{
    within(LEAST, x)
}

// The high and the low half of x, by Dekker's split.
fn dekker_split(x: f64) -> (f64, f64)
    ensures { (result.0 ≡ Of.high_half x) × (result.1 ≡ Of.low_half x) }
{
    let c = SPLITTER * x;
    let high = c - (c - x);
    (high, x - high)
}

// An operand with its halves, by Dekker's split at 2^27 + 1, and whether these serve it.
#[derive(Clone, Copy)]
pub struct HalvedOperand {
    pub whole: f64,
    pub high: f64,
    pub low: f64,
    pub fine: bool,
}

// The halves of any x, also where they do not serve.
pub fn halved_operand(x: f64) -> HalvedOperand
    ensures { result ≡ Of.halves x }
{
    let fine = within(LEAST_HALVED, x);
    let (high, low) = dekker_split(x);
    HalvedOperand {
        whole: x,
        high,
        low,
        fine,
    }
}

// An operand with its halves, where these serve it: for one that meets many others.
#[derive(Clone, Copy)]
pub struct Halves {
    pub whole: f64,
    pub high: f64,
    pub low: f64,
    ghost halved: { Of.Halved whole high low },
}

impl Halves {
    // The halves of x, where they serve.
    pub fn of(x: f64) -> Option<Self>
        ensures served { is_some result ≡ Of.in_range Of.least_halved x }
        ensures whole { IfSome result (λ h. h.whole ≡ x) }
    {
        if !within(LEAST_HALVED, x) {
            return None;
        }
        let (high, low) = dekker_split(x);
        Some(Self {
            whole: x,
            high,
            low,
        })
    }
}

// The error of a product with an operand whose halves are at hand, where those of a serve as well.
pub fn error_by_halves(a: f64, b: Halves) -> Option<f64>
    ensures served { is_some result ≡ Of.in_range Of.least a }
    ensures value { IfSome result (λ e. e ≡ ProductError.product_error a b.whole) }
{
    if !in_range(a) {
        return None;
    }
    let p = a * b.whole;
    let (high, low) = dekker_split(a);
    Some((((high * b.high - p) + high * b.low) + low * b.high) + low * b.low)
}

// a * b - p for the rounded product p = a * b, rounded. As a call it took half as long again in a loop over one b,
// which makes the halves of b once where the body stands in it.
#[inline]
pub fn product_error(a: f64, b: f64) -> f64
    ensures { result ≡ ProductError.product_error a b }
{
    if let Some(halves) = Halves::of(b) {
        if let Some(error) = error_by_halves(a, halves) {
            return error;
        }
    }
    mul_add(a, b, -(a * b))
}
