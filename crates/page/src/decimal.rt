// An angle in radians with nine decimals, in 16 columns.
ghost use Rattle.std.specs.Prelude.{◌≡◌, ◌*◌, ◌^◌, ◌≤◌, ◌<◌, T, length, replicate, MatchOption};
ghost use Rattle.std.specs.Float.Ieee.Nearest.{closest};
ghost use Rattle.std.specs.Float.Ieee.Scale.{finite};
ghost use Rattle.page.specs.Decimal as Decimal;
ghost use Rattle.page.specs.Operation as Operation;
ghost use Rattle.page.specs.Promises.Decimal as Promise;

use crate::refusals::Refusal;
use digits::decimal::{put_digits, put_signed};
use float::mul_add::split;
use float::number::is_finite;
use float::wide::jam;

// A billion.
const BILLION: u64 = 1000000000;

// From so many billionths on x is too long for its columns, whatever its sign.
const MOST: u64 = 1000000000000000;

// q * 10^9 / 2^s to the nearest whole number, ties to even: the product is cut two digits below the
// point, with the last one set where anything but zeros was cut off. `Parts` does not say that q is
// below 2^53, since a rounded one has that too; the one call does.
#[tactic(auto, using(crate::proofs::Rounding::left, crate::proofs::Rounding::scaled_is))]
fn scaled(q: u64, s: u64) -> u64
    requires { (q < 2 ^ 53) × (33 ≤ s) }
    ensures { result ≡ closest (q * Decimal.billion) (2 ^ s) }
{
    let w = jam(u128::from(q) * u128::from(BILLION), s - 2) as u64;
    (w + w / 4 % 2 + 1) / 4
}

// A finite |x| in billionths, and its sign.
#[derive(Clone, Copy)]
pub struct Fixed {
    pub neg: bool,
    pub n: u64,
}

// None from 10^15 on; from 2^20 on |x| has more.
#[tactic(auto, using(crate::proofs::Rounding::below, crate::proofs::Rounding::beyond, crate::proofs::Rounding::many))]
fn billionths(x: f64) -> Option<Fixed>
    requires { T (finite x) }
    ensures { MatchOption result (Promise.Beyond x) (λ b. Promise.Billionths x b.neg b.n) }
{
    let p = split(x);
    if p.k >= 1042 {
        return None;
    }
    let n = scaled(p.q, 1074 - p.k);
    (n < MOST).then_some(Fixed { neg: p.neg, n })
}

// How many billionths are too long for 16 columns.
fn limit(neg: bool) -> u64
    ensures { result ≡ Promise.limit neg }
{
    if neg { MOST / 10 } else { MOST }
}

// n billionths in 16 columns: six for what stands before the point, the point, nine digits. The length by
// clause, as in `put_decimal`: of a part of a slice an array would be made by a conversion that can fail.
#[tactic(auto, using(crate::proofs::Shown::point))]
fn put_pointed(out: &mut [u8], b: Fixed)
    requires { length out.old ≡ 16 }
    ensures { out.new ≡ Promise.laid b.neg b.n }
{
    let (whole, rest) = out.split_at_mut(6);
    let (point, decimals) = rest.split_at_mut(1);
    put_signed(whole, b.neg, b.n / BILLION);
    point[0] = b'.';
    put_digits(decimals, b.n % BILLION);
}

// The billionths that the columns of x show, if it is finite and not too long for them.
#[tactic(auto, using(crate::proofs::Shown::not_finite, crate::proofs::Shown::beyond, crate::proofs::Shown::over, crate::proofs::Shown::fit))]
fn shown(x: f64) -> Option<Fixed>
    ensures { MatchOption result (Decimal.decimal x ≡ replicate 16 42) (λ b. Decimal.decimal x ≡ Promise.laid b.neg b.n) }
{
    if !is_finite(x) {
        return None;
    }
    billionths(x).filter(|b| b.n < limit(b.neg))
}

// The 16 columns of x.
pub(crate) fn put_decimal(out: &mut [u8], x: f64)
    requires { length out.old ≡ 16 }
    ensures { out.new ≡ Decimal.decimal x }
{
    match shown(x) {
        Some(b) => put_pointed(out, b),
        None => out.fill(b'*'),
    }
}

// The 16 columns of x in the first bytes of what is lent; where these are fewer, they are left.
#[tactic(auto, unfolding(sheet::specs::Refusals::need))]
pub fn decimal_text(x: f64, text: &mut [u8]) -> Result<usize, Refusal>
    ensures result_value { Operation.answer_of result ≡ Operation.decimal_answer (length text.old) }
    ensures text_after { text.new ≡ Operation.text_after (Operation.answer_of result) (Decimal.decimal x) text.old }
{
    if text.len() < 16 {
        return Err(Refusal::Short);
    }
    put_decimal(&mut text[..16], x);
    Ok(16)
}
