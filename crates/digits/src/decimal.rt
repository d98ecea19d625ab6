// Whole numbers in decimal, in ASCII, written from the right.
ghost use Rattle.std.specs.Prelude.{◌≡◌, ◌-◌, ◌<◌, length};
ghost use Rattle.digits.specs.Decimal as Decimal;
ghost use Rattle.digits.specs.Promises.Columns as Columns;

use crate::based::{figure, put_based};

// The lowest digits of n, as many as the slice has places.
#[tactic(auto, using(crate::specs::Laws::Based::decimal_is))]
pub fn put_digits(out: &mut [u8], n: u64)
    ensures { out.new ≡ Decimal.digits (length out.old) n }
{
    put_based::<10>(out, n);
}

// The byte before the digits that are left. The sign and the digits by themselves here and in the next
// two: from column to column they change apart, and a struct would be made anew for each.
#[tactic(auto, unfolding(crate::specs::Promises::Columns::mark))]
fn mark(neg: bool, n: u64) -> u8
    ensures { result ≡ Columns.mark neg n }
{
    match n {
        1.. => figure(n % 10),
        0 if neg => b'-',
        0 => b' ',
    }
}

// The digits that are left, a minus and blanks, in all places of the slice.
#[tactic(auto, using(crate::proofs::FromRight::column_more), unfolding(crate::specs::Promises::Columns::before))]
fn put_before(out: &mut [u8], neg: bool, n: u64)
    ensures { out.new ≡ Columns.before (length out.old) neg n }
{
    let mut minus = neg;
    let mut left = n;
    // by the index: what is written through `iter_mut().rev()` is not known afterwards
    for i in (0..out.len()).rev() {
        out[i] = mark(minus, left);
        minus &= 0 < left;
        left /= 10;
    }
}

// The digits of n, at least one, a minus before them and blanks, in all places of the slice.
pub fn put_signed(out: &mut [u8], neg: bool, n: u64)
    requires { 0 < length out.old }
    ensures { out.new ≡ Columns.number (length out.old - 1) neg n }
{
    let end = out.len() - 1;
    put_before(&mut out[..end], neg, n / 10);
    out[end] = figure(n % 10);
}
