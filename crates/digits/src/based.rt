// Digits in a base of at most 16, written from the right: the decimal and the hexadecimal ones.
ghost use Rattle.std.specs.Prelude.{◌≡◌, ◌≤◌, ◌<◌, length};
ghost use Rattle.digits.specs.Decimal as Decimal;
ghost use Rattle.digits.specs.Hex as Hex;
ghost use Rattle.digits.specs.Promises.Based as Based;

// A digit of a value below 16: 0 to 9, then A to F.
pub fn figure(d: u64) -> u8
    requires { d < 16 }
    ensures letter { result ≡ Hex.letter d }
    ensures figure { d < 10 → result ≡ Decimal.figure d }
{
    match d {
        0..=9 => b'0' + d as u8,
        _ => b'A' + (d - 10) as u8,
    }
}

// The lowest digits of n, as many as the slice has places.
#[tactic(auto, using(crate::proofs::FromRight::digit_more), unfolding(crate::specs::Promises::Based::digits))]
pub(crate) fn put_based<const BASE: u64>(out: &mut [u8], n: u64)
    requires { (2 ≤ BASE) × (BASE ≤ 16) }
    ensures { out.new ≡ Based.digits BASE (length out.old) n }
{
    let mut left = n;
    // by the index: what is written through `iter_mut().rev()` is not known afterwards
    for i in (0..out.len()).rev() {
        out[i] = figure(left % BASE);
        left /= BASE;
    }
}
