// A stored call of the operation Roots, made anew.
ghost use Rattle.std.specs.Prelude.{◌≤◌, IfSome};

use crate::calls::number;
use float::number::{bits, of_bits};
use polynomial::operation::roots;
use std::array::from_fn;
use text::lines::{held, word};

// The number of roots in an expected answer: none where it is below 0.
fn stored_roots(answer: u64) -> Option<usize>
    ensures { IfSome result (λ m. m ≤ 512) }
{
    if answer.cast_signed() < 0 {
        return Some(0);
    }
    held(answer, 512)
}

// The words that the line with which s begins has by its counts, where these are not too large.
pub(crate) fn words(s: &[u8]) -> Option<usize>
    ensures { IfSome result (λ n. n ≤ 1094) }
{
    let n = held(word(s, 0)?, 64)?;
    let m = stored_roots(word(s, n + 5)?)?;
    Some(n + m + m + 6)
}

// The bits of what place i of the result slice holds beforehand, another float at each place.
fn rubbish(i: usize) -> u64 {
    0xc3a5_5a3c_0000_0000 ^ i as u64
}

// Whether each place, by its bits, holds what it is to hold.
fn hold<T, B: Fn(&T) -> u64, W: Fn(usize) -> Option<u64>>(places: &[T], bits: B, wanted: W) -> bool
    requires bits { B.IsAlwaysCallable bits }
    requires wanted { W.IsAlwaysCallable wanted }
{
    for (i, place) in places.iter().enumerate() {
        if Some(bits(place)) != wanted(i) {
            return false;
        }
    }
    true
}

// Whether the call on these coefficients has the expected answer, and every place of the slices and
// behind them what it is to hold: a word of the line, or what it held before. In the line stand, from word
// 1 on, the bounds, the places, the bytes, the answer, the roots and their kinds.
fn replays(c: &[f64], line: &[u8]) -> Option<bool> {
    let places = held(word(line, 3)?, 512)?;
    let kept = held(word(line, 4)?, 512)?;
    let answer = word(line, 5)?;
    let m = stored_roots(answer)?;
    let mut result: [f64; 512] = from_fn(|i| of_bits(rubbish(i)));
    let mut kinds = [165; 512];
    let found = number(roots(
        c,
        of_bits(word(line, 1)?),
        of_bits(word(line, 2)?),
        &mut result[..places],
        &mut kinds[..kept],
    ));
    let root = |i| if i < m {
        word(line, i + 6)
    } else {
        Some(rubbish(i))
    };
    let kind = |i| if i < m {
        word(line, i + m + 6)
    } else {
        Some(165)
    };
    let hold_roots = hold(&result, |x| bits(*x), root);
    Some(found == answer && hold_roots && hold(&kinds, |k| u64::from(*k), kind))
}

// Whether Roots answers as a line says. From its last coefficient on it is a line again, of what follows.
pub(crate) fn agrees(line: &[u8]) -> Option<bool> {
    let n = held(word(line, 0)?, 64)?;
    let c: [f64; 64] = from_fn(|i| of_bits(word(line, i + 1).unwrap_or(0)));
    replays(&c[..n], line.get(17 * n..)?)
}
