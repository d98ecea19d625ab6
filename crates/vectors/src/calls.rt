// A stored call of Sampling or Check, made anew.
ghost use Rattle.std.specs.Prelude.{◌≤◌, IfSome};

use crate::digest::digest;
use float::number::bits;
use polynomial::refusals::Numbered;
use sheet::check::check;
use sheet::sample::sample;
use text::lines::{bytes, held, word};

// How many words stand before the bytes. A mark stays a byte, for the reason at the head of `marks.rt`.
fn head(mark: u8) -> usize
    ensures { result ≤ 6 }
{
    match mark {
        b'8' => 5,
        b'9' => 3,
        _ => 6,
    }
}

// The words that the line with which s begins has by its mark and its length, where this is not too
// large.
pub(crate) fn words(mark: u8, s: &[u8]) -> Option<usize>
    ensures { IfSome result (λ n. n ≤ 518) }
{
    let n = held(word(s, 0)?, 4096)?;
    Some(head(mark) + n.div_ceil(8))
}

// An answer as it is stored: the count, or minus the number of the refusal, in two's complement. By
// itself, since `signed_number` of `lemongully` says the same of i64, and no crate can cite that archive.
pub(crate) fn number<E: Numbered>(answer: Result<usize, E>) -> u64 {
    match answer {
        Ok(n) => n as u64,
        Err(k) => 0u64.wrapping_sub(u64::from(k.number())),
    }
}

// Whether every place of the work holds what it is to hold: +0.0 where it was lent, else the 7.5 that
// it held beforehand.
fn is_cleared(lent: &[f64], left: &[f64]) -> bool {
    lent.iter().all(|x| bits(*x) == 0) && left.iter().all(|x| bits(*x) == bits(7.5))
}

// Whether an operation, on the bytes of a line from word `first` on and so many places, has the answer
// and leaves the work as it is to be; none where the line has too few words or its counts are too large.
pub(crate) fn replays<E: Numbered, F: FnOnce(&[u8], &mut [f64]) -> Result<usize, E>>(
    line: &[u8],
    first: usize,
    places: u64,
    answer: u64,
    operation: F,
) -> Option<bool>
    requires { F.IsAlwaysCallable operation }
{
    let n = held(word(line, 0)?, 4096)?;
    let mut stored = [0; 4096];
    bytes(line, first, &mut stored[..n])?;
    let mut work = [7.5; 4096];
    let (lent, left) = work.split_at_mut(held(places, 4096)?);
    let found = number(operation(&stored[..n], lent));
    Some(found == answer && is_cleared(lent, left))
}

// Whether Sampling answers as a line says, with the digest of the output that it says.
fn sample_agrees(line: &[u8]) -> Option<bool> {
    let room = held(word(line, 2)?, 8192)?;
    let mut output = [165; 8192];
    let lent = &mut output[..room];
    let agrees = replays(line, 5, word(line, 1)?, word(line, 3)?, |request, work| {
        sample(request, work, lent)
    })?;
    Some(agrees && digest(&output) == word(line, 4)?)
}

// Whether Check answers as a line says.
fn check_agrees(line: &[u8]) -> Option<bool> {
    replays(
        line,
        3,
        word(line, 1)?,
        word(line, 2)?,
        |sheet, work| check(sheet, work),
    )
}

// Whether the call of a mark and its line answers as stored.
pub(crate) fn agrees(mark: u8, line: &[u8]) -> Option<bool> {
    match mark {
        b'8' => sample_agrees(line),
        _ => check_agrees(line),
    }
}
