// The values at which joint 1 is tried, one at a time: the cuts of two halves, the middles of their
// neighbours and a reference, in order and with no value twice. They may be more than there are work
// places.
ghost use Rattle.std.specs.Prelude.{◌≡◌, get_or};
ghost use Rattle.std.specs.Float.{nan};
ghost use Rattle.sampling.specs.Promises.Stream.{weave};
ghost use Rattle.sampling.specs.Promises.Stream as Of;

use float::number::{middle, total_le};

// None left: a NaN, which comes last and equals no value. An Option would need an order of its own, in
// which None is last, for the least of three.
#[tactic(auto, unfolding(crate::proofs::Literals::div, crate::proofs::Literals::of_bits))]
fn none_left() -> f64
    ensures { result ≡ nan }
{
    f64::NAN
}

// The k-th of a list's cuts and middles alternately, or a NaN.
#[tactic(auto, using(crate::proofs::stream::Steps::weaving))]
fn woven(list: &[f64], k: usize) -> f64
    ensures { result ≡ get_or (weave list.now) k nan }
{
    let h = k / 2;
    if h >= list.len() {
        return none_left();
    }
    let x = list[h];
    if k % 2 == 0 {
        return x;
    }
    let next = h + 1;
    if next >= list.len() {
        return none_left();
    }
    middle(x, list[next])
}

// How many of each list's cuts and middles came, whether the reference came, and which value was
// the last: at first a NaN, which equals no value, so that one comparison serves the first as well.
#[derive(Clone, Copy)]
pub struct Cursor {
    pub i: usize,
    pub j: usize,
    pub used: bool,
    pub last: f64,
}

// A value and the cursor behind it, or the end.
pub type Step = Option<(f64, Cursor)>;

pub(crate) fn start() -> Cursor
    ensures { result ≡ Of.start }
{
    Cursor {
        i: 0,
        j: 0,
        used: false,
        last: none_left(),
    }
}

// The least of what the lists and the reference have next.
#[tactic(auto, using(crate::proofs::stream::Steps::index_in), unfolding(crate::specs::Promises::Stream::advance, crate::specs::Promises::Stream::least))]
fn advance(a: &[f64], b: &[f64], r: f64, c: Cursor) -> Step
    ensures { result ≡ Of.advance a.now b.now r c }
{
    let i = c.i;
    let j = c.j;
    let used = c.used;
    let mut to = c;
    let x = woven(a, i);
    let y = woven(b, j);
    let z = if used { none_left() } else { r };
    if total_le(x, y) {
        if total_le(x, z) {
            if x.is_nan() {
                return None;
            }
            to.i = i + 1;
            return Some((x, to));
        }
    }
    if total_le(y, z) {
        if y.is_nan() {
            return None;
        }
        to.j = j + 1;
        return Some((y, to));
    }
    if z.is_nan() {
        return None;
    }
    to.used = true;
    Some((z, to))
}

// The next value that does not equal the last one.
#[tactic(auto, using(crate::proofs::stream::Steps::skipping), unfolding(crate::specs::Promises::Stream::next))]
pub(crate) fn next(a: &[f64], b: &[f64], r: f64, c: Cursor) -> Step
    ensures { result ≡ Of.next a.now b.now r c }
{
    let last = c.last;
    let mut at = c;
    loop {
        let (y, d) = advance(a, b, r, at)?;
        if y != last {
            return Some((y, Cursor { last: y, ..d }));
        }
        at = d;
    }
}
