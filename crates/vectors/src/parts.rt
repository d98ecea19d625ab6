// A stored sample of module 4, worked out anew: the operands of the function that its mark names, and
// the numbers of its answer. A mark stays a byte, as `marks` says.
ghost use Rattle.std.specs.Prelude.{◌+◌, ◌≤◌};

use std::array::from_fn;
use text::lines::word;

// How many operands the function of a mark has, and how many numbers its answer has.
fn shape(mark: u8) -> (usize, usize)
    ensures { result.0 + result.1 ≤ 18 }
{
    match mark {
        b'4' => (2, 2),
        b'5' => (6, 3),
        b'6' => (4, 9),
        _ => (4, 14),
    }
}

// How many words its line has.
pub(crate) fn words(mark: u8) -> usize
    ensures { result ≤ 18 }
{
    let (operands, numbers) = shape(mark);
    operands + numbers
}

// The number i of the answer of the function that a mark names, for operands among the first six
// words.
fn number(mark: u8, [a, b, c, d, e, f]: [u64; 6], i: u64) -> u64 {
    match mark {
        b'4' => sampling_parts::parts_center(a, b, i),
        b'5' => sampling_parts::parts_limits(a, b, c, d, e, f, i),
        b'6' => sampling_parts::parts_interval(a, b, c, d, i / 3, i % 3),
        _ => sampling_parts::parts_pose(a, b, c, d, i),
    }
}

// Whether the sample of a mark and its line has the numbers that the library gives.
pub(crate) fn agrees(mark: u8, line: &[u8]) -> Option<bool> {
    let first = from_fn(|i| word(line, i).unwrap_or(0));
    let (operands, numbers) = shape(mark);
    // by the number, which tells `number` which of the answer's is wanted
    for i in 0..numbers {
        if number(mark, first, i as u64) != word(line, operands + i)? {
            return Some(false);
        }
    }
    Some(true)
}
