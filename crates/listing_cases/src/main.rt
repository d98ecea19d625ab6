// Prints the texts of stored inputs of `check_sheet`, one after the other.
//
// A line of standard input is the mark I and words, each a space and 16 capital hexadecimal digits:
// how many bytes the input has, how many words of it are stored, and these words, eight bytes each in
// their order; what is not stored is zero. In this order: 01's whole sheet, the same job with a name
// in edition 2, 01's sheet that says edition 2 (32), 17 angles, a changed angle (36), no byte (31),
// 65,536 bytes (32), and one more (too long).
#![tactic(auto)]

ghost use Rattle.std.specs.Prelude.{◌≤◌, ◌<◌, IfSome, length};

use listing::check_text::deliver_check;
use text::input::with_input;
use text::lines::{bytes, held, line, word};

// The line of a stored input with which s begins: the mark, the size, the count of words and these. A line
// of more than 8,192 words is longer than the 65,536 bytes that are read.
fn case(s: &[u8]) -> Option<&[u8]>
    ensures { IfSome result (λ l. (0 < length l.now) × (length l.now ≤ length s.now)) }
{
    let stored = held(word(s, 1)?, 8192)?;
    line(s, stored + 2)
}

// Stores the input of a line in front of out, whose bytes are zero; how many bytes it has, where one
// more than Check looks at stands for any more.
fn input_of(line: &[u8], out: &mut [u8; 65537]) -> Option<usize>
    ensures { IfSome result (λ size. size ≤ 65537) }
{
    let size = word(line, 0)?.min(65537) as usize;
    let stored = held(word(line, 1)?, 8192)?;
    bytes(line, 2, &mut out[..8 * stored])?;
    Some(size)
}

// One after the other, to the first line that is none.
fn cases(rt: &HostRuntime, s: &[u8]) {
    let mut rest = s;
    while let Some(line) = case(rest) {
        let mut input = [0; 65537];
        if let Some(size) = input_of(line, &mut input) {
            deliver_check(rt, &mut rt.stdout(), &input[..size]);
        }
        rest = &rest[line.len()..];
    }
}

fn main(rt: HostRuntime) {
    let mut buffer = [0u8; 65536];
    with_input(&rt, &mut buffer, |input| cases(&rt, input));
}
