// Replays stored answers of the oracle: reads lines of text from standard input, works each out
// anew, and prints a line for each mark: its name, its samples, and how many differ. The last line
// is the number of bytes from the first line on that is no sample.
//
// A line is its mark and words, each a space and 16 capital hexadecimal digits; a float stands by its
// bits, a test by 1 for yes and 0 for no, a number below 0 in two's complement.
//
// Functions of the float floor and the trigonometry, operands and result (`--bin samples`):
//
//     B bits                A abs           N minimum    L floor
//     F is_finite           T total_le      X maximum    M mul_add
//     P is_sign_positive    R rem_euclid    C clamp      S sqrt
//                                                        E product_error
//     s sin    t tan      a atan            o acos
//     c cos    h hypot    q atan2 (y, x)    i asin
//
// Roots (`--bin root_samples`): 1 an example of document 01 that is proved too, 2 another example of
// 01 or 02, 3 a call by the oracle's generator; the number of floats and each of them, the bounds,
// the places of the result slice, the bytes of the kinds, the answer, the roots and their kinds.
//
// Module 4 (`--bin part_samples`), operands and every number of the answer:
//
//     4 parts_center      from, to                                       2 numbers
//     5 parts_limits      limited, sign, offset, reference, from, to     3 numbers
//     6 parts_interval    center, tolerance, reference, sign             3 numbers of each of 3
//     7 parts_pose        x, y, z, w                                     14 numbers
//
// Operations (`--bin sheet_samples`): 8 Sampling: bytes, places, room, answer, digest, request;
// 9 Check: bytes, places, answer, sheet. The digest is FNV-1a of the output's 8,192 bytes afterwards,
// which hold 165 beforehand; request and sheet stand eight bytes to a word, zeros behind the last.
//
// Pages (`--bin page_samples`): D a decimal: a float and its 16 bytes, eight to a word; 0 Page: bytes,
// page, places, room, answer, digest of the text's 8,192 bytes afterwards, sheet.
//
// The input is what the five programs of oracle/ write, one after the other.
#![tactic(auto)]

mod angles;
mod calls;
mod digest;
mod floor;
mod marks;
mod pages;
mod parts;
mod roots;

use crate::marks::{agrees, line};
use std::io;
use std::io::Write;
use text::input::with_input;
use text::report::Tally;

// The marks in the order in which they are printed, and their names.
const NAMES: [(u8, &str); 32] = [
    (b'B', "bits"),
    (b'F', "is_finite"),
    (b'P', "is_sign_positive"),
    (b'A', "abs"),
    (b'T', "total_le"),
    (b'R', "rem_euclid"),
    (b'N', "minimum"),
    (b'X', "maximum"),
    (b'C', "clamp"),
    (b'L', "floor"),
    (b'M', "mul_add"),
    (b'S', "sqrt"),
    (b'E', "product_error"),
    (b's', "sin"),
    (b'c', "cos"),
    (b't', "tan"),
    (b'h', "hypot"),
    (b'a', "atan"),
    (b'q', "atan2"),
    (b'o', "acos"),
    (b'i', "asin"),
    (b'1', "proved"),
    (b'2', "examples"),
    (b'3', "generated"),
    (b'4', "center"),
    (b'5', "limits"),
    (b'6', "interval"),
    (b'7', "pose"),
    (b'8', "sampling"),
    (b'9', "check"),
    (b'D', "decimal"),
    (b'0', "page"),
];

// The samples of a mark, and what stands from the first line on that is none.
fn counted(s: &[u8], mark: u8) -> Tally {
    let mut samples = 0;
    let mut differing = 0;
    let mut rest = s;
    while let Some((m, sample)) = line(rest) {
        if m == mark {
            samples += 1;
            differing += u64::from(agrees(m, sample) != Some(true));
        }
        rest = &rest[sample.len()..];
    }
    Tally {
        samples,
        differing,
        unread: rest.len(),
    }
}

// Prints a line for each mark, and the bytes from the first line on that is no sample. Where one is not
// written, those behind it are tried all the same.
fn replay<W: Write>(to: &mut W, s: &[u8]) -> io::Result<()> {
    let mut rest = s.len();
    let mut written = Ok(());
    for (mark, name) in &NAMES {
        let tally = counted(s, *mark);
        written = written.and(text::report::samples(to, name.as_bytes(), tally));
        rest = tally.unread;
    }
    written.and(text::report::unread(to, rest))
}

fn main(rt: HostRuntime) {
    let mut text = text::lines::room();
    with_input(&rt, &mut text, |input| {
        // Output that cannot be written has gaps, which its reader sees.
        let _ = replay(&mut rt.stdout(), input);
    });
}
