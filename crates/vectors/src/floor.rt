// The float floor's functions by their letters, on words: a float by its bits, a test by 1 or 0,
// and floor's whole number in two's complement. A letter stays a byte, as `marks` says.
ghost use Rattle.std.specs.Prelude.{◌≤◌, IfSome};

use float::number::{bits, of_bits};
use text::lines::word;

// How many words the line of a letter has: the operands, and the result.
pub(crate) fn words(letter: u8) -> Option<usize>
    ensures { IfSome result (λ n. (2 ≤ n) × (n ≤ 4)) }
{
    match letter {
        b'B' | b'F' | b'P' | b'A' | b'C' | b'L' | b'S' => Some(2),
        b'T' | b'R' | b'N' | b'X' | b'E' => Some(3),
        b'M' => Some(4),
        b's' | b'c' | b't' | b'a' | b'o' | b'i' => Some(2),
        b'h' | b'q' => Some(3),
        _ => None,
    }
}

// A function of one operand.
fn floor_one(letter: u8, a: u64) -> u64 {
    let x = of_bits(a);
    match letter {
        b'B' => bits(x),
        b'F' => u64::from(float::number::is_finite(x)),
        b'P' => u64::from(float::number::is_sign_positive(x)),
        b'A' => bits(float::number::abs(x)),
        b'C' => bits(float::number::clamp(x)),
        b'L' => float::number::floor(x).cast_unsigned(),
        _ => bits(float::sqrt::sqrt(x)),
    }
}

// A function of two operands.
fn floor_two(letter: u8, a: u64, b: u64) -> u64 {
    let x = of_bits(a);
    let y = of_bits(b);
    match letter {
        b'T' => u64::from(float::number::total_le(x, y)),
        b'R' => bits(float::number::rem_euclid(x, y)),
        b'N' => bits(float::number::minimum(x, y)),
        b'X' => bits(float::number::maximum(x, y)),
        _ => bits(float::product_error::product_error(x, y)),
    }
}

// The fused product.
fn three(a: u64, b: u64, c: u64) -> u64 {
    bits(float::mul_add::mul_add(of_bits(a), of_bits(b), of_bits(c)))
}

// The function of one operand that a letter names: the trigonometry has the small letters.
fn one(letter: u8, a: u64) -> u64 {
    if letter < b'a' {
        return floor_one(letter, a);
    }
    crate::angles::one(letter, a)
}

// The function of two operands that a letter names.
fn two(letter: u8, a: u64, b: u64) -> u64 {
    if letter < b'a' {
        return floor_two(letter, a, b);
    }
    crate::angles::two(letter, a, b)
}

// Whether the sample of a letter and its line of n words has the result that the library gives; none
// where there are too few words.
pub(crate) fn agrees(letter: u8, line: &[u8]) -> Option<bool> {
    let n = words(letter)?;
    let result = match n {
        2 => one(letter, word(line, 0)?),
        3 => two(letter, word(line, 0)?, word(line, 1)?),
        _ => three(word(line, 0)?, word(line, 1)?, word(line, 2)?),
    };
    Some(result == word(line, n - 1)?)
}
