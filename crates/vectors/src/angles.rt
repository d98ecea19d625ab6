// The trigonometry by its letters, on words: a float by its bits. A letter stays a byte, as `marks` says.
use float::number::{bits, of_bits};

// A function of one operand.
pub(crate) fn one(letter: u8, a: u64) -> u64 {
    let x = of_bits(a);
    match letter {
        b's' => bits(float::trig::sin(x)),
        b'c' => bits(float::trig::cos(x)),
        b't' => bits(float::trig::tan(x)),
        b'a' => bits(float::arc::atan(x)),
        b'o' => bits(float::arc::acos(x)),
        _ => bits(float::arc::asin(x)),
    }
}

// A function of two operands; those of atan2 are y and x.
pub(crate) fn two(letter: u8, a: u64, b: u64) -> u64 {
    let first = of_bits(a);
    let second = of_bits(b);
    match letter {
        b'h' => bits(float::trig::hypot(first, second)),
        _ => bits(float::arc::atan2(first, second)),
    }
}
