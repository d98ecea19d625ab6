// Capital hexadecimal digits in ASCII, the highest first.
ghost use Rattle.std.specs.Prelude.{◌≡◌, ◌+◌, ◌≤◌, ◌<◌, length};
ghost use Rattle.std.specs.List.{list_all};
ghost use Rattle.digits.specs.Hex as Hex;

use crate::based::put_based;

// Whether a byte is a digit: 0 to 9, or A to F. One pattern of both ranges would branch at the first, and
// the 16 digits of a word would not be tested at once.
fn is_digit(b: u8) -> bool
    ensures { result ≡ Hex.is_digit b }
{
    matches!(b, b'0'..=b'9') | matches!(b, b'A'..=b'F')
}

// The value of a digit, and 0 for any other byte, as the definition has it: a word has a value whatever
// its bytes are, and `is_word` says whether they are digits.
#[tactic(auto, unfolding(crate::specs::Hex::digit))]
fn digit(b: u8) -> u64
    ensures { result ≡ Hex.digit b }
{
    match b {
        b'0'..=b'9' => u64::from(b - b'0'),
        b'A'..=b'F' => u64::from(b - b'A' + 10),
        _ => 0,
    }
}

// Whether all bytes are digits. Each is tested, so that those of a word are tested at once: `all`, which
// stops at the first other byte, would test them one by one.
fn are_digits(bytes: &[u8]) -> bool
    ensures { result ≡ list_all Hex.is_digit bytes.now }
{
    bytes.iter().fold(true, |good, b| good & is_digit(*b))
}

// Whether the 16 bytes at `at` are digits. The place is a number here and in `word` and `byte`, as in the
// definitions: a caller who cut the bytes out would do so under the same clause.
#[tactic(auto, using(crate::proofs::Spelled::digits_of_part))]
pub fn is_word(s: &[u8], at: usize) -> bool
    requires { at + 16 ≤ length s.now }
    ensures { result ≡ Hex.digits s.now at 16 }
{
    are_digits(&s[at..at + 16])
}

// The number that digits stand for.
#[tactic(auto, using(crate::proofs::Spelled::more_fits), unfolding(crate::specs::Hex::value))]
fn value(digits: &[u8]) -> u64
    requires { length digits.now ≤ 16 }
    ensures { result ≡ Hex.value digits.now 0 (length digits.now) }
{
    let mut number = 0;
    for b in digits {
        number = number * 16 + digit(*b);
    }
    number
}

// The number that the 16 digits at `at` stand for.
#[tactic(auto, using(crate::proofs::Spelled::value_of_part))]
pub fn word(s: &[u8], at: usize) -> u64
    requires { at + 16 ≤ length s.now }
    ensures { result ≡ Hex.value s.now at 16 }
{
    value(&s[at..at + 16])
}

// The byte that the two digits at `at` stand for.
#[tactic(auto, using(crate::proofs::Spelled::value_of_part, crate::proofs::Spelled::value_below))]
pub fn byte(s: &[u8], at: usize) -> u8
    requires { at + 2 ≤ length s.now }
    ensures { result ≡ Hex.value s.now at 2 }
{
    value(&s[at..at + 2]) as u8
}

// The lowest digits of w, as many as the slice has places.
#[tactic(auto, using(crate::specs::Laws::Based::spelled_is))]
pub fn put_word(out: &mut [u8], w: u64)
    ensures { out.new ≡ Hex.spelled (length out.old) w }
{
    put_based::<16>(out, w);
}
