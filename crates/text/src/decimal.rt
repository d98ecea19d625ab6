// Lines with a number in decimal.
ghost use Rattle.std.specs.Prelude.{◌≡◌, ◌+◌, ◌≤◌, length};
ghost use Rattle.std.proofs.lemmas.List.Edits.{sets};
ghost use Rattle.digits.specs.Decimal as Decimal;
ghost use Rattle.text.specs.Numbered as Numbered;

use itoa::Buffer;

// The digits of n, written in the first bytes; how many they are. Into a slice, here and below: there is
// no heap, and what is tested for room is how long a slice the caller lends.
fn put_decimal(out: &mut [u8], n: u64) -> usize
    requires { 20 ≤ length out.old }
    ensures value { result ≡ length (Decimal.whole n) }
    ensures out_after { out.new ≡ sets out.old 0 (Decimal.whole n) }
    ensures upper_bound { result ≤ 20 }
{
    let mut buffer = Buffer::new();
    let digits = buffer.format(n).as_bytes();
    out[..digits.len()].copy_from_slice(digits);
    digits.len()
}

// A line, written in the first bytes: a word, n and the line's end; how many bytes it has.
pub fn put_number(out: &mut [u8], word: &[u8], n: u64) -> usize
    requires { length word.now + 21 ≤ length out.old }
    ensures value { result ≡ length (Numbered.numbered word.now n) }
    ensures out_after { out.new ≡ sets out.old 0 (Numbered.numbered word.now n) }
    ensures upper_bound { result ≤ length out.old }
{
    out[..word.len()].copy_from_slice(word);
    let end = word.len() + put_decimal(&mut out[word.len()..], n);
    out[end] = b'\n';
    end + 1
}
