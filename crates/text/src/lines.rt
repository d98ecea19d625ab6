// A line of words: a mark of one byte, then words of a space and 16 capital hexadecimal digits each,
// then its end. A line of k words has 17 * k + 2 bytes, and its word i the digits from 17 * i + 2 on.
ghost use Rattle.std.specs.Prelude.{◌≡◌, [], if◌then◌else◌, ◌+◌, ◌*◌, ◌<◌, ◌≤◌, nat_le, nat_lt, IfSome, length, replicate, take};
ghost use Rattle.std.specs.Prelude.{Some, None, option_copied, is_some};
ghost use Rattle.std.proofs.lemmas.List.Edits.{sets};
ghost use Rattle.digits.specs.Hex as Hex;
ghost use Rattle.text.specs.Lines as Lines;

use digits::hex;

// Room for a program's text, 3 MiB.
pub fn room() -> [u8; 3145728]
    ensures { result ≡ replicate 3145728 0 }
{
    [0; 3145728]
}

// Whether s, behind the mark, begins with k words, a space before each.
#[tactic(auto, unfolding(crate::specs::Lines::are_words))]
fn are_words(s: &[u8], k: usize) -> bool
    requires { 17 * k + 1 ≤ length s.now }
    ensures { result ≡ Lines.are_words s.now 1 k }
{
    (0..k).all(|i| s[17 * i + 1] == b' ' && hex::is_word(s, 17 * i + 2))
}

// The line of k words with which s begins.
#[tactic(auto, unfolding(crate::specs::Lines::is_line))]
pub fn line(s: &[u8], k: usize) -> Option<&[u8]>
    requires { k ≤ 65536 }
    ensures value { option_copied result ≡ (if Lines.is_line s.now 0 k then Some (take (17 * k + 2) s.now) else None) }
    ensures in_bounds { IfSome result (λ l. (0 < length l.now) × (length l.now ≤ length s.now)) }
{
    let end = 17 * k + 1;
    if s.len() <= end || s[end] != b'\n' || !are_words(s, k) {
        return None;
    }
    Some(&s[..end + 1])
}

// How many words a line of so many bytes has.
#[tactic(auto, unfolding(crate::specs::Lines::count))]
fn count(line: &[u8]) -> usize
    ensures { result ≡ Lines.count line.now }
{
    line.len().saturating_sub(2) / 17
}

// The word i of a line, or of what is as long as one; none behind the last.
#[tactic(auto, unfolding(crate::specs::Lines::count))]
pub fn word(line: &[u8], i: usize) -> Option<u64>
    ensures { result ≡ (if nat_lt i (Lines.count line.now) then Some (Hex.value line.now (17 * i + 2) 16) else None) }
{
    if count(line) <= i {
        return None;
    }
    Some(hex::word(line, 17 * i + 2))
}

// A count that is stored, where it is at most the most that there can be.
pub fn held(w: u64, most: usize) -> Option<usize>
    ensures value { result ≡ (if nat_le w most then Some w else None) }
    ensures upper_bound { IfSome result (λ n. n ≤ most) }
{
    usize::try_from(w).ok().filter(|n| *n <= most)
}

// The bytes of k words whose digits stand from `at` on, 17 bytes apart, eight to a word, in out.
// The place is a number, as in the definition. It answers always; `bytes` asks whether the words are there.
pub fn spell(line: &[u8], at: usize, k: usize, out: &mut [u8])
    requires { (0 < k → at + 17 * k ≤ length line.now) × (length out.old ≤ 8 * k) }
    ensures { out.new ≡ sets out.old 0 (Lines.bytes line.now at 0 (length out.old)) }
{
    for (i, b) in out.iter_mut().enumerate() {
        *b = hex::byte(line, at + 17 * (i / 8) + 2 * (i % 8));
    }
}

// The bytes of a line's words from number `first` on, eight to a word, in out; none where they are
// fewer than out holds, which is left.
#[tactic(auto, unfolding(crate::specs::Lines::count, crate::specs::Lines::fit))]
pub fn bytes(line: &[u8], first: usize, out: &mut [u8]) -> Option<()>
    ensures value { is_some result ≡ Lines.fit line.now first (length out.old) }
    ensures out_after { out.new ≡ sets out.old 0
        (if Lines.fit line.now first (length out.old) then Lines.bytes line.now (17 * first + 2) 0 (length out.old) else []) }
{
    let k = count(line).checked_sub(first)?;
    if 8 * k < out.len() {
        return None;
    }
    spell(line, 17 * first + 2, k, out);
    Some(())
}
