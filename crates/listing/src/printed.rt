// A first line and a line for each item, in lent bytes.
ghost use Rattle.std.specs.Prelude.{◌≡◌, ◌++◌, ◌∷◌, [], ◌*◌, ◌/◌, ◌≤◌, length};
ghost use Rattle.digits.specs.Hex as Hex;
ghost use Rattle.text.specs.Numbered as Numbered;
ghost use Rattle.listing.specs.Listing as Listing;

use digits::hex::put_word;
use sheet::bytes::word;
use text::decimal::put_number;

// The bytes of a line: 16 digits and the line's end.
const LINE: usize = 17;

// The 16 digits of w and the line's end. The length by clause: an array would be made of the slice by a
// conversion that can fail.
fn put_line(line: &mut [u8], w: u64)
    requires { length line.old ≡ 17 }
    ensures { line.new ≡ Hex.spelled 16 w ++ (10 ∷ []) }
{
    put_word(&mut line[..16], w);
    line[16] = b'\n';
}

// The lines of items, of eight bytes each.
fn put_lines(text: &mut [u8], items: &[u8])
    requires { length text.old ≡ 17 * (length items.now / 8) }
    ensures { text.new ≡ Listing.lines items.now 0 (length items.now / 8) }
{
    // text by the index: what is written through `chunks_exact_mut` is not known afterwards
    for (i, item) in items.chunks_exact(8).enumerate() {
        let line = &mut text[LINE * i..LINE * (i + 1)];
        put_line(line, word(item, 0));
    }
}

// The first line and those of the items, where they have room; how many bytes they are. Into a slice, as
// there is no heap, and no `Write`: where all of it has no room, none is written.
#[tactic(auto, using(crate::proofs::Lines::fits_both, crate::proofs::Lines::fails, crate::proofs::Lines::length_text))]
pub(crate) fn print(text: &mut [u8], head: &[u8], items: &[u8]) -> Option<usize>
    requires { (length head.now ≤ 32) × (length items.now ≤ 65536) }
    ensures value { result ≡ Listing.printed (head.now ++ Listing.lines items.now 0 (length items.now / 8)) (length text.old) }
    ensures text_after { text.new ≡ Listing.after (head.now ++ Listing.lines items.now 0 (length items.now / 8)) text.old }
{
    let more = LINE * (items.len() / 8);
    let size = head.len() + more;
    if text.len() < size {
        return None;
    }
    let (first, rest) = text.split_at_mut(head.len());
    first.copy_from_slice(head);
    put_lines(&mut rest[..more], items);
    Some(size)
}

// The same where the first line has a word and a number.
#[tactic(auto, using(crate::proofs::Lines::front))]
pub(crate) fn print_numbered(text: &mut [u8], word: &[u8], k: u64, items: &[u8]) -> Option<usize>
    requires { (length word.now ≤ 11) × (length items.now ≤ 65536) }
    ensures value { result ≡ Listing.printed (Numbered.numbered word.now k ++ Listing.lines items.now 0 (length items.now / 8)) (length text.old) }
    ensures text_after { text.new ≡ Listing.after (Numbered.numbered word.now k ++ Listing.lines items.now 0 (length items.now / 8)) text.old }
{
    let mut head = [0u8; 32];
    let size = put_number(&mut head, word, k);
    print(text, &head[..size], items)
}
