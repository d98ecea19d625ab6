// Lines of 64 characters and a line feed.
ghost use Rattle.std.specs.Prelude.{◌≡◌, map, ◌+◌, ◌*◌, ◌/◌, ◌≤◌, ◌<◌, length};
ghost use Rattle.sheet.specs.Bytes as Bytes;
ghost use Rattle.page.specs.Page as Page;

use crate::decimal::put_decimal;
use digits::decimal::put_signed;
use digits::hex::put_word;
use float::number::of_bits;
use sheet::bytes::word;

// The bytes of a line: 64 characters and a line feed.
pub const LINE: usize = 65;

// The line of an angle, by its bits. The length by clause, as in `put_head`: of a part of a slice an array
// would be made by a conversion that can fail.
#[tactic(auto, using(crate::proofs::Stores::line_is))]
fn put_line(line: &mut [u8], place: u64, angle: u64)
    requires { (length line.old ≡ 65) × (place < 1000000) }
    ensures { line.new ≡ Page.line place angle }
{
    line.fill(b' ');
    put_signed(&mut line[..6], false, place);
    put_word(&mut line[8..24], angle);
    put_decimal(&mut line[26..42], of_bits(angle));
    line[64] = b'\n';
}

// The lines of angles, of eight bytes each, the first of them at a place.
pub(crate) fn put_lines(out: &mut [u8], angles: &[u8], place: usize)
    requires { (length out.old ≡ 65 * (length angles.now / 8)) × (place + length angles.now / 8 ≤ 1000000) }
    ensures { out.new ≡ Page.lines place (Bytes.words (length angles.now / 8) angles.now) }
{
    // out by the index: what is written through `chunks_exact_mut` is not known afterwards
    for (i, angle) in angles.chunks_exact(8).enumerate() {
        let line = &mut out[LINE * i..LINE * (i + 1)];
        put_line(line, (place + i) as u64, word(angle, 0));
    }
}

// A byte of the name, a zero as a blank.
fn letter(b: u8) -> u8
    ensures { result ≡ Page.letter b }
{
    if b == 0 { b' ' } else { b }
}

fn put_name(out: &mut [u8], name: &[u8])
    requires { length out.old ≡ length name.now }
    ensures { out.new ≡ map Page.letter name.now }
{
    // name by the index: what is written through a `zip` with `iter_mut` is not known afterwards
    for (i, b) in out.iter_mut().enumerate() {
        *b = letter(name[i]);
    }
}

// The first line of a page.
#[tactic(auto, using(crate::proofs::Stores::head_is))]
pub(crate) fn put_head(line: &mut [u8], name: &[u8])
    requires { (length name.now ≤ 32) × (length line.old ≡ 65) }
    ensures { line.new ≡ Page.name_line name.now }
{
    line.fill(b' ');
    put_name(&mut line[..name.len()], name);
    line[64] = b'\n';
}
