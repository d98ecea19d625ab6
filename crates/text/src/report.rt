// Lines that the programs print.
ghost use Rattle.std.specs.Prelude.{IsTrue, OnOk, codes, ◌++◌, ◌∷◌, []};
ghost use Rattle.std.specs.Io.KnownBytes.{Appends};
ghost use Rattle.digits.specs.Decimal as Decimal;
ghost use Rattle.text.specs.Numbered as Numbered;

use std::io;
use std::io::Write;

// Writes all of s, or says on standard error that it was not; whether all of it was written.
// A bool, since the failure is said here, and no more is known of it: callers that promise what was
// written, as `deliver_check` of `listing`, go by the yes, and the others drop the answer.
pub fn deliver<W: Write>(rt: &impl Eprint, to: &mut W, s: &[u8]) -> bool
    ensures { IsTrue result → Appends (W.contents to.old) (W.contents to.new) s.now }
{
    if to.write_all(s).is_ok() {
        return true;
    }
    let _ = rt.eprint("not written\n");
    false
}

// How many samples there are, how many of them differ, and how many bytes stand from the first line
// on that is none.
#[derive(Clone, Copy)]
pub struct Tally {
    pub samples: u64,
    pub differing: u64,
    pub unread: usize,
}

// A name, a space and a number in decimal, and the line's end. Where a part is not written, those behind it
// are tried all the same.
pub fn number<W: Write>(to: &mut W, name: &[u8], n: u64) -> io::Result<()>
    ensures { OnOk result (Appends (W.contents to.old) (W.contents to.new) (Numbered.numbered (name.now ++ (32 ∷ [])) n)) }
{
    let named = to.write_all(name);
    let parted = to.write_all(b" ");
    let counted = write!(to, "{n}");
    let ended = to.write_all(b"\n");
    named.and(parted).and(counted).and(ended)
}

// A name, its samples and how many of them differ, in a line.
pub fn samples<W: Write>(to: &mut W, name: &[u8], t: Tally) -> io::Result<()>
    ensures { OnOk result (Appends (W.contents to.old) (W.contents to.new)
        (Numbered.numbered (name.now ++ (32 ∷ []) ++ Decimal.whole t.samples ++ (32 ∷ [])) t.differing)) }
{
    let named = to.write_all(name);
    let parted = to.write_all(b" ");
    let counted = write!(to, "{}", t.samples);
    named
        .and(parted)
        .and(counted)
        .and(number(to, b"", t.differing))
}

// The bytes of the input that are no sample, in a line.
pub fn unread<W: Write>(to: &mut W, n: usize) -> io::Result<()>
    ensures { OnOk result (Appends (W.contents to.old) (W.contents to.new) (Numbered.numbered (codes "unread ") n)) }
{
    number(to, b"unread", n as u64)
}
