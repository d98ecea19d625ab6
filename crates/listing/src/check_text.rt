// What `check_sheet` prints of its input.
ghost use Rattle.std.specs.Prelude.{◌≡◌, ◌≤◌, ◌<◌, length, IsTrue, MatchOption};
ghost use Rattle.std.specs.Io.KnownBytes.{Appends};
ghost use Rattle.sheet.specs.Edition.{newest};
ghost use Rattle.sheet.specs.Check as Check;
ghost use Rattle.sheet.specs.Refusals as Refusals;
ghost use Rattle.listing.specs.Listing as Listing;

use crate::printed::{print, print_numbered};
use polynomial::refusals::Numbered;
use sheet::check::check;
use sheet::refusals::Fault;
use std::io::Write;
use text::report::deliver;

// What Check, lent 4,096 places, says of at most 65,536 bytes; none of more, which are too long.
pub(crate) fn checked(input: &[u8]) -> Option<Result<usize, Fault>>
    ensures { MatchOption result (Listing.most < length input.now)
        (λ a. (length input.now ≤ Listing.most) × (Check.answer_of a ≡ Check.answer newest input.now Listing.places)) }
{
    if input.len() > 65536 {
        return None;
    }
    let mut work = [0.0; 4096];
    Some(check(input, &mut work))
}

// The line of a refusal.
#[tactic(auto, using(crate::proofs::Lines::alone))]
pub(crate) fn print_refusal(text: &mut [u8], f: Fault) -> Option<usize>
    ensures value { result ≡ Listing.printed (Listing.head (Refusals.refused (Refusals.fault_number f))) (length text.old) }
    ensures text_after { text.new ≡ Listing.after (Listing.head (Refusals.refused (Refusals.fault_number f))) text.old }
{
    print_numbered(text, b"refused ", u64::from(f.number()), b"")
}

// The text, in the first bytes of what is lent; how many bytes it has, where as many are lent. `pages_text`
// differs in the Ok arm: with that as a closure, one function's clauses would say all three ends over it.
#[tactic(auto, using(crate::proofs::Ends::checked_texts))]
pub fn check_text(input: &[u8], text: &mut [u8]) -> Option<usize>
    ensures value { result ≡ Listing.printed (Listing.check_text input.now) (length text.old) }
    ensures text_after { text.new ≡ Listing.after (Listing.check_text input.now) text.old }
{
    let Some(checked) = checked(input) else {
        return print(text, b"too long\n", b"");
    };
    match checked {
        Ok(n) => print_numbered(text, b"accepted ", n as u64, &input[..8 * n]),
        Err(f) => print_refusal(text, f),
    }
}

// Writes the text; whether all of it was written. So many bytes always suffice, by `room_suffices` of the
// Laws.
#[tactic(auto, using(crate::proofs::Ends::written_whole))]
pub fn deliver_check<W: Write>(rt: &impl Eprint, to: &mut W, input: &[u8]) -> bool
    ensures { IsTrue result → Appends (W.contents to.old) (W.contents to.new) (Listing.check_text input.now) }
{
    let mut text = [0u8; 147456];
    let Some(n) = check_text(input, &mut text) else {
        return false;
    };
    deliver(rt, to, &text[..n])
}
