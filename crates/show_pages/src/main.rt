// Reads a sheet from standard input and prints its pages, a form feed between, as specs/Pages.antt
// of `listing` defines it; `refused k`, or `too long` for more than 65,536 bytes, as `check_sheet`
// says it. One byte more is read, which tells such input.
#![tactic(auto)]

use listing::pages_text::pages_text;
use text::input::with_input;
use text::lines::room;
use text::report::deliver;

// 540,672 bytes always suffice, by `pages_suffice` of listing's Laws, and `room` has more.
fn answer(rt: &HostRuntime, input: &[u8]) {
    let mut text = room();
    if let Some(n) = pages_text(input, &mut text) {
        deliver(rt, &mut rt.stdout(), &text[..n]);
    }
}

fn main(rt: HostRuntime) {
    let mut buffer = [0u8; 65537];
    with_input(&rt, &mut buffer, |input| answer(&rt, input));
}
