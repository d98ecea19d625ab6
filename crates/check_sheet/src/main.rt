// Reads a sheet from standard input and prints what Check answers, as specs/Listing.antt of
// `listing` defines it: `accepted n` and a line for each angle, `refused k`, or `too long` for more
// than 65,536 bytes. One byte more is read, which tells such input.
#![tactic(auto)]

use listing::check_text::deliver_check;
use text::input::with_input;

fn main(rt: HostRuntime) {
    let mut buffer = [0u8; 65537];
    with_input(&rt, &mut buffer, |input| {
        deliver_check(&rt, &mut rt.stdout(), input);
    });
}
