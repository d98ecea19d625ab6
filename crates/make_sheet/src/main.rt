// Reads a request from standard input and writes its sheet to standard output. On a refusal it
// writes one line, `refused k` with the papers' number, to standard error, and nothing to standard output:
// specs/Listing.antt of `listing` defines both. Sampling is lent 4,096 places and 65,536 bytes.
#![tactic(auto)]

use listing::make_text::make_text;
use sheet::request::REQUEST;
use text::input::with_input;
use text::report::deliver;

fn answer(rt: &HostRuntime, request: &[u8]) {
    let mut output = [0u8; 65536];
    let mut error = [0u8; 32];
    match make_text(request, &mut output, &mut error) {
        Ok(n) => deliver(rt, &mut rt.stdout(), &output[..n]),
        Err(n) => deliver(rt, &mut rt.stderr(), &error[..n]),
    };
}

// One byte more than a request has, so that a longer one is refused.
const ROOM: usize = REQUEST + 1;

fn main(rt: HostRuntime) {
    let mut request = [0u8; ROOM];
    with_input(&rt, &mut request, |input| answer(&rt, input));
}
