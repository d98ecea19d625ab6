// What `make_sheet` writes to standard output and to standard error.
ghost use Rattle.std.specs.Prelude.{◌≡◌, [], ◌≤◌, length, MatchResult};
ghost use Rattle.listing.specs.Listing as Listing;

use polynomial::refusals::Numbered;
use sheet::sample::sample;
use sheet::trailer::FRAME;
use text::decimal::put_number;

// Both texts, each in the first bytes of what is lent; how many bytes of the sheet go to standard output,
// and nothing to standard error, or else how many of the refusal's line to standard error, and nothing to
// standard output. Sampling is lent 4,096 places.
#[tactic(auto, using(sheet::specs::Laws::Accepted::answer_room, crate::proofs::Ends::sheet_whole, crate::proofs::Ends::refused_filled))]
pub fn make_text(request: &[u8], output: &mut [u8], error: &mut [u8]) -> Result<usize, usize>
    requires { 32 ≤ length error.old }
    ensures output_value { MatchResult result (λ n. n ≡ length (Listing.make_output request.now (length output.old)))
        (λ _. Listing.make_output request.now (length output.old) ≡ []) }
    ensures error_value { MatchResult result (λ _. Listing.make_error request.now (length output.old) ≡ [])
        (λ n. n ≡ length (Listing.make_error request.now (length output.old))) }
    ensures output_after { output.new ≡ Listing.filled (Listing.make_output request.now (length output.old)) output.old }
    ensures error_after { error.new ≡ Listing.filled (Listing.make_error request.now (length output.old)) error.old }
    ensures in_bounds { MatchResult result (λ n. n ≤ length output.old) (λ n. n ≤ length error.old) }
{
    let mut work = [0.0; 4096];
    match sample(request, &mut work, output) {
        Ok(n) => Ok(8 * n + FRAME),
        Err(k) => Err(put_number(error, b"refused ", u64::from(k.number()))),
    }
}
