// The C interface: the operations Sampling and Check, their answers by the papers' numbers.
ghost use Rattle.std.specs.Prelude.{◌≡◌, length};
ghost use Rattle.sheet.specs.Bytes as Bytes;
ghost use Rattle.sheet.specs.Edition.{newest};
ghost use Rattle.sheet.specs.Refusals as Refusals;
ghost use Rattle.sheet.specs.Sampling as Sampling;
ghost use Rattle.sheet.specs.Check as Check;

use crate::numbers::signed_number;
use sheet::check::check;
use sheet::sample::sample;

// Success fills the first bytes of the output with the sheet; a refusal leaves it. After every
// answer each work place is +0.0.
#[tactic(auto, using(crate::proofs::Signed::signed_sampled, crate::proofs::Signed::small_sampled))]
#[unsafe(no_mangle)]
pub extern "C" fn sheet_sample(request: &[u8], work: &mut [f64], output: &mut [u8]) -> i64
    ensures value { result ≡ Refusals.signed (Sampling.answer request.now (length work.old) (length output.old)) }
    ensures output_after { output.new ≡
        Sampling.output_after (Sampling.answer request.now (length work.old) (length output.old))
        request.now output.old }
    ensures work_after { work.new ≡ Bytes.zeros (length work.old) }
{
    signed_number(sample(request, work, output))
}

// After every answer each work place is +0.0.
#[tactic(auto, using(crate::proofs::Signed::signed_checked, crate::proofs::Signed::small_checked))]
#[unsafe(no_mangle)]
pub extern "C" fn sheet_check(sheet: &[u8], work: &mut [f64]) -> i64
    ensures value { result ≡ Refusals.signed (Check.answer newest sheet.now (length work.old)) }
    ensures work_after { work.new ≡ Bytes.zeros (length work.old) }
{
    signed_number(check(sheet, work))
}
