// Demand 3 as a statement about two calls of Sampling: what matters is the contract.
ghost use Rattle.std.specs.Prelude.{◌≡◌, length};
ghost use Rattle.sheet.specs.Bytes as Bytes;
ghost use Rattle.sheet.specs.Sampling as Sampling;
ghost use Rattle.sheet.specs.Demands.{Together};

use crate::refusals::Refusal;
use crate::sample::sample;

// Two requests, r and s, with work v and w and outputs x and y, one after the other.
#[tactic(auto, using(crate::specs::Laws::Demands::together))]
pub fn twice(
    r: &[u8],
    s: &[u8],
    v: &mut [f64],
    w: &mut [f64],
    x: &mut [u8],
    y: &mut [u8],
) -> (Result<usize, Refusal>, Result<usize, Refusal>)
    ensures result_value { Sampling.answer_of result.0 ≡ Sampling.answer r.now (length v.old) (length x.old) }
    ensures result_value_2 { Sampling.answer_of result.1 ≡ Sampling.answer s.now (length w.old) (length y.old) }
    ensures x_after { x.new ≡ Sampling.output_after (Sampling.answer_of result.0) r.now x.old }
    ensures y_after { y.new ≡ Sampling.output_after (Sampling.answer_of result.1) s.now y.old }
    ensures v_after { v.new ≡ Bytes.zeros (length v.old) }
    ensures w_after { w.new ≡ Bytes.zeros (length w.old) }
    ensures together { Together r.now s.now (length v.old) (length w.old)
        (Sampling.answer_of result.0) (Sampling.answer_of result.1) x.new y.new }
{
    let first = sample(r, v, x);
    let second = sample(s, w, y);
    (first, second)
}
