// The angles of one free joint, read off the cuts in work and written one after the other.
ghost use Rattle.std.specs.Prelude.{◌≡◌, ◌+◌, ◌-◌, ◌*◌, ◌≤◌, length};
ghost use Rattle.sampling.specs.Samples as Samples;
ghost use Rattle.sampling.specs.Promises.Plan.{all_samples};
ghost use Rattle.sheet.specs.Promises.Floats as Floats;

use crate::bytes::float_bytes;
use sampling::lists::{Lists, sample_count};
use sampling::samples::between;

// The floats of a list.
fn put_list(output: &mut [u8], list: &[f64])
    requires { length output.old ≡ 8 * length list.now }
    ensures { output.new ≡ Floats.floats_bytes list.now }
{
    // output by the index: what is written through `chunks_exact_mut` is not known afterwards
    for (i, x) in list.iter().enumerate() {
        output[8 * i..8 * i + 8].copy_from_slice(&float_bytes(*x));
    }
}

// Three samples between each two neighbours in a list.
fn put_between(output: &mut [u8], list: &[f64])
    requires { length output.old ≡ 24 * (length list.now - 1) }
    ensures { output.new ≡ Floats.floats_bytes (Samples.all_between list.now) }
{
    // output by the index, as above
    for (i, pair) in list.windows(2).enumerate() {
        let three = between(pair[0], pair[1]);
        put_list(&mut output[24 * i..24 * i + 24], &three);
    }
}

// The samples of the cuts in a list.
#[tactic(auto, using(crate::proofs::angles::Runs::samples_bytes))]
fn put_samples(output: &mut [u8], list: &[f64])
    requires { length output.old ≡ 8 * Samples.sample_count (length list.now) }
    ensures { output.new ≡ Floats.floats_bytes (Samples.samples list.now) }
{
    let (cuts, others) = output.split_at_mut(8 * list.len());
    put_list(cuts, list);
    put_between(others, list);
}

// The samples of three lists of cuts that stand one after the other in work.
// Work and n apart: n is what a plan holds in this case alone, and whoever has the plan knows by its ghost
// field that they fit.
#[tactic(auto, using(crate::proofs::angles::Runs::lists_bytes, sampling::proofs::Laws::Plan::all_samples_length))]
pub(crate) fn put_lists(output: &mut [u8], work: &[f64], n: Lists)
    requires in_work { n.first + n.second + n.third ≤ length work.now }
    requires size { length output.old ≡ 8 * length (all_samples n work.now) }
    ensures { output.new ≡ Floats.floats_bytes (all_samples n work.now) }
{
    let start = n.first + n.second;
    let (first, others) = output.split_at_mut(8 * sample_count(n.first));
    let (second, third) = others.split_at_mut(8 * sample_count(n.second));
    put_samples(first, &work[..n.first]);
    put_samples(second, &work[n.first..start]);
    put_samples(third, &work[start..start + n.third]);
}
