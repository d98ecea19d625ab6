// One step at every place of a slice.
ghost use Rattle.std.specs.Prelude.{◌≡◌, map};
ghost use Rattle.std.specs.List.{AllZip};
ghost use Rattle.float_bench.specs.Steps as Steps;

use float::mul_add::mul_add;
use float::product_error::product_error;
use float::sqrt::sqrt;

// `step` at every place.
fn each<F: Fn(f64) -> f64>(hs: &mut [f64], step: F)
    requires { F.IsAlwaysCallable step }
    ensures { AllZip (λ h next. F.post step h next) hs.old hs.new }
{
    for h in hs.iter_mut() {
        *h = step(*h);
    }
}

#[tactic(auto, using(crate::proofs::Places::mapped))]
#[unsafe(no_mangle)]
pub extern "C" fn bench_each_plain(hs: &mut [f64], x: f64, c: f64)
    ensures { hs.new ≡ map (Steps.plain x c) hs.old }
{
    each(hs, |h| h * x + c);
}

#[tactic(auto, using(crate::proofs::Places::mapped))]
#[unsafe(no_mangle)]
pub extern "C" fn bench_each_mul_add(hs: &mut [f64], x: f64, c: f64)
    ensures { hs.new ≡ map (Steps.fused x c) hs.old }
{
    each(hs, |h| mul_add(h, x, c));
}

#[tactic(auto, using(crate::proofs::Places::mapped))]
#[unsafe(no_mangle)]
pub extern "C" fn bench_each_sqrt(hs: &mut [f64], c: f64)
    ensures { hs.new ≡ map (Steps.root c) hs.old }
{
    each(hs, |h| sqrt(h + c));
}

#[tactic(auto, using(crate::proofs::Places::mapped))]
#[unsafe(no_mangle)]
pub extern "C" fn bench_each_product_error(hs: &mut [f64], x: f64, c: f64)
    ensures { hs.new ≡ map (Steps.error x c) hs.old }
{
    each(hs, |h| product_error(h, x) + c);
}
