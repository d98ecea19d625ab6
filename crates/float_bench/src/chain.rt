// n steps, each from the result of the one before.
ghost use Rattle.std.specs.Prelude.{◌≡◌, Float};
ghost use Rattle.float_bench.specs.Steps as Steps;

use float::mul_add::mul_add;
use float::product_error::product_error;
use float::sqrt::sqrt;

// n times `step`, whatever function of the floats it is.
#[tactic(auto, unfolding(crate::specs::Steps::iterate))]
fn repeated<F: Fn(f64) -> f64>(start: f64, n: u64, step: F) -> f64
    requires { F.IsAlwaysCallable step }
    ensures { (f : Float → Float) → ((h next : Float) → F.post step h next → next ≡ f h) → result ≡ Steps.iterate f n start }
{
    let mut h = start;
    for _ in 0..n {
        h = step(h);
    }
    h
}

#[unsafe(no_mangle)]
pub extern "C" fn bench_plain(start: f64, x: f64, c: f64, n: u64) -> f64
    ensures { result ≡ Steps.iterate (Steps.plain x c) n start }
{
    repeated(start, n, |h| h * x + c)
}

#[unsafe(no_mangle)]
pub extern "C" fn bench_mul_add(start: f64, x: f64, c: f64, n: u64) -> f64
    ensures { result ≡ Steps.iterate (Steps.fused x c) n start }
{
    repeated(start, n, |h| mul_add(h, x, c))
}

#[unsafe(no_mangle)]
pub extern "C" fn bench_sqrt(start: f64, c: f64, n: u64) -> f64
    ensures { result ≡ Steps.iterate (Steps.root c) n start }
{
    repeated(start, n, |h| sqrt(h + c))
}

#[unsafe(no_mangle)]
pub extern "C" fn bench_product_error(start: f64, x: f64, c: f64, n: u64) -> f64
    ensures { result ≡ Steps.iterate (Steps.error x c) n start }
{
    repeated(start, n, |h| product_error(h, x) + c)
}
