// The C interface: each function by bits, in and out, so that every NaN is 7FF8000000000000. A test
// answers 1 for yes and 0 for no.
ghost use Rattle.std.specs.Prelude.{◌≡◌, not, cond};
ghost use Rattle.std.specs.Float.{binary64};
ghost use Rattle.std.specs.Float.Ieee.{to_bits, of_bits};
ghost use Rattle.std.specs.Float.Ieee.Scale.{finite};
ghost use Rattle.float.specs.Number as Number;
ghost use Rattle.float.specs.MulAdd.{mul_add};
ghost use Rattle.float.specs.Sqrt as Sqrt;
ghost use Rattle.float.specs.ProductError as ProductError;
ghost use Rattle.float.specs.Trig as Trig;

use float::number::{bits, of_bits};

#[unsafe(no_mangle)]
pub extern "C" fn float_bits(w: u64) -> u64
    ensures { result ≡ to_bits binary64 (of_bits binary64 w) }
{
    bits(of_bits(w))
}

#[unsafe(no_mangle)]
pub extern "C" fn float_is_finite(x: u64) -> u64
    ensures { result ≡ cond (finite (of_bits binary64 x)) 1 0 }
{
    u64::from(float::number::is_finite(of_bits(x)))
}

#[unsafe(no_mangle)]
pub extern "C" fn float_is_sign_positive(x: u64) -> u64
    ensures { result ≡ cond (not (Number.negative (of_bits binary64 x))) 1 0 }
{
    u64::from(float::number::is_sign_positive(of_bits(x)))
}

#[unsafe(no_mangle)]
pub extern "C" fn float_abs(x: u64) -> u64
    ensures { result ≡ to_bits binary64 (Number.abs (of_bits binary64 x)) }
{
    bits(float::number::abs(of_bits(x)))
}

#[unsafe(no_mangle)]
pub extern "C" fn float_total_le(x: u64, y: u64) -> u64
    ensures { result ≡ cond (Number.total_le (of_bits binary64 x) (of_bits binary64 y)) 1 0 }
{
    u64::from(float::number::total_le(of_bits(x), of_bits(y)))
}

#[unsafe(no_mangle)]
pub extern "C" fn float_rem_euclid(x: u64, m: u64) -> u64
    ensures { result ≡ to_bits binary64 (Number.rem_euclid (of_bits binary64 x) (of_bits binary64 m)) }
{
    bits(float::number::rem_euclid(of_bits(x), of_bits(m)))
}

#[unsafe(no_mangle)]
pub extern "C" fn float_minimum(x: u64, y: u64) -> u64
    ensures { result ≡ to_bits binary64 (Number.minimum (of_bits binary64 x) (of_bits binary64 y)) }
{
    bits(float::number::minimum(of_bits(x), of_bits(y)))
}

#[unsafe(no_mangle)]
pub extern "C" fn float_maximum(x: u64, y: u64) -> u64
    ensures { result ≡ to_bits binary64 (Number.maximum (of_bits binary64 x) (of_bits binary64 y)) }
{
    bits(float::number::maximum(of_bits(x), of_bits(y)))
}

#[unsafe(no_mangle)]
pub extern "C" fn float_clamp(x: u64) -> u64
    ensures { result ≡ to_bits binary64 (Number.clamp (of_bits binary64 x)) }
{
    bits(float::number::clamp(of_bits(x)))
}

#[unsafe(no_mangle)]
pub extern "C" fn float_floor(x: u64) -> i64
    ensures { result ≡ Number.floor_i64 (of_bits binary64 x) }
{
    float::number::floor(of_bits(x))
}

#[unsafe(no_mangle)]
pub extern "C" fn float_mul_add(a: u64, b: u64, c: u64) -> u64
    ensures { result ≡ to_bits binary64 (mul_add binary64 (of_bits binary64 a) (of_bits binary64 b) (of_bits binary64 c)) }
{
    bits(float::mul_add::mul_add(of_bits(a), of_bits(b), of_bits(c)))
}

#[unsafe(no_mangle)]
pub extern "C" fn float_sqrt(x: u64) -> u64
    ensures { result ≡ to_bits binary64 (Sqrt.sqrt binary64 (of_bits binary64 x)) }
{
    bits(float::sqrt::sqrt(of_bits(x)))
}

#[unsafe(no_mangle)]
pub extern "C" fn float_product_error(a: u64, b: u64) -> u64
    ensures { result ≡ to_bits binary64 (ProductError.product_error (of_bits binary64 a) (of_bits binary64 b)) }
{
    bits(float::product_error::product_error(of_bits(a), of_bits(b)))
}

#[unsafe(no_mangle)]
pub extern "C" fn float_sin(x: u64) -> u64
    ensures { result ≡ to_bits binary64 (Trig.sin (of_bits binary64 x)) }
{
    bits(float::trig::sin(of_bits(x)))
}

#[unsafe(no_mangle)]
pub extern "C" fn float_cos(x: u64) -> u64
    ensures { result ≡ to_bits binary64 (Trig.cos (of_bits binary64 x)) }
{
    bits(float::trig::cos(of_bits(x)))
}

#[unsafe(no_mangle)]
pub extern "C" fn float_tan(x: u64) -> u64
    ensures { result ≡ to_bits binary64 (Trig.tan (of_bits binary64 x)) }
{
    bits(float::trig::tan(of_bits(x)))
}

#[unsafe(no_mangle)]
pub extern "C" fn float_atan(x: u64) -> u64
    ensures { result ≡ to_bits binary64 (Trig.atan (of_bits binary64 x)) }
{
    bits(float::arc::atan(of_bits(x)))
}

#[unsafe(no_mangle)]
pub extern "C" fn float_acos(x: u64) -> u64
    ensures { result ≡ to_bits binary64 (Trig.acos (of_bits binary64 x)) }
{
    bits(float::arc::acos(of_bits(x)))
}

#[unsafe(no_mangle)]
pub extern "C" fn float_asin(x: u64) -> u64
    ensures { result ≡ to_bits binary64 (Trig.asin (of_bits binary64 x)) }
{
    bits(float::arc::asin(of_bits(x)))
}

#[unsafe(no_mangle)]
pub extern "C" fn float_hypot(x: u64, y: u64) -> u64
    ensures { result ≡ to_bits binary64 (Trig.hypot (of_bits binary64 x) (of_bits binary64 y)) }
{
    bits(float::trig::hypot(of_bits(x), of_bits(y)))
}

#[unsafe(no_mangle)]
pub extern "C" fn float_atan2(y: u64, x: u64) -> u64
    ensures { result ≡ to_bits binary64 (Trig.atan2 (of_bits binary64 y) (of_bits binary64 x)) }
{
    bits(float::arc::atan2(of_bits(y), of_bits(x)))
}
