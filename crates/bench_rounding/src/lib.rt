// The roundings, exported under C names: bench/rounding measures the products among them, and tests/divisions.py counts
// how often the compiled code of each divides. A caller shows what the `requires` asks.
#![tactic(auto)]

ghost use Rattle.std.specs.Prelude.{◌≡◌, ◌*◌, ◌^◌, ◌<◌, pos, ◌*ℤ◌};
ghost use Rattle.rounding.specs.Nearest.{nearest, nearest_ℤ};
ghost use Rattle.rounding.specs.Signed.{integer_of, signed};

use rounding::Signed;

// n / d, rounded.
#[unsafe(no_mangle)]
pub extern "C" fn bench_rounding_div_nearest(n: u64, d: u64) -> u64
    requires { 0 < d }
    ensures { result ≡ nearest n d }
{
    rounding::div_nearest(n, d)
}

// a * b / d, rounded.
#[unsafe(no_mangle)]
pub extern "C" fn bench_rounding_mul_div_nearest(a: u64, b: u64, d: u64) -> u64
    requires { (0 < d) × (nearest (a * b) d < 2 ^ 64) }
    ensures { result ≡ nearest (a * b) d }
{
    rounding::mul_div_nearest(a, b, d)
}

// a * b * c / d, rounded.
#[unsafe(no_mangle)]
pub extern "C" fn bench_rounding_mul_mul_div_nearest(a: u64, b: u64, c: u64, d: u64) -> u64
    requires { (0 < d) × (nearest (a * b * c) d < 2 ^ 64) }
    ensures { result ≡ nearest (a * b * c) d }
{
    rounding::mul_mul_div_nearest(a, b, c, d)
}

// a * b / d, rounded, for an a of this sign and size: the size, and to a place that is lent the sign.
#[unsafe(no_mangle)]
pub extern "C" fn bench_rounding_signed_mul_div_nearest(
    negative: bool,
    size: u64,
    b: u64,
    d: u64,
    below: &mut bool,
) -> u64
    requires { (0 < d) × (nearest (size * b) d < 2 ^ 64) }
    ensures value { result ≡ (signed (nearest_ℤ (integer_of (record { negative = negative; size = size }) *ℤ pos b) d)).size }
    ensures below_after { below.new ≡ (signed (nearest_ℤ (integer_of (record { negative = negative; size = size }) *ℤ pos b) d)).negative }
{
    let r = rounding::signed_mul_div_nearest(Signed { negative, size }, b, d);
    *below = r.negative;
    r.size
}

// n / d, rounded, and that over e, rounded again: two roundings, so that a count is seen to find a second division.
#[unsafe(no_mangle)]
pub extern "C" fn bench_rounding_rounded_twice(n: u64, d: u64, e: u64) -> u64
    requires { (0 < d) × (0 < e) }
    ensures { result ≡ nearest (nearest n d) e }
{
    rounding::div_nearest(rounding::div_nearest(n, d), e)
}
