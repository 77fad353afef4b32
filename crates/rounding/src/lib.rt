// Rounding, RULES section 6: the nearest whole, halfway the even one of two, and below 0 by the size (rules 6.1 and 6.2);
// of a product of any width once, after its division (rule 6.3).
// The crate `division` has products in two words, and one long division that gives quotient and remainder; here are the
// rounded quotients that every figure is made with, each from one such pair (rule 6.4, stated in specs/OnePair.antt).
// The rule itself is `nearest`, in specs/Nearest.antt; callers rest on its laws, in proofs/NearestLaws.antt, and not on
// its text. Each `requires` is what a caller must show.
#![tactic(auto)]

ghost use Rattle.std.specs.Prelude.{◌≡◌, ◌+◌, ◌*◌, ◌^◌, ◌<◌, pos, ◌*ℤ◌};
ghost use Rattle.division.specs.Words.{value};
ghost use Rattle.rounding.specs.Nearest.{nearest, nearest_ℤ};
ghost use Rattle.rounding.specs.Signed.{integer_of, signed};

use division::words::Wide;
use division::{Division, words};

// The nearest whole to a division's exact quotient, from its pair and without another division (rule 6.4): whether the
// quotient is odd is its last bit. The remainder is held against what it lacks to the divisor, so that nothing is doubled.
// Halfway these two are equal, and the bit decides: an odd quotient is raised to the even number above it.
fn half_even(s: Division, d: u64) -> u64
    requires { (s.remainder < d) × (nearest (s.quotient * d + s.remainder) d < 2 ^ 64) }
    ensures { result ≡ nearest (s.quotient * d + s.remainder) d }
{
    let q = s.quotient;
    let r = s.remainder;
    let odd = q % 2;
    if r + odd > d - r { q + 1 } else { q }
}

// n / d, rounded.
pub fn div_nearest(n: u64, d: u64) -> u64
    requires { 0 < d }
    ensures { result ≡ nearest n d }
{
    half_even(division::by_word(n, d), d)
}

// w / d for a w of two words, rounded.
fn wide_div_nearest(w: Wide, d: u64) -> u64
    requires { (0 < d) × (nearest (value w) d < 2 ^ 64) }
    ensures { result ≡ nearest (value w) d }
{
    words_div_nearest(w.high, w.low, d)
}

// The same of two words by themselves, which a call hands over in registers.
fn words_div_nearest(high: u64, low: u64, d: u64) -> u64
    requires { (0 < d) × (nearest (high * 2 ^ 64 + low) d < 2 ^ 64) }
    ensures { result ≡ nearest (high * 2 ^ 64 + low) d }
{
    half_even(division::divide(Wide { high, low }, d), d)
}

// a * b / d: rule 6.3, the whole product first, and one rounding after the division.
pub fn mul_div_nearest(a: u64, b: u64, d: u64) -> u64
    requires { (0 < d) × (nearest (a * b) d < 2 ^ 64) }
    ensures { result ≡ nearest (a * b) d }
{
    wide_div_nearest(words::product(a, b), d)
}

// a * b * c / d, likewise. No figure has three factors at present (docs/DECISIONS.md says why it stays).
pub fn mul_mul_div_nearest(a: u64, b: u64, c: u64, d: u64) -> u64
    requires { (0 < d) × (nearest (a * b * c) d < 2 ^ 64) }
    ensures { result ≡ nearest (a * b * c) d }
{
    wide_div_nearest(words::times(words::product(a, b), c), d)
}

// An integer: a sign beside a size. Zero has no sign. A wider signed number would be taken apart into the two wherever it is rounded or
// printed.
#[derive(Clone, Copy)]
pub struct Signed {
    pub negative: bool,
    pub size: u64,
}

// a * b / d for a signed a: rule 6.2, the size is rounded and the sign put back.
pub fn signed_mul_div_nearest(a: Signed, b: u64, d: u64) -> Signed
    requires { (0 < d) × (nearest (a.size * b) d < 2 ^ 64) }
    ensures { result ≡ signed (nearest_ℤ (integer_of a *ℤ pos b) d) }
{
    let size = mul_div_nearest(a.size, b, d);
    if size == 0 {
        return Signed {
            negative: false,
            size: 0,
        };
    }
    Signed {
        negative: a.negative,
        size,
    }
}
