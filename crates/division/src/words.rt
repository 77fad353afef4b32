// Numbers of two words, and the products that fill them.
ghost use Rattle.std.specs.Prelude.{◌≡◌, ◌+◌, ◌*◌, ◌^◌, ◌<◌, ◌≤◌};
ghost use Rattle.division.specs.Words.{value};

// A number of two words: high * 2^64 + low.
#[derive(Clone, Copy)]
pub struct Wide {
    pub high: u64,
    pub low: u64,
}

// 2^32: a word is two digits of this base.
pub const BASE: u64 = 0x1_0000_0000;

// a * b, whole, in columns of 32 bits.
pub fn product(a: u64, b: u64) -> Wide
    ensures { value result ≡ a * b }
{
    let a1 = a / BASE;
    let a0 = a % BASE;
    let b1 = b / BASE;
    let b0 = b % BASE;
    let first = a0 * b0;
    let second = a1 * b0 + first / BASE;
    let third = second % BASE + a0 * b1;
    let high = a1 * b1 + second / BASE + third / BASE;
    let middle = a1 * b0 % BASE + a0 * b1 % BASE;
    let low = std::num::wrapping_add_u64(middle % BASE * BASE, first);
    Wide { high, low }
}

// w * c, where that still fits two words.
pub fn times(w: Wide, c: u64) -> Wide
    requires { value w * c < 2 ^ 128 }
    ensures { value result ≡ value w * c }
{
    let lower = product(w.low, c);
    let high = w.high * c + lower.high;
    Wide {
        high,
        low: lower.low,
    }
}

// w - m.
pub fn minus(w: Wide, m: Wide) -> Wide
    requires { value m ≤ value w }
    ensures { value result + value m ≡ value w }
{
    Wide {
        high: w.high - m.high - borrow(w.low, m.low),
        low: std::num::wrapping_sub_u64(w.low, m.low),
    }
}

// 1 where a is below b, and else 0.
fn borrow(a: u64, b: u64) -> u64
    ensures { (b ≤ a + result * 2 ^ 64) × (a + result * 2 ^ 64 < b + 2 ^ 64) }
{
    if a < b { 1 } else { 0 }
}
