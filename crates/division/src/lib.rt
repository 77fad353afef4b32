// One long division of two words by one, which gives the quotient and the remainder together: rule 6.4.
// words.rt has numbers of two words and their products; what a division's two results are is `DivisionOf`, in
// specs/Division.antt. Each `requires` is what a caller must show.
#![tactic(auto)]

pub mod words;

ghost use Rattle.std.specs.Prelude.{◌≡◌, ◌+◌, ◌*◌, ◌<◌};
ghost use Rattle.division.specs.Words.{value};
ghost use Rattle.division.specs.Division.{DivisionOf, Reciprocal, Short, Step, undivided};

use words::Wide;

// A quotient, and what is left.
#[derive(Clone, Copy)]
pub struct Division {
    pub quotient: u64,
    pub remainder: u64,
}

// A division on its way: so many times d were taken, and this is left.
#[derive(Clone, Copy)]
struct Taken {
    quotient: u64,
    left: Wide,
}

// From this divisor on a second step is taken unasked: one step seldom leaves a word.
const LARGE: u64 = 0x1000_0000_0000;

// w / d, where the quotient fits a word: one native division, which is that of the low word where the high word is 0,
// and else that of 2^64 by d, whose products with w then take almost all of w away.
pub fn divide(w: Wide, d: u64) -> Division
    requires { w.high < d }
    ensures { DivisionOf (value w) d result }
{
    if w.high == 0 {
        return by_word(w.low, d);
    }
    by_reciprocal(w, d)
}

// One word by one. The remainder comes from a product, and not from a second division.
pub fn by_word(n: u64, d: u64) -> Division
    requires { 0 < d }
    ensures { DivisionOf n d result }
{
    let quotient = n / d;
    let remainder = n - quotient * d;
    Division {
        quotient,
        remainder,
    }
}

fn by_reciprocal(w: Wide, d: u64) -> Division
    requires { w.high < d }
    ensures { DivisionOf (value w) d result }
{
    let v = reciprocal(d);
    finish(start(w, d, v), d, v)
}

// One step, or two.
fn start(w: Wide, d: u64, v: u64) -> Taken
    requires { Reciprocal d v × (Short (value w) d) }
    ensures { undivided d result ≡ value w }
{
    let t = Taken {
        quotient: 0,
        left: w,
    };
    let one = step(t, d, v);
    if d >= LARGE {
        return step(one, d, v);
    }
    one
}

// Steps until one word is left, which it mostly is from the start. A `while`, since nothing counts the steps.
fn finish(mut t: Taken, d: u64, v: u64) -> Division
    requires { Reciprocal d v × (Short (undivided d t) d) }
    ensures { DivisionOf (undivided d t) d result }
{
    while t.left.high > 0 {
        t = step(t, d, v);
    }
    last(t.quotient, t.left.low, d, v)
}

// 2^64 / d, but 1 less where d divides 2^64.
fn reciprocal(d: u64) -> u64
    requires { 0 < d }
    ensures { Reciprocal d result }
{
    0xffff_ffff_ffff_ffff / d
}

// Takes d off what is left, as often as the reciprocal says.
fn step(t: Taken, d: u64, v: u64) -> Taken
    requires { Reciprocal d v × (Short (undivided d t) d) }
    ensures { Step d t result }
{
    let w = t.left;
    let p = words::product(w.low, v);
    let k = w.high * v + p.high;
    Taken {
        quotient: t.quotient + k,
        left: words::minus(w, words::product(k, d)),
    }
}

// What is left is one word: the reciprocal leaves less than twice d of it.
fn last(q: u64, n: u64, d: u64, v: u64) -> Division
    requires { Reciprocal d v × (Short (q * d + n) d) }
    ensures { DivisionOf (q * d + n) d result }
{
    let k = words::product(n, v).high;
    fold(q + k, n - k * d, d)
}

// q * d + x, for an x below twice d, divided by d.
fn fold(q: u64, x: u64, d: u64) -> Division
    requires { (x < d + d) × (Short (q * d + x) d) }
    ensures { DivisionOf (q * d + x) d result }
{
    if x >= d {
        Division {
            quotient: q + 1,
            remainder: x - d,
        }
    } else {
        Division {
            quotient: q,
            remainder: x,
        }
    }
}
