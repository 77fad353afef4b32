// Runs the products, divisions and roundings at the edges of 32 and 64 bits and writes what they answer, a line for
// each choice of factors and divisor. What it must write was made by another program, tests/rounding_edges.py.
#![tactic(auto)]

ghost use Rattle.std.specs.Prelude.{true, ◌≡◌, ◌*◌, ◌^◌, ◌<◌, IfOk};
ghost use Rattle.division.specs.Division.{DivisionOf};
ghost use Rattle.division.specs.Words.{value};
ghost use Rattle.rounding.specs.Nearest.{nearest};

use division::{Division, words};
use rounding::Signed;
use std::io;
use words::Wide;

const MAX: u64 = 0xffff_ffff_ffff_ffff;

const EDGES: [u64; 10] = [
    0,
    1,
    2,
    3,
    0x8000_0000,
    0xffff_ffff,
    0x1_0000_0000,
    0x1_0000_0001,
    0x8000_0000_0000_0001,
    0xffff_ffff_ffff_ffff,
];

const FACTORS: [u64; 5] = [1, 2, 3, 0x1_0000_0001, 0x8000_0000_0000_0001];

fn main(rt: HostRuntime) -> io::Result<()> {
    for i in 0..1625 {
        line(&rt, i)?;
    }
    Ok(())
}

// A thousand lines of two factors, and then 625 of three.
fn line(rt: &impl Print, i: usize) -> io::Result<()>
    requires { i < 1625 }
{
    if i < 1000 {
        two_factors(rt, i)?;
    } else {
        three_factors(rt, i - 1000)?;
    }
    println!(rt; "")
}

// Each digit of i picks an edge: two factors and a divisor.
fn two_factors(rt: &impl Print, i: usize) -> io::Result<()>
    requires { i < 1000 }
{
    let a = EDGES[i / 100];
    let b = EDGES[i / 10 % 10];
    let d = EDGES[i % 10];
    numbers(rt, a, b)?;
    number(rt, d)?;
    quotient(rt, a, b, d)
}

// Each digit of i to the base 5 picks a factor: three factors and a divisor.
fn three_factors(rt: &impl Print, i: usize) -> io::Result<()>
    requires { i < 625 }
{
    let a = FACTORS[i / 125];
    let b = FACTORS[i / 25 % 5];
    let c = FACTORS[i / 5 % 5];
    let d = FACTORS[i % 5];
    numbers(rt, a, b)?;
    numbers(rt, c, d)?;
    third_quotient(rt, a, b, c, d)
}

// a * b divided by d; then, where it fits a word, the rounded quotient, and that of a negative a.
fn quotient(rt: &impl Print, a: u64, b: u64, d: u64) -> io::Result<()> {
    if rounds(rt, words::product(a, b), d)? {
        rounded(rt, a, b, d)?;
    }
    Ok(())
}

// The same of three factors, where their product fits two words: no signs.
fn third_quotient(rt: &impl Print, a: u64, b: u64, c: u64, d: u64) -> io::Result<()> {
    let p = words::product(a, b);
    if fits(p, c) {
        if rounds(rt, words::times(p, c), d)? {
            number(rt, rounding::mul_mul_div_nearest(a, b, c, d))?;
        }
    }
    Ok(())
}

// Writes the words of w; then, where w / d fits a word, the quotient and the remainder. Tells whether the rounded
// quotient fits a word too.
fn rounds(rt: &impl Print, w: Wide, d: u64) -> io::Result<bool>
    ensures { IfOk result (λ fits. fits ≡ true → (0 < d) × (nearest (value w) d < 2 ^ 64)) }
{
    numbers(rt, w.high, w.low)?;
    if w.high >= d {
        return Ok(false);
    }
    let s = division(rt, w, d)?;
    Ok(s.quotient < MAX || s.remainder < d - s.remainder)
}

// Divides, and writes both results.
fn division(rt: &impl Print, w: Wide, d: u64) -> io::Result<Division>
    requires { w.high < d }
    ensures { IfOk result (DivisionOf (value w) d) }
{
    let s = division::divide(w, d);
    numbers(rt, s.quotient, s.remainder)?;
    Ok(s)
}

// Tells whether w * c fits two words.
fn fits(w: Wide, c: u64) -> bool
    ensures { result ≡ true → value w * c < 2 ^ 128 }
{
    let upper = words::product(w.high, c);
    let lower = words::product(w.low, c);
    upper.high == 0 && upper.low <= MAX - lower.high
}

// Writes both; by rule 6.2 the size of -a is rounded, and the sign put back.
fn rounded(rt: &impl Print, a: u64, b: u64, d: u64) -> io::Result<()>
    requires { (0 < d) × (nearest (a * b) d < 2 ^ 64) }
{
    number(rt, rounding::mul_div_nearest(a, b, d))?;
    let minus = Signed {
        negative: true,
        size: a,
    };
    let r = rounding::signed_mul_div_nearest(minus, b, d);
    if r.negative {
        print!(rt; "-")?;
    }
    number(rt, r.size)
}

fn numbers(rt: &impl Print, m: u64, n: u64) -> io::Result<()> {
    number(rt, m)?;
    number(rt, n)
}

fn number(rt: &impl Print, n: u64) -> io::Result<()> {
    print!(rt; "{n} ")
}
