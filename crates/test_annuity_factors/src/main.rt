// Reads cases from standard input, one after another, and writes the factors of each: A, G, T, Z and C, a line for each
// letter. A case is bytes, a number's little end first: the interest i in 2, then r, pay, e and m in 1 each, then for
// each age 15 to 120 its death, withdrawal, disability and weight in 4 each. A case that the annuity functions do not take
// is skipped. What it must write was made by another program, tests/annuity_factors.py.
#![tactic(auto)]

ghost use Rattle.std.specs.Prelude.{true, ◌≡◌, ◌≤◌};
ghost use Rattle.test_annuity_factors.specs.Question.{Question};

use rates::Rows;
use std::io;
use std::io::Read;
use test_support::{fill, rows_at};
use year_steps::Factors;

// How many bytes a case has.
const SIZE: usize = 1702;

// The place of the first row.
const ROWS: usize = 6;

// A proved loop has to end, and nothing says that the input does: no run uses up these turns. The programs have one each, since one
// for all would be handed `case`.
fn main(rt: HostRuntime) -> io::Result<()> {
    let mut input = rt.reader();
    for _ in 0..u64::MAX {
        if !case(&rt, &mut input)? {
            break;
        }
    }
    Ok(())
}

// Reads a case and answers it. False where the input ends.
fn case(rt: &impl Print, input: &mut impl Read) -> io::Result<bool> {
    let mut bytes = [0u8; SIZE];
    if !fill(input, &mut bytes)? {
        return Ok(false);
    }
    answer(rt, &bytes)?;
    Ok(true)
}

fn answer(rt: &impl Print, bytes: &[u8; SIZE]) -> io::Result<()> {
    let i = u64::from(u16::from_le_bytes([bytes[0], bytes[1]]));
    let r = usize::from(bytes[2]);
    let pay = u64::from(bytes[3]);
    let e = usize::from(bytes[4]);
    let m = u64::from(bytes[5]);
    write(rt, rows_at(bytes, ROWS), i, r, pay, e, m)
}

fn write(
    rt: &impl Print,
    rows: Rows,
    i: u64,
    r: usize,
    pay: u64,
    e: usize,
    m: u64,
) -> io::Result<()> {
    if is_question(rows, i, r, e, m) {
        factors(rt, rows, i, r, pay, e, m)
    } else {
        println!(rt; "skipped")
    }
}

fn is_question(rows: Rows, i: u64, r: usize, e: usize, m: u64) -> bool
    ensures { result ≡ true → Question rows i r e m }
{
    if i > 2000 || m > 40 || r < 15 || r > 120 || e < 15 || e > 120 {
        return false;
    }
    bench_annuity::is_table(rows)
}

fn factors(
    rt: &impl Print,
    rows: Rows,
    i: u64,
    r: usize,
    pay: u64,
    e: usize,
    m: u64,
) -> io::Result<()>
    requires { Question rows i r e m }
{
    line(rt, "A", annuity::life_annuity(rows, r, i), 120)?;
    line(rt, "G", annuity::deferred_annuity(rows, r, pay, i), r)?;
    line(rt, "T", annuity::working_annuity(rows, r, i, e), e)?;
    line(rt, "Z", annuity::pay_annuity(rows, r, i, e), e)?;
    print!(rt; "C")?;
    number(rt, annuity::certain_annuity(i, m))?;
    println!(rt; "")
}

// The factors of the ages up to `top`.
fn line(rt: &impl Print, letter: &str, factors: Factors, top: usize) -> io::Result<()>
    requires { top ≤ 120 }
{
    print!(rt; "{letter}")?;
    for k in 15..=top {
        number(rt, factors[k - 15])?;
    }
    println!(rt; "")
}

fn number(rt: &impl Print, n: u64) -> io::Result<()> {
    print!(rt; " {n}")
}
