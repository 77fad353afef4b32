// Reads case files from standard input, each after its length in 4 bytes, the little end first, and writes what reading
// and what accepting answers: a line for each. Of an accepted case it writes the plan's numbers, with the heading's unit, the
// counts of amendments and members, and a check sum each of the amendments, the rows and the members that were handed on. What it must write was made by another program,
// tests/case_files.py.
#![tactic(auto)]

use plan::{MOST_AMENDMENTS, MOST_MEMBERS, Plan, Terms};
use rates::{AGES, Rows};
use std::io;
use std::io::Read;
use test_support::{fill, next, refused};

// The longest file that is tried.
const SIZE: usize = 70_000;

// The sums are kept below this.
const PRIME: u64 = 1_000_003;

// A proved loop has to end, and nothing says that the input does: no run uses up these turns. The programs have one each, since one
// for all would be handed `case`.
fn main(rt: HostRuntime) -> io::Result<()> {
    let mut input = rt.reader();
    for _ in 0..u64::MAX {
        if !case(&rt, &mut input)? {
            break;
        }
    }
    Ok(())
}

// Reads a case and answers it. False where the input ends, or the case has no room.
fn case(rt: &impl Print, input: &mut impl Read) -> io::Result<bool> {
    let mut length = [0; 4];
    if !fill(input, &mut length)? {
        return Ok(false);
    }
    let mut room = [0; SIZE];
    match room.get_mut(..u32::from_le_bytes(length) as usize) {
        Some(bytes) => answered(rt, input, bytes),
        None => Ok(false),
    }
}

// A case that fills these bytes.
fn answered(rt: &impl Print, input: &mut impl Read, bytes: &mut [u8]) -> io::Result<bool> {
    if !fill(input, bytes)? {
        return Ok(false);
    }
    reading(rt, bytes)?;
    accepting(rt, bytes)?;
    Ok(true)
}

fn reading(rt: &impl Print, case: &[u8]) -> io::Result<()> {
    match casefile::read_case(case) {
        Ok(()) => println!(rt; "read"),
        Err(e) => refused(rt, e.refusal.number(), e.line),
    }
}

fn accepting(rt: &impl Print, case: &[u8]) -> io::Result<()> {
    let mut amendments = [[0; 4]; MOST_AMENDMENTS];
    let mut rows = [[0; 4]; AGES];
    let mut members = [[0; 5]; MOST_MEMBERS];
    match casefile::accept_case(case, &mut amendments, &mut rows, &mut members) {
        Ok(outline) => {
            print!(rt; "accepted=")?;
            terms(rt, outline.plan)?;
            print!(rt; "{},{}", outline.amendments, outline.members)?;
            next(rt, sum_of(&amendments, outline.amendments))?;
            next(rt, sum_of_rows(rows))?;
            next(rt, sum_of(&members, outline.members))?;
            println!(rt; "")
        }
        Err(e) => refused(rt, e.refusal.number(), e.line),
    }
}

fn terms(rt: &impl Print, p: Plan) -> io::Result<()> {
    for term in Terms::from(p) {
        print!(rt; "{term},")?;
    }
    Ok(())
}

// The sum so far, with one number more.
fn sum(so_far: u64, number: u64) -> u64 {
    (so_far % PRIME * 31 + number % PRIME) % PRIME
}

// The sum of the numbers of the first `count` of some lists.
fn sum_of<const N: usize>(lists: &[[u64; N]], count: u64) -> u64 {
    let mut total = 0;
    for list in lists.iter().take(count as usize) {
        for &number in list {
            total = sum(total, number);
        }
    }
    total
}

fn sum_of_rows(rows: Rows) -> u64 {
    let mut total = 0;
    for row in rows {
        for number in row {
            total = sum(total, u64::from(number));
        }
    }
    total
}
