// Reads cases from standard input, one after another, and writes three lines for each: what accepting the plan answers,
// what accepting the lone member answers, and what valuing it does, `figures=` B(r), V, N and L in cents. A refusal is
// `refused=` its number and its line. A case is bytes, a number's little end first: the plan's interest, retire, pay,
// formula, unit, average, method, assets and years in 8 each, then how many amendments it has and 22 places for them, a number, the
// number that it rests on, its addition and whether it is struck, in 8 each, then for each age 15 to 120 its death, withdrawal, disability and
// weight in 4 each, then the member's id, person, entry, age and salary in 8 each. What it must write was made by another
// program, tests/member_figures.py.
#![tactic(auto)]

ghost use Rattle.std.specs.Prelude.{◌+◌, ◌*◌, ◌≤◌};

use acceptance::{accept_member, accept_plan};
use costs::Figures;
use plan::{Member, Plan};
use rules::refusals::Refused;
use std::io;
use std::io::Read;
use test_support::{fill, next, refused, rows_at};

// How many bytes a case has.
const SIZE: usize = 2520;

// The place of the count of amendments, and of the first of them.
const COUNT: usize = 72;

const AMENDMENTS: usize = 80;

// So many amendments have a place.
const PLACES: usize = 22;

// The place of the first row.
const ROWS: usize = 784;

// The place of the member.
const MEMBER: usize = 2480;

// A proved loop has to end, and nothing says that the input does: no run uses up these turns. The programs have one each, since one
// for all would be handed `case`.
fn main(rt: HostRuntime) -> io::Result<()> {
    let mut input = rt.reader();
    for _ in 0..u64::MAX {
        if !case(&rt, &mut input)? {
            break;
        }
    }
    Ok(())
}

// Reads a case and answers it. False where the input ends, or the amendments have no place.
fn case(rt: &impl Print, input: &mut impl Read) -> io::Result<bool> {
    let mut bytes = [0; SIZE];
    if !fill(input, &mut bytes)? {
        return Ok(false);
    }
    let count = long_at(&bytes, COUNT) as usize;
    match amendments_of(&bytes).get(..count) {
        Some(amendments) => {
            answer(rt, &bytes, amendments)?;
            Ok(true)
        }
        None => Ok(false),
    }
}

fn answer(rt: &impl Print, bytes: &[u8; SIZE], amendments: &[[u64; 4]]) -> io::Result<()> {
    let p = Plan::from(longs_at(bytes, 0));
    let rows = rows_at(bytes, ROWS);
    let m = Member::from(longs_at(bytes, MEMBER));
    accepting(rt, accept_plan(p, amendments, rows))?;
    accepting(rt, accept_member(p, amendments, rows, m))?;
    match plain_engine::value_member(p, amendments, rows, m) {
        Ok(f) => figures(rt, f),
        Err(e) => refused(rt, e.refusal.number(), e.line),
    }
}

fn accepting(rt: &impl Print, answer: Result<(), Refused>) -> io::Result<()> {
    match answer {
        Ok(()) => println!(rt; "accepted"),
        Err(e) => refused(rt, e.refusal.number(), e.line),
    }
}

fn figures(rt: &impl Print, f: Figures) -> io::Result<()> {
    print!(rt; "figures={}", f.benefit)?;
    next(rt, f.value)?;
    next(rt, f.cost)?;
    next(rt, f.liability)?;
    println!(rt; "")
}

fn amendments_of(bytes: &[u8; SIZE]) -> [[u64; 4]; PLACES] {
    let mut list = [[0; 4]; PLACES];
    for j in 0..PLACES {
        list[j] = longs_at(bytes, AMENDMENTS + 32 * j);
    }
    list
}

// N numbers of 8 bytes, one after the other.
fn longs_at<const N: usize>(bytes: &[u8; SIZE], at: usize) -> [u64; N]
    requires { at + 8 * N ≤ 2520 }
{
    let mut longs = [0; N];
    for j in 0..N {
        longs[j] = long_at(bytes, at + 8 * j);
    }
    longs
}

// A number of 8 bytes.
fn long_at(bytes: &[u8; SIZE], at: usize) -> u64
    requires { at + 8 ≤ 2520 }
{
    u64::from_le_bytes([
        bytes[at],
        bytes[at + 1],
        bytes[at + 2],
        bytes[at + 3],
        bytes[at + 4],
        bytes[at + 5],
        bytes[at + 6],
        bytes[at + 7],
    ])
}
