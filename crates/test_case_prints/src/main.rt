// Reads case files from standard input, each after its length and the length of an output buffer, 4 bytes each with the
// little end first. For each it writes a line, what `valuation::print_case` answers, and then the bytes of the buffer and
// the 16 that follow it, all of which it had filled with the byte 165. What it must write was made by another program,
// tests/case_prints.py.
#![tactic(auto)]

ghost use Rattle.std.specs.Prelude.{◌≤◌, length};

use std::io;
use std::io::Read;
use test_support::{fill, refused};
use valuation::{Refused, print_case};

// The longest file that is tried.
const LARGEST: usize = 70_000;

// How many bytes that follow a buffer are written too.
const AFTER: usize = 16;

// The longest buffer, with what follows it.
const ROOM: usize = 70_000;

// A proved loop has to end, and nothing says that the input does: no run uses up these turns. The programs have one each, since one
// for all would be handed `case`.
fn main(rt: HostRuntime) -> io::Result<()> {
    let mut input = rt.reader();
    for _ in 0..u64::MAX {
        if !case(&rt, &mut input)? {
            break;
        }
    }
    Ok(())
}

// Reads a case and answers it. False where the input ends, or the case or the buffer has no room.
fn case(rt: &impl Print, input: &mut impl Read) -> io::Result<bool> {
    let mut lengths = [0; 8];
    if !fill(input, &mut lengths)? {
        return Ok(false);
    }
    let [a, b, c, d, e, f, g, h] = lengths;
    let mut bytes = [0; LARGEST];
    let mut out = [165; ROOM];
    let Some(case) = bytes.get_mut(..u32::from_le_bytes([a, b, c, d]) as usize) else {
        return Ok(false);
    };
    if !fill(input, case)? {
        return Ok(false);
    }
    let room = u32::from_le_bytes([e, f, g, h]) as usize;
    match out.get_mut(..room + AFTER) {
        Some(out) => printed(rt, case, out, room),
        None => Ok(false),
    }
}

// Prints into the room, and writes what was answered, the bytes of the room and those after it.
fn printed(rt: &impl Print, case: &[u8], out: &mut [u8], room: usize) -> io::Result<bool>
    requires { room ≤ length out.old }
{
    answer(rt, print_case(case, &mut out[..room]))?;
    rt.write_all(out)?;
    Ok(true)
}

fn answer(rt: &impl Print, said: Result<usize, Refused>) -> io::Result<()> {
    match said {
        Ok(n) => println!(rt; "written={n}"),
        Err(e) => refused(rt, e.refusal.number(), e.line),
    }
}
