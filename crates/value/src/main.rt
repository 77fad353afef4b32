// The program: a case file on standard input, the lines of its valuation or of its refusal on standard output. It is a
// thin main over the library: the bytes that it prints are those of `valuation::print_case`. A read that fails prints
// nothing there, and a read or a write that fails is told on standard error and ends the program with status 1. bin/value
// looks all the same whether what was printed is whole.
#![tactic(auto)]

ghost use Rattle.std.specs.Prelude.{◌≡◌, ◌≤◌, length, IfOk};
ghost use Rattle.rules.specs.Outcome.{values};
ghost use Rattle.fitting.specs.Fitting.{answer, buffer};
ghost use Rattle.valuation.specs.Answers.{program_of};

use std::io;
use std::io::Read;
use valuation::print_case;

fn main(rt: HostRuntime) -> io::Result<()> {
    // One byte more than a case file may have: an input that is too long fills it, and is refused and never cut.
    let mut case = [0u8; 65_537];
    let mut out = [0u8; 65_536];
    run(&rt, &mut case, &mut out)
}

// Reads the case into the one buffer, and writes what the other one then holds.
fn run(rt: &(impl Input + Print), case: &mut [u8], out: &mut [u8]) -> io::Result<()>
    requires { length out.old ≡ 65536 }
{
    let n = read_full(&mut rt.reader(), case)?;
    let printed = print(&case[..n], out);
    write(rt, out, printed)
}

// Reads until `case` is full or the input ends, and tells how many bytes it then has at its start.
fn read_full(input: &mut impl Read, case: &mut [u8]) -> io::Result<usize>
    ensures { IfOk result (λ n. n ≤ length case.new) }
{
    let mut done = 0;
    // Each turn reads a byte at least, or is the last: as many turns as there are places are enough.
    for _ in 0..case.len() {
        if done >= case.len() {
            break;
        }
        let read = input.read(&mut case[done..])?;
        if read == 0 {
            break;
        }
        done += read;
    }
    Ok(done)
}

// What the program prints of a case file, at the start of `out`, and how many bytes it is: 64 KiB are always enough for
// the one line of a refusal.
fn print(case: &[u8], out: &mut [u8]) -> usize
    requires { length out.old ≡ 65536 }
    ensures result_value { values result ≡ answer (program_of 65536 case.now) }
    ensures out_after { out.new ≡ buffer (program_of 65536 case.now) out.old }
{
    print_case(case, out).unwrap_or(0)
}

// Writes the first n bytes.
fn write(rt: &impl Print, out: &[u8], n: usize) -> io::Result<()> {
    if n <= out.len() {
        rt.write_all(&out[..n])?;
    }
    Ok(())
}
