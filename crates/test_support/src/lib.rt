// What the test programs share: bytes from the input, numbers and rows out of bytes, a number's little end first, and the
// line of a refusal.
#![tactic(auto)]

ghost use Rattle.std.specs.Prelude.{◌+◌, ◌≤◌, ◌<◌, length};

use rates::{AGES, Rows};
use std::io;
use std::io::{ErrorKind, Read};

// Fills `bytes` from the input. False where the input ends before.
pub fn fill(input: &mut impl Read, bytes: &mut [u8]) -> io::Result<bool> {
    match input.read_exact(bytes) {
        Ok(()) => Ok(true),
        Err(e) => {
            if e.kind() == ErrorKind::UnexpectedEof {
                Ok(false)
            } else {
                Err(e)
            }
        }
    }
}

// A table of rates from a place on: of each age 15 to 120 its four numbers.
pub fn rows_at(bytes: &[u8], at: usize) -> Rows
    requires { at + 1696 ≤ length bytes.now }
{
    let mut rows = [[0; 4]; AGES];
    for j in 0..AGES {
        rows[j] = row_at(bytes, at + 16 * j);
    }
    rows
}

fn row_at(bytes: &[u8], at: usize) -> [u32; 4]
    requires { at + 16 ≤ length bytes.now }
{
    [
        number_at(bytes, at),
        number_at(bytes, at + 4),
        number_at(bytes, at + 8),
        number_at(bytes, at + 12),
    ]
}

// A number of 4 bytes.
pub fn number_at(bytes: &[u8], at: usize) -> u32
    requires { at + 4 ≤ length bytes.now }
{
    u32::from_le_bytes([bytes[at], bytes[at + 1], bytes[at + 2], bytes[at + 3]])
}

// Writes one more number of a line.
pub fn next(rt: &impl Print, number: u64) -> io::Result<()> {
    print!(rt; ",{number}")
}

// Writes the line of a refusal.
pub fn refused(rt: &impl Print, number: u64, line: u64) -> io::Result<()> {
    println!(rt; "refused={number},{line}")
}
