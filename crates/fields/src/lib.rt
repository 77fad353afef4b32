// The fields of a case file, RULES section 1. numbers.rt reads a whole number or an amount in one pass; the crate values
// reads a line of a key and values by them, and specs/ has what such a line is. Every contract is an equation with a
// definition of specs/ on the list of the bytes.
#![tactic(auto)]

pub mod numbers;

// Why a line is not read: its form is wrong, or it is cut off before a byte 10.
#[derive(Clone, Copy)]
pub enum Fault {
    Wrong,
    Cut,
}

// A line of N values that is right in its form: they, and the place of its byte 10.
pub type Line<const N: usize> = Result<([u64; N], usize), Fault>;
