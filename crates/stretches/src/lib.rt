// What the parts of the walk over a case file share (rule 12.4). A part of the code is a stretch of the walk: it starts at a
// given line on given bytes, and answers where the next part begins, or the first refusal. The crates heading, amend_lines,
// rows and members have a part each, and whole_walk puts them together. proofs/StretchLaws.antt has how a loop passes a line.
#![tactic(auto)]

ghost use Rattle.std.specs.Prelude.{◌≡◌, true, false, Ok};
ghost use Rattle.stretches.specs.Refusing.{plan_line, at_line};

use fields::{Fault, Line};
use rules::refusals::{Refusal, Refused};

// Where the next part begins: its line, and its place in the bytes.
#[derive(Clone, Copy)]
pub struct Next {
    pub line: u64,
    pub at: usize,
}

// What was read of a line of the plan's part: a fault is its refusal, at the line.
pub fn plan_line<const N: usize>(read: Line<N>, line: u64) -> Result<([u64; N], usize), Refused>
    ensures { result ≡ plan_line read.entry line }
{
    match read {
        Ok(read) => Ok(read),
        Err(Fault::Wrong) => Err(Refusal::PlanForm.at(line)),
        Err(Fault::Cut) => Err(Refusal::CutOff.at(line)),
    }
}

// What a line's rules answer, at the line.
pub fn at_line(judged: Result<(), Refusal>, line: u64) -> Result<(), Refused>
    ensures { result ≡ at_line judged line }
{
    match judged {
        Ok(()) => Ok(()),
        Err(refusal) => Err(refusal.at(line)),
    }
}

// Rules 5.1 and 5.2: what a range rule says, where the ranges are settled.
pub fn settled<F: FnOnce() -> Result<(), Refusal>>(ranges: bool, rule: F) -> Result<(), Refusal>
    requires { ranges ≡ true → F.pre rule }
    ensures kept { ranges ≡ false → result ≡ Ok tt }
    ensures asked { ranges ≡ true → F.post rule result }
{
    if ranges { rule() } else { Ok(()) }
}
