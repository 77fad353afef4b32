// The lines after the rows, RULES section 4, one after the other: the members and the end. The crate tails reads a line, and the crate line_rules
// has the range rules of a member's.
#![tactic(auto)]

ghost use Rattle.std.specs.Prelude.{◌≡◌, true, ◌≤◌};
ghost use Rattle.rule_order.specs.Acceptance.{plan_refusal};
ghost use Rattle.walk.specs.Step.{Head};
ghost use Rattle.members.specs.Stretch.{SameHead, MembersAre, form_line, end_count};

use line_rules::line_refusal;
use persons::Persons;
use plan::{MOST_MEMBERS, Members, Plan};
use rates::Rows;
use rules::refusals::{Refusal, Refused};
use stretches::at_line;
use tails::{Tail, TailFault, tail_line};

// What was read of a line after the rows: a fault is its refusal, at the line.
fn form_line(read: Result<(Tail, usize), TailFault>, line: u64) -> Result<(Tail, usize), Refused>
    ensures { result ≡ form_line read line }
{
    match read {
        Ok(read) => Ok(read),
        Err(TailFault::Surplus) => Err(Refusal::SurplusMember.at(line)),
        Err(TailFault::Neither) => Err(Refusal::MemberForm.at(line)),
        Err(TailFault::Cut) => Err(Refusal::CutOff.at(line)),
    }
}

// The end line after `count` members, at a line, with so many bytes after it.
fn end_count(n: u64, count: u64, line: u64, after: usize) -> Result<u64, Refused>
    requires { line ≤ 1000000 }
    ensures { result ≡ end_count n count line after }
{
    if n != count {
        return Err(Refusal::WrongCount.at(line));
    }
    if after != 0 {
        return Err(Refusal::BytesAfter.at(line + 1));
    }
    Ok(count)
}

// Reads the members from a line on into the array, and the end, and counts them; and settles their ranges too where that is
// asked for. After a refusal the array is left open. A `loop`, since the bytes say how many there are.
pub fn member_lines(
    s: &[u8],
    first: u64,
    ranges: bool,
    p: Plan,
    rows: &Rows,
    members: &mut Members,
) -> Result<u64, Refused>
    requires { (ranges ≡ true → plan_refusal p rows.now ≡ 0) × (first ≤ 65642) }
    ensures { (h : Head) → SameHead ranges p rows.now h → MembersAre ranges h first s.now result members.new }
{
    // Nothing that the caller left there is taken for a member.
    *members = [[0; 5]; MOST_MEMBERS];
    let mut persons = Persons::none();
    let mut at = 0;
    let mut count = 0;
    let mut before = 0;
    loop {
        let line = first + count as u64;
        let (tail, end) = form_line(tail_line(&s[at..], count == MOST_MEMBERS), line)?;
        at += end + 1;
        match tail {
            Tail::Listed(m) => {
                at_line(
                    line_refusal(ranges, p, rows, before, m, count, &mut persons),
                    line,
                )?;
                members[count] = <[u64; 5]>::from(m);
                before = m.id;
                count += 1;
            }
            Tail::End(n) => return end_count(n, count as u64, line, s.len() - at),
        }
    }
}
