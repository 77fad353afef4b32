// The walk over a whole case file, RULES sections 1 to 5, done one part after the other: those of the crates heading, amend_lines, rows and
// members. The crate walk says what it is, and specs/Stretch.antt what the parts promise together.
#![tactic(auto)]

ghost use Rattle.std.specs.Prelude.{◌≡◌, true, [], ◌≤◌};
ghost use Rattle.plan.specs.Numbers.{plan_from};
ghost use Rattle.amendments.specs.Force.{amendments_from, as_valued};
ghost use Rattle.walk.specs.Step.{headed, amending};
ghost use Rattle.walk.specs.Walk.{walk_from, walk_of};
ghost use Rattle.stretches.specs.Heads.{amended};
ghost use Rattle.heading.specs.Stretch.{HeadKept};
ghost use Rattle.amend_lines.specs.Array.{list_array};
ghost use Rattle.whole_walk.specs.Stretch.{ListKept, TableIs, WalkIs};

use amend_lines::amend_lines;
use amending::as_valued;
use heading::head_lines;
use members::member_lines;
use plan::{Members, Plan, TERMS, Terms};
use rates::Rows;
use rows::row_lines;
use rules::refusals::{Refusal, Refused};
use stretches::Next;

// What a walk gives beside the arrays that it fills: the plan, with the heading's unit, and the counts of amendments and members.
#[derive(Clone, Copy)]
pub struct Outline {
    pub plan: Plan,
    pub amendments: u64,
    pub members: u64,
}

// One walk over the lines, for their form alone or for their ranges too. The arrays are left open after a refusal, and
// the rows where the ranges are not settled. `ranges` is a flag, as the definition has it: the rules as a closure would be handed
// through the same functions, and each would have to say what it gives.
pub fn walk_lines(
    case: &[u8],
    ranges: bool,
    list: &mut [[u64; 4]],
    rows: &mut Rows,
    members: &mut Members,
) -> Result<Outline, Refused>
    requires { list.old ≡ list_array [] }
    ensures { WalkIs ranges (walk_of ranges case.now) result list.new rows.new members.new }
{
    if 65_536 < case.len() {
        return Err(Refusal::TooLarge.at(0));
    }
    let mut terms = [0; TERMS];
    let Next { line, at } = head_lines(case, ranges, &mut terms)?;
    walk_list(&case[at..], line, ranges, &terms, list, rows, members)
}

// The walk from the amendments on, after the terms. It leaves the arrays open where walk_lines does.
fn walk_list(
    s: &[u8],
    line: u64,
    ranges: bool,
    terms: &Terms,
    list: &mut [[u64; 4]],
    rows: &mut Rows,
    members: &mut Members,
) -> Result<Outline, Refused>
    requires { HeadKept ranges terms.now × (line ≤ 1000) × (list.old ≡ list_array []) }
    ensures { WalkIs ranges (walk_from ranges line (amending (headed terms.now)) s.now) result list.new rows.new members.new }
{
    let plan = Plan::from(*terms);
    let Next { line: next, at } = amend_lines(s, line, ranges, plan, list)?;
    let amendments = next - line;
    let listed = &list[..amendments as usize];
    let counted = walk_table(&s[at..], next, ranges, terms, listed, rows, members)?;
    Ok(Outline {
        plan,
        amendments,
        members: counted,
    })
}

// The walk from the table on, after the amendments of a list. It leaves the rows and the members open where walk_lines does.
fn walk_table(
    s: &[u8],
    line: u64,
    ranges: bool,
    terms: &Terms,
    list: &[[u64; 4]],
    rows: &mut Rows,
    members: &mut Members,
) -> Result<u64, Refused>
    requires { HeadKept ranges terms.now × (line ≤ 65536) × ListKept ranges terms.now list.now }
    ensures { TableIs ranges (amended terms.now (amendments_from list.now)) line s.now result rows.new members.new }
{
    let Next { line: next, at } = row_lines(s, line, ranges, rows)?;
    let p = judged_by(ranges, terms, list);
    member_lines(&s[at..], next, ranges, p, rows, members)
}

// The plan as it is valued, by which the members are judged where the ranges are settled; else the plan is of no account.
fn judged_by(ranges: bool, terms: &Terms, list: &[[u64; 4]]) -> Plan
    requires { ListKept ranges terms.now list.now }
    ensures { ranges ≡ true → result ≡ as_valued (plan_from terms.now) (amendments_from list.now) }
{
    let p = Plan::from(*terms);
    if ranges { as_valued(p, list) } else { p }
}
