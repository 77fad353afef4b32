// A whole case in plain values, rule 5.7: its first refusal, if any. specs/Refusing.antt has what every contract is an
// equation with, the order of the rules; and specs/Statements.antt that nothing is refused exactly where every rule is kept.
#![tactic(auto)]

ghost use Rattle.std.specs.Prelude.{◌≡◌, [], map, ◌≤◌, length};
ghost use Rattle.rules.specs.Refusals.{verdict};
ghost use Rattle.rule_order.specs.Acceptance.{plan_refusal};
ghost use Rattle.plan.specs.Numbers.{member_from};
ghost use Rattle.walk.specs.Lines.{most_members};
ghost use Rattle.judging.specs.Refusing.{plain_case, members_refusal, case_refusal};

use acceptance::plan_refusal;
use amending::as_valued;
use line_rules::line_refusal;
use persons::Persons;
use plan::{MOST_MEMBERS, Member, Plan};
use rates::Rows;
use rules::refusals::Refusal;
use rules::unless;

// The members in turn, up to the first that is refused. What each person has so far is kept, so that no member looks at all
// those before it.
fn members_refusal(p: Plan, rows: &Rows, members: &[[u64; 5]]) -> Result<(), Refusal>
    requires { (plan_refusal p rows.now ≡ 0) × (length members.now ≤ most_members) }
    ensures { verdict result ≡ members_refusal p rows.now [] (map member_from members.now) }
{
    let mut persons = Persons::none();
    let mut before = 0;
    for (j, &numbers) in members.iter().enumerate() {
        let m = Member::from(numbers);
        line_refusal(true, p, rows, before, m, j, &mut persons)?;
        before = m.id;
    }
    Ok(())
}

// The plan comes first, since the members are judged by the plan as it is valued; and their count before any of them.
pub fn case_refusal(
    p: Plan,
    amendments: &[[u64; 4]],
    rows: &Rows,
    members: &[[u64; 5]],
) -> Result<(), Refusal>
    ensures { verdict result ≡ case_refusal (plain_case p amendments.now rows.now members.now) }
{
    plan_refusal(p, amendments, *rows)?;
    unless(members.len() <= MOST_MEMBERS, Refusal::SurplusMember)?;
    members_refusal(as_valued(p, amendments), rows, members)
}
