// Accepting a plan, its amendments, its rows and a member handed in as plain values, rules 5.3 to 5.6, by the rules in their
// order, which crate `rule_order` has: the first refusal. specs/Answers.antt has what is answered.
#![tactic(auto)]

ghost use Rattle.std.specs.Prelude.{◌≡◌, ◌&&◌, leb, ltb, IfOk};
ghost use Rattle.rules.specs.Refusals.{verdict, wrong_id, wrong_person, wrong_entry, wrong_age};
ghost use Rattle.rules.specs.Outcome.{outcome};
ghost use Rattle.rules.specs.Rules.{first_among};
ghost use Rattle.rules.specs.Rules.{unless as Rules·unless, between as Rules·between};
ghost use Rattle.plan.specs.Benefit.{B};
ghost use Rattle.amendments.specs.Force.{amendments_from};
ghost use Rattle.rule_order.specs.Acceptance.{plan_refusal, amended_refusal, field_rules, member_refusal, lone_refusal};
ghost use Rattle.acceptance.specs.Answers.{acceptance_of};

use amending::{amendments_refusal, as_valued};
use plan::benefit::accrued_benefit;
use plan::{Member, Plan};
use rates::Rows;
use row_rules::rows_refusal;
use rules::refusals::{Refusal, Refused};
use rules::terms::head_refusal;
use rules::{between, unless, unless_between};

// The heading, the amendments and the rows.
pub fn plan_refusal(p: Plan, amendments: &[[u64; 4]], rows: Rows) -> Result<(), Refusal>
    ensures { verdict result ≡ amended_refusal p (amendments_from amendments.now) rows }
{
    head_refusal(p)?;
    amendments_refusal(p, amendments)?;
    rows_refusal(rows)
}

// A member of an accepted plan by itself, after the member with the id `before`: its B(r), unless it is refused. Of its benefit
// rule 7.8 looks at B(r) alone, and hands it on: rule 7.10 adds it to those of the same person.
pub fn member_benefit(p: Plan, rows: &Rows, before: u64, m: Member) -> Result<u64, Refusal>
    requires { plan_refusal p rows.now ≡ 0 }
    ensures refusal { verdict result ≡ member_refusal p rows.now before m }
    ensures benefit { IfOk result (λ b. b ≡ B p rows.now m p.retire) }
{
    fields_refusal(p, before, m)?;
    let top = accrued_benefit(p, rows, m, p.retire);
    if top <= 100_000_000 {
        Ok(top)
    } else {
        Err(Refusal::HighBenefit)
    }
}

// The member's fields alone, rules 4.2, 4.7 and 4.3 to 4.5.
fn fields_refusal(p: Plan, before: u64, m: Member) -> Result<(), Refusal>
    ensures { verdict result ≡ first_among (field_rules p before m) }
{
    id_rule(before, m.id)?;
    person_rule(m.person)?;
    entry_rule(p.retire, m.entry)?;
    age_rule(p.retire, m)?;
    unless(m.salary <= 100_000_000, Refusal::WrongSalary)
}

fn id_rule(before: u64, id: u64) -> Result<(), Refusal>
    ensures { verdict result ≡ Rules·unless (Rules·between 1 999999999 id && ltb before id) wrong_id }
{
    unless(between(1, 999_999_999, id) && before < id, Refusal::WrongId)
}

fn person_rule(person: u64) -> Result<(), Refusal>
    ensures { verdict result ≡ Rules·unless (Rules·between 1 999999999 person) wrong_person }
{
    unless_between(1, 999_999_999, person, Refusal::WrongPerson)
}

fn entry_rule(retire: u64, entry: u64) -> Result<(), Refusal>
    ensures { verdict result ≡ Rules·unless (leb 15 entry && ltb entry retire) wrong_entry }
{
    unless(15 <= entry && entry < retire, Refusal::WrongEntry)
}

fn age_rule(retire: u64, m: Member) -> Result<(), Refusal>
    ensures { verdict result ≡ Rules·unless (Rules·between m.entry retire m.age) wrong_age }
{
    unless_between(m.entry, retire, m.age, Refusal::WrongAge)
}

// Accepts a plan with its amendments and its rows.
pub fn accept_plan(p: Plan, amendments: &[[u64; 4]], rows: Rows) -> Result<(), Refused>
    ensures { outcome result ≡ acceptance_of (amended_refusal p (amendments_from amendments.now) rows) }
{
    plan_refusal(p, amendments, rows)?;
    Ok(())
}

// Rules 5.3 and 5.5: a lone member, after its plan. It is the only line of its person, so nothing is summed.
pub fn lone_refusal(p: Plan, amendments: &[[u64; 4]], rows: Rows, m: Member) -> Result<(), Refusal>
    ensures { verdict result ≡ lone_refusal p (amendments_from amendments.now) rows m }
{
    plan_refusal(p, amendments, rows)?;
    let valued = as_valued(p, amendments);
    member_benefit(valued, &rows, 0, m)?;
    Ok(())
}

// Accepts a lone member of a plan.
pub fn accept_member(p: Plan, amendments: &[[u64; 4]], rows: Rows, m: Member) -> Result<(), Refused>
    ensures { outcome result ≡ acceptance_of (lone_refusal p (amendments_from amendments.now) rows m) }
{
    lone_refusal(p, amendments, rows, m)?;
    Ok(())
}
