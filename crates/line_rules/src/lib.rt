// The range rules of a member line after those before it, rules 4.2 to 4.7, 7.8 and 7.10: its own, and the sum of its person, to which its
// benefit is added.
#![tactic(auto)]

ghost use Rattle.std.specs.Prelude.{◌≡◌, true, cond, ℕ, ◌+◌, ◌<◌, eqb, OnOk};
ghost use Rattle.plan.specs.Benefit.{B};
ghost use Rattle.rules.specs.Refusals.{verdict};
ghost use Rattle.rule_order.specs.Acceptance.{plan_refusal, line_refusal};
ghost use Rattle.persons.specs.Held.{held};
ghost use Rattle.persons.specs.Search.{Rooted};
ghost use Rattle.walk.specs.Settled.{settled};

use acceptance::member_benefit;
use persons::Persons;
use plan::{Member, Plan};
use rates::Rows;
use rules::refusals::Refusal;

// The range rules of a member after `count` others, where the ranges are settled. Where none refuses it its benefit is added to its
// person's. After a refusal the persons are left open, and so is what they hold where the ranges aren't settled. Not by `settled`: of a closure
// that changes the persons nothing would be known afterwards.
pub fn line_refusal(
    ranges: bool,
    p: Plan,
    rows: &Rows,
    before: u64,
    m: Member,
    count: usize,
    persons: &mut Persons,
) -> Result<(), Refusal>
    requires { (ranges ≡ true → plan_refusal p rows.now ≡ 0) × (count < 1000) × Rooted persons.old.cells persons.old.sums count }
    ensures refusal { verdict result ≡ settled ranges (line_refusal p rows.now before (held persons.old.sums m.person) m) }
    ensures rooted { OnOk result (Rooted persons.new.cells persons.new.sums (count + 1)) }
    ensures person_after { OnOk result (ranges ≡ true → (person : ℕ) → held persons.new.sums person ≡ held persons.old.sums person + cond (eqb m.person person) (B p rows.now m p.retire) 0) }
{
    if !ranges {
        return Ok(());
    }
    let benefit = member_benefit(p, rows, before, m)?;
    persons.add(count, m.person, benefit)
}
