// Amendments to the unit, as the crate amendments defines them: the rules of each after those before it, and the plan as it is valued, with
// the additions in force. A list is handed in as plain values, four numbers for each amendment.
#![tactic(auto)]

ghost use Rattle.std.specs.Prelude.{◌≡◌, ◌&&◌, ◌||◌, [], length, ltb, eqb};
ghost use Rattle.rules.specs.Refusals.{wrong_amendment, unlisted_rest, verdict};
ghost use Rattle.rules.specs.Rules.{unless as Rules·unless};
ghost use Rattle.amendments.specs.Force.{amendments_from, in_force, as_valued};
ghost use Rattle.amendments.specs.Force.{listed as Force·listed, stands as Force·stands, additions as Force·additions};
ghost use Rattle.amendments.specs.Judging.{most_amendments, last_number, field_refusal, amendment_refusal, unit_refusal, each_refusal, amendments_refusal};

use plan::{Amendment, MOST_AMENDMENTS, Plan};
use rules::refusals::Refusal;
use rules::terms::unit_most;
use rules::{between, unless};

// Whether an amendment of a list has the number.
fn listed(number: u64, list: &[[u64; 4]]) -> bool
    ensures { result ≡ Force·listed number (amendments_from list.now) }
{
    // Not by `any`: the proof of its closure didn't close.
    for &a in list {
        if Amendment::from(a).number == number {
            return true;
        }
    }
    false
}

// Rule 2.11: the ranges of its fields.
pub fn fields_rule(a: Amendment) -> Result<(), Refusal>
    ensures { verdict result ≡ field_refusal a }
{
    unless(
        between(1, 999, a.number) && a.rests <= 999 && a.add <= 100_000 && a.struck <= 1,
        Refusal::OutOfRange,
    )
}

// The number of the last of a list, 0 where there is none.
fn last_number(list: &[[u64; 4]]) -> u64
    ensures { result ≡ last_number (amendments_from list.now) }
{
    match list.last() {
        Some(&last) => Amendment::from(last).number,
        None => 0,
    }
}

// Rule 2.11: the numbers rise, and there are 20 at most.
fn order_rule(before: &[[u64; 4]], number: u64) -> Result<(), Refusal>
    ensures { verdict result ≡ Rules·unless (ltb (last_number (amendments_from before.now)) number && ltb (length (amendments_from before.now)) most_amendments) wrong_amendment }
{
    unless(
        last_number(before) < number && before.len() < MOST_AMENDMENTS,
        Refusal::WrongAmendment,
    )
}

// Rule 2.11: it rests on none, or on one that is listed before it.
fn rest_rule(before: &[[u64; 4]], rests: u64) -> Result<(), Refusal>
    ensures { verdict result ≡ Rules·unless (eqb rests 0 || Force·listed rests (amendments_from before.now)) unlisted_rest }
{
    unless(rests == 0 || listed(rests, before), Refusal::UnlistedRest)
}

// The rules of an amendment after those before it.
pub fn amendment_rule(before: &[[u64; 4]], a: Amendment) -> Result<(), Refusal>
    ensures { verdict result ≡ amendment_refusal (amendments_from before.now) a }
{
    fields_rule(a)?;
    order_rule(before, a.number)?;
    rest_rule(before, a.rests)
}

// Rule 2.12: whether it is in force, after those that are.
fn stands(force: &[[u64; 4]], a: Amendment) -> bool
    ensures { result ≡ Force·stands (amendments_from force.now) a }
{
    a.struck == 0 && (a.rests == 0 || listed(a.rests, force))
}

// Rule 2.13: the additions in force. Those in force so far stand at the front of `force`.
fn additions(list: &[[u64; 4]]) -> u64
    requires { each_refusal [] (amendments_from list.now) ≡ 0 }
    ensures { result ≡ Force·additions (in_force (amendments_from list.now)) }
{
    let mut force = [[0; 4]; MOST_AMENDMENTS];
    let mut sum = 0;
    let mut n = 0;
    for &numbers in list {
        let a = Amendment::from(numbers);
        if stands(&force[..n], a) {
            force[n] = numbers;
            sum += a.add;
            n += 1;
        }
    }
    sum
}

// Rule 2.13: the unit valued, of a list whose amendments are kept one by one. Nothing is added that might not fit.
pub fn unit_rule(p: Plan, list: &[[u64; 4]]) -> Result<(), Refusal>
    requires { each_refusal [] (amendments_from list.now) ≡ 0 }
    ensures { verdict result ≡ unit_refusal p (amendments_from list.now) }
{
    if list.is_empty() {
        return Ok(());
    }
    let most = unit_most(p.formula);
    if most < p.unit {
        return Err(Refusal::HighUnit);
    }
    unless(additions(list) <= most - p.unit, Refusal::HighUnit)
}

// The amendments in turn, up to the first that is refused.
fn each_refusal(list: &[[u64; 4]]) -> Result<(), Refusal>
    ensures { verdict result ≡ each_refusal [] (amendments_from list.now) }
{
    for (j, &a) in list.iter().enumerate() {
        amendment_rule(&list[..j], Amendment::from(a))?;
    }
    Ok(())
}

// Rule 5.6: a list handed in as plain values.
pub fn amendments_refusal(p: Plan, list: &[[u64; 4]]) -> Result<(), Refusal>
    ensures { verdict result ≡ amendments_refusal p (amendments_from list.now) }
{
    each_refusal(list)?;
    unit_rule(p, list)
}

// The plan as it is valued, of a list that is accepted.
pub fn as_valued(p: Plan, list: &[[u64; 4]]) -> Plan
    requires { amendments_refusal p (amendments_from list.now) ≡ 0 }
    ensures { result ≡ as_valued p (amendments_from list.now) }
{
    Plan {
        unit: p.unit + additions(list),
        ..p
    }
}
