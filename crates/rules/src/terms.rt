// The terms of a plan in the order of the heading's lines (rule 2.1), the rule of each, and their order.
ghost use Rattle.std.specs.Prelude.{◌≡◌, [], length};
ghost use Rattle.rules.specs.Refusals.{verdict};
ghost use Rattle.rules.specs.Rules.{first_among};
ghost use Rattle.rules.specs.Heading.{pay_rule, unit_most, unit_rule, average_rule, term_rule, term_rules, ruled, head_rules};

use crate::refusals::Refusal;
use crate::{unless, unless_between};
use plan::{Plan, TERMS, Terms};

// The rule of the term with k before it, for the value v: its refusal where it is broken. Of `terms` only those before it count.
pub fn term_rule(k: usize, terms: &Terms, v: u64) -> Result<(), Refusal>
    ensures { verdict result ≡ term_rule k terms.now v }
{
    match k {
        0 => unless(v <= 2000, Refusal::OutOfRange),
        1 => unless_between(50, 75, v, Refusal::OutOfRange),
        2 => pay_rule(v),
        3 => unless_between(1, 3, v, Refusal::PlanForm),
        4 => unit_rule(terms[3], v),
        5 => average_rule(terms[3], v),
        6 => unless_between(1, 5, v, Refusal::PlanForm),
        7 => unless(v <= 99_999_999_999_999, Refusal::OutOfRange),
        8 => unless_between(1, 40, v, Refusal::OutOfRange),
        _ => Ok(()),
    }
}

// Rule 2.10: a pension is paid by the year or by the month.
fn pay_rule(pay: u64) -> Result<(), Refusal>
    ensures { verdict result ≡ pay_rule pay }
{
    match pay {
        1 | 12 => Ok(()),
        _ => Err(Refusal::OutOfRange),
    }
}

// Rule 2.5: cents a year by flat, else basis points of pay.
pub fn unit_most(formula: u64) -> u64
    ensures { result ≡ unit_most formula }
{
    if formula == 1 { 100_000 } else { 500 }
}

fn unit_rule(formula: u64, unit: u64) -> Result<(), Refusal>
    ensures { verdict result ≡ unit_rule formula unit }
{
    unless(unit <= unit_most(formula), Refusal::OutOfRange)
}

// Rule 2.6: only the final average has one.
fn average_rule(formula: u64, average: u64) -> Result<(), Refusal>
    ensures { verdict result ≡ average_rule formula average }
{
    if formula == 3 {
        unless_between(1, 10, average, Refusal::WrongAverage)
    } else {
        unless(average == 0, Refusal::WrongAverage)
    }
}

// The heading, rules 2.2 to 2.10.
pub fn head_refusal(p: Plan) -> Result<(), Refusal>
    ensures { verdict result ≡ first_among (head_rules p) }
{
    terms_refusal(&Terms::from(p))
}

// The first refusal of the terms.
fn terms_refusal(terms: &Terms) -> Result<(), Refusal>
    requires { length terms.now ≡ length term_rules }
    ensures { verdict result ≡ first_among (ruled term_rules [] terms.now) }
{
    for k in 0..TERMS {
        term_rule(k, terms, terms[k])?;
    }
    Ok(())
}
