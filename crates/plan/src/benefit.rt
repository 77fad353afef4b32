// Pay and benefit, RULES section 7: B(k) at an age of a member, from exact pay, rounded once to the cent.
ghost use Rattle.std.specs.Prelude.{◌≡◌, ◌-◌, ◌*◌, ◌^◌, ◌≤◌, ◌<◌, sum_by, get_or};
ghost use Rattle.rounding.specs.Nearest.{nearest};
ghost use Rattle.rates.specs.Table.{Table, weight as Table·weight};
ghost use Rattle.plan.specs.Weights.{summed, first_paid};
ghost use Rattle.plan.specs.Benefit.{formula_of, B};
ghost use Rattle.plan.specs.Ranges.{PlanRanges, InRange};

use crate::{Formula, Member, Plan};
use rates::{FIRST_AGE, Rows, weight};

// The formula of a code that is accepted. No `From`, since any other code passes for final too.
#[tactic(auto, unfolding(crate::specs::Benefit::formula_of))]
fn formula_of(code: u64) -> Formula
    ensures { result ≡ formula_of code }
{
    match code {
        1 => Formula::Flat,
        2 => Formula::Career,
        _ => Formula::Final,
    }
}

// u / 10000 of the pay of ages whose weights sum to `weights`; pay is in proportion to the weight, and `now` is that of
// the member's own age.
fn career(unit: u64, salary: u64, weights: u64, now: u64) -> u64
    requires { (unit ≤ 500) × (salary ≤ 100000000) × (weights ≤ 10600000) × (0 < now) × (now ≤ 100000) }
    ensures { result ≡ nearest (unit * (salary * weights)) (10000 * now) }
{
    rounding::div_nearest(unit * (salary * weights), 10_000 * now)
}

// u / 10000 for each of the years, of the mean pay of n ages.
fn final_average(unit: u64, years: u64, salary: u64, weights: u64, n: u64, now: u64) -> u64
    requires { (unit ≤ 500) × (years ≤ 60) × (salary ≤ 100000000) × (weights ≤ 1000000) × (0 < n) × (n ≤ 10) × (0 < now) × (now ≤ 100000) }
    ensures { result ≡ nearest (unit * years * (salary * weights)) (10000 * (n * now)) }
{
    rounding::div_nearest(unit * years * (salary * weights), 10_000 * (n * now))
}

// The weights of some rows, added up where they stand.
fn weights_in(rows: &[[u32; 4]]) -> u64
    requires { sum_by (λ row. get_or row 3 0) rows.now < 2 ^ 64 }
    ensures { result ≡ sum_by (λ row. get_or row 3 0) rows.now }
{
    rows.iter()
        .map(|[_, _, _, weight]| u64::from(*weight))
        .sum()
}

// The weights of the ages from a to b - 1.
pub fn weights_between(rows: &Rows, a: u64, b: u64) -> u64
    requires { Table rows.now × (15 ≤ a) × (a ≤ b) × (b ≤ 120) }
    ensures { result ≡ summed (Table·weight rows.now) a (b - a) }
{
    weights_in(&rows[a as usize - FIRST_AGE..b as usize - FIRST_AGE])
}

// The first of the ages whose pay B(k) rests on: by flat k itself, since it rests on none.
#[tactic(auto, unfolding(crate::specs::Weights::first_paid))]
fn first_paid(formula: Formula, average: u64, entry: u64, k: u64) -> u64
    requires { entry ≤ k }
    ensures { result ≡ first_paid formula average entry k }
{
    match formula {
        Formula::Flat => k,
        Formula::Career => entry,
        Formula::Final => k - average.min(k - entry),
    }
}

// Rules 7.3 to 7.7, B(k): what has accrued by age k. The ages whose pay it rests on go from `first` to k - 1, and `weights`
// is the sum of theirs.
fn benefit(p: Plan, rows: &Rows, m: Member, k: u64, first: u64, weights: u64) -> u64
    requires { PlanRanges p rows.now × InRange p m × (m.entry ≤ k) × (k ≤ p.retire) × (first ≡ first_paid (formula_of p.formula) p.average m.entry k) × (weights ≡ summed (Table·weight rows.now) first (k - first)) }
    ensures { result ≡ B p rows.now m k }
{
    let entry = m.entry;
    if k <= entry {
        return 0;
    }
    let years = k - entry;
    let now = weight(rows, m.age as usize);
    match formula_of(p.formula) {
        Formula::Flat => p.unit * years,
        Formula::Career => career(p.unit, m.salary, weights, now),
        Formula::Final => final_average(p.unit, years, m.salary, weights, k - first, now),
    }
}

// B(k), for an age k from entry to retirement.
pub fn accrued_benefit(p: Plan, rows: &Rows, m: Member, k: u64) -> u64
    requires { PlanRanges p rows.now × InRange p m × (m.entry ≤ k) × (k ≤ p.retire) }
    ensures { result ≡ B p rows.now m k }
{
    let first = first_paid(formula_of(p.formula), p.average, m.entry, k);
    benefit(p, rows, m, k, first, weights_between(rows, first, k))
}
