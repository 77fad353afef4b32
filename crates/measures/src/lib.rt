// What a method counts by, worked from a plan, a table and a member: benefit, years, weights or a temporary annuity. The
// annuities are an engine's: it hands in G of all ages, and T or Z from entry up to k and up to r, and here the parts are
// made of them, for any engine alike.
#![tactic(auto)]

ghost use Rattle.std.specs.Prelude.{◌≡◌, ◌-◌, ◌≤◌, ◌<◌};
ghost use Rattle.rates.specs.Table.{weight};
ghost use Rattle.factors.specs.Factors.{G};
ghost use Rattle.year_steps.specs.Filled.{Filled};
ghost use Rattle.plan.specs.Weights.{summed};
ghost use Rattle.plan.specs.Ranges.{MemberRanges};
ghost use Rattle.costs.specs.Valuation.{setting_of, plan_basis};
ghost use Rattle.parts.specs.Parts.{earned as Parts·earned, added as Parts·added, adds as Parts·adds, divisor as Parts·divisor, parts_at};
ghost use Rattle.measures.specs.Temporary.{temporary};

use parts::Parts;
use plan::benefit::{accrued_benefit, weights_between};
use plan::{Member, Method, Plan};
use rates::Rows;
use year_steps::{Factors, of_age};

// The parts of an accepted member at an age k of its own, by any method: `g` has G, `past` is T or Z up to k, and `all`
// up to r.
pub fn parts_from(
    p: Plan,
    rows: &Rows,
    m: Member,
    method: Method,
    k: usize,
    g: &Factors,
    past: u64,
    all: u64,
) -> Parts
    requires { MemberRanges p rows.now m × (m.entry ≤ k) × (k ≤ p.retire) × Filled (G (plan_basis p rows.now)) p.retire 15 g.now × (past ≡ temporary (plan_basis p rows.now) method m.entry k) × (all ≡ temporary (plan_basis p rows.now) method m.entry p.retire) }
    ensures { result ≡ parts_at (setting_of p rows.now m) k method }
{
    let benefit = accrued_benefit(p, rows, m, p.retire);
    let deferred = of_age(g, k);
    let entered = of_age(g, m.entry as usize);
    let earned = earned(p, rows, m, method, k, past);
    let added = added(p, rows, m, method, k, earned);
    let divisor = divisor(p, rows, m, method, all);
    Parts {
        benefit,
        deferred,
        entered,
        earned,
        added,
        divisor,
    }
}

// What is earned by age k, in the method's own measure: of T or Z, `past`.
fn earned(p: Plan, rows: &Rows, m: Member, method: Method, k: usize, past: u64) -> u64
    requires { MemberRanges p rows.now m × (m.entry ≤ k) × (k ≤ p.retire) × (past ≡ temporary (plan_basis p rows.now) method m.entry k) }
    ensures { result ≡ Parts·earned (setting_of p rows.now m) k method }
{
    match method {
        Method::AB => accrued_benefit(p, rows, m, k as u64),
        Method::BD => k as u64 - m.entry,
        Method::BP => weights_from_entry(p, rows, m, k),
        Method::CD | Method::CP => past,
    }
}

// What the year from age k on adds to what is earned by k: nothing from r on.
fn added(p: Plan, rows: &Rows, m: Member, method: Method, k: usize, earned: u64) -> u64
    requires { MemberRanges p rows.now m × (m.entry ≤ k) × (earned ≡ Parts·earned (setting_of p rows.now m) k method) }
    ensures { result ≡ Parts·added (setting_of p rows.now m) k method }
{
    if p.retire as usize <= k {
        return 0;
    }
    adds(p, rows, m, method, k, earned)
}

// The same below r. By AB that is B(k+1) less what is earned, so that B(k) is worked once.
fn adds(p: Plan, rows: &Rows, m: Member, method: Method, k: usize, earned: u64) -> u64
    requires { MemberRanges p rows.now m × (m.entry ≤ k) × (k < p.retire) × (earned ≡ Parts·earned (setting_of p rows.now m) k method) }
    ensures { result ≡ Parts·adds (setting_of p rows.now m) k method }
{
    match method {
        Method::AB => accrued_benefit(p, rows, m, k as u64 + 1) - earned,
        Method::BD | Method::CD => 1,
        Method::BP | Method::CP => rates::weight(rows, k),
    }
}

// What N and L are divided by: of T or Z, `all`.
fn divisor(p: Plan, rows: &Rows, m: Member, method: Method, all: u64) -> u64
    requires { MemberRanges p rows.now m × (all ≡ temporary (plan_basis p rows.now) method m.entry p.retire) }
    ensures { result ≡ Parts·divisor (setting_of p rows.now m) method }
{
    match method {
        Method::AB => year_steps::S,
        Method::BD => p.retire - m.entry,
        Method::BP => weights_from_entry(p, rows, m, p.retire as usize),
        Method::CD | Method::CP => all,
    }
}

// The weights of the ages from y to e - 1, for an age e of the member.
fn weights_from_entry(p: Plan, rows: &Rows, m: Member, e: usize) -> u64
    requires { MemberRanges p rows.now m × (m.entry ≤ e) × (e ≤ p.retire) }
    ensures { result ≡ summed (weight rows.now) m.entry (e - m.entry) }
{
    weights_between(rows, m.entry, e as u64)
}
