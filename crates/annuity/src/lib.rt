// The annuity factors, RULES section 8, worked: A, G, T, Z and C in billionths. The crate `factors` has the factors, rounded and
// exact, in the rules' letters, and how far apart the two lie. Here they are worked: the rows go by value to the functions of A, G, T
// and Z, and by reference to the one fill of the crate `year_steps`,
// which says why they come beside r and i and not in one value with them. Each `requires` is what an accepted plan shows.
#![tactic(auto)]

ghost use Rattle.std.specs.Prelude.{◌≡◌, ◌≤◌};
ghost use Rattle.rates.specs.Table.{Table};
ghost use Rattle.factors.specs.Basis.{basis, payable};
ghost use Rattle.factors.specs.Factors.{A as Factors-as-A, pension as Factors·pension, G, T, Z, C};
ghost use Rattle.year_steps.specs.Filled.{Filled};

use rates::{FIRST_AGE, Rows};
use year_steps::{Amount, Factors, S, fill};

// Rule 8.4: A(k) for each age.
pub fn life_annuity(rows: Rows, r: usize, i: u64) -> Factors
    requires { Table rows × (i ≤ 2000) }
    ensures { Filled (Factors-as-A (basis rows r i)) 120 15 result }
{
    life_of(&rows, r, i)
}

// The same where the rows are lent.
#[tactic(auto, unfolding(factors::specs::Factors::A, year_steps::specs::Filled::factor, year_steps::specs::Filled::paid_of))]
fn life_of(rows: &Rows, r: usize, i: u64) -> Factors
    requires { Table rows.now × (i ≤ 2000) }
    ensures { Filled (Factors-as-A (basis rows.now r i)) 120 15 result }
{
    fill(rows, r, i, Amount::One, 120, S)
}

// Rule 8.5: 11/24, which payment by the month takes off, in billionths.
const MONTHLY_LESS: u64 = 458_333_333;

// Rule 8.5, the annuity that a pension is worth at retirement: A(r), and less where it is paid by the month.
fn pension(rows: &Rows, r: usize, pay: u64, i: u64) -> u64
    requires { Table rows.now × (i ≤ 2000) × (15 ≤ r) × (r ≤ 120) }
    ensures { result ≡ Factors·pension (payable pay (basis rows.now r i)) }
{
    let life = life_of(rows, r, i);
    let yearly = life[r - FIRST_AGE];
    if pay == 12 {
        return yearly - MONTHLY_LESS;
    }
    yearly
}

// Rule 8.5: G(k) for each age up to r, of a pension that is paid so many times a year.
pub fn deferred_annuity(rows: Rows, r: usize, pay: u64, i: u64) -> Factors
    requires { Table rows × (i ≤ 2000) × (15 ≤ r) × (r ≤ 120) }
    ensures { Filled (G (payable pay (basis rows r i))) r 15 result }
{
    let start = pension(&rows, r, pay, i);
    fill(&rows, r, i, Amount::Nothing, r, start)
}

// Rule 8.6: T(k,e) for each age up to e.
#[tactic(auto, unfolding(factors::specs::Factors::T, year_steps::specs::Filled::factor, year_steps::specs::Filled::paid_of))]
pub fn working_annuity(rows: Rows, r: usize, i: u64, e: usize) -> Factors
    requires { Table rows × (i ≤ 2000) × (15 ≤ e) × (e ≤ 120) }
    ensures { Filled (λ k. T (basis rows r i) k e) e 15 result }
{
    fill(&rows, r, i, Amount::One, e, 0)
}

// Rule 8.7: Z(k,e) for each age up to e.
#[tactic(auto, unfolding(factors::specs::Factors::Z, year_steps::specs::Filled::factor, year_steps::specs::Filled::paid_of))]
pub fn pay_annuity(rows: Rows, r: usize, i: u64, e: usize) -> Factors
    requires { Table rows × (i ≤ 2000) × (15 ≤ e) × (e ≤ 120) }
    ensures { Filled (λ k. Z (basis rows r i) k e) e 15 result }
{
    fill(&rows, r, i, Amount::Weight, e, 0)
}

// Rule 8.8: C, of m payments that are certain.
pub fn certain_annuity(i: u64, m: u64) -> u64
    requires { (i ≤ 2000) × (m ≤ 40) }
    ensures { result ≡ C i m }
{
    let mut c = 0;
    for _ in 0..m {
        c = S + rounding::mul_div_nearest(c, 1_000_000, 100 * (10_000 + i));
    }
    c
}
