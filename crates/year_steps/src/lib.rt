// The year step of rule 8.3, and one fill, downward from the last age, that serves all annuity factors: A, G, T and Z of the
// crate annuity, and the columns of the crate columns. The crate `rates` has the table, and staying by its rows; the crate `factors`
// the factors, rounded and exact. An array has a place for each of the 106 ages; age k stands at place k - 15. Each `requires` is
// what an accepted plan shows.
#![tactic(auto)]

ghost use Rattle.std.specs.Prelude.{◌≡◌, ◌+◌, ◌-◌, ◌*◌, ◌≤◌, get_or};
ghost use Rattle.rounding.specs.Nearest.{nearest};
ghost use Rattle.rates.specs.Rates.{stays};
ghost use Rattle.rates.specs.Table.{Sound, Table, first_age, ages};
ghost use Rattle.factors.specs.Basis.{basis};
ghost use Rattle.factors.specs.Factors.{S as Factors-as-S};
ghost use Rattle.year_steps.specs.Filled.{Filled, paid_of, factor};

use rates::{AGES, FIRST_AGE, Rows};

// Rule 8.1: one, in billionths.
pub const S: u64 = 1_000_000_000;

// Rule 8.9: a factor for each age.
pub type Factors = [u64; AGES];

// Rule 8.3, the year step: the factor f of age k + 1 as it counts at k, by the row of age k.
fn step(row: [u32; 4], r: usize, i: u64, k: usize, f: u64) -> u64
    requires { Sound row × (i ≤ 2000) }
    ensures { result ≡ nearest (f * stays row r k) (100 * (10000 + i)) }
{
    rounding::mul_div_nearest(f, rates::staying(row, r, k), 100 * (10_000 + i))
}

// What an array of factors holds for age k.
pub fn of_age(a: &Factors, k: usize) -> u64
    requires { (15 ≤ k) × (k ≤ 120) }
    ensures { result ≡ get_or a.now (k - first_age) 0 }
{
    a[k - FIRST_AGE]
}

// What is paid at the start of each year: nothing, one, or the age's weight.
#[derive(Clone, Copy)]
pub enum Amount {
    Nothing,
    One,
    Weight,
}

#[tactic(auto, unfolding(crate::specs::Filled::paid_of))]
fn amount_of(row: [u32; 4], amount: Amount) -> u64
    requires { Sound row }
    ensures { result ≡ paid_of (get_or row 3 0) amount }
{
    match amount {
        Amount::Nothing => 0,
        Amount::One => S,
        Amount::Weight => u64::from(row[3]) * S,
    }
}

// Rule 8.9: the factor of each age up to `top`, filled downward from `start` there. Rows, r and i come one by one, as A, G, T and Z
// have them, who take the rows by value: a struct of the three would be taken apart at each call.
pub fn fill(rows: &Rows, r: usize, i: u64, amount: Amount, top: usize, start: u64) -> Factors
    requires { Table rows.now × (i ≤ 2000) × (15 ≤ top) × (top ≤ 120) × (start ≤ ages * Factors-as-S) }
    ensures { Filled (factor (basis rows.now r i) amount top start) top 15 result }
{
    let mut a = [0u64; AGES];
    a[top - FIRST_AGE] = start;
    let mut f = start;
    for k in (FIRST_AGE..top).rev() {
        let row = rows[k - FIRST_AGE];
        f = amount_of(row, amount) + step(row, r, i, k, f);
        a[k - FIRST_AGE] = f;
    }
    a
}
