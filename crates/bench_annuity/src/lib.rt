// What bench/annuity measures: one fill of A and one of Z, which bench_annuity_c exports under C names. A table comes as
// 424 numbers, the death, withdrawal, disability and weight of each age in turn. Each answers false, and fills nothing,
// where the table or another argument is not what the annuity functions require; so it requires nothing itself. The
// program test_annuity_factors tests its tables by `is_table` too.
#![tactic(auto)]

ghost use Rattle.std.specs.Prelude.{true, ◌≡◌, ◌+◌, ◌≤◌, length};
ghost use Rattle.rates.specs.Table.{Sound, Table};
ghost use Rattle.factors.specs.Basis.{basis};
ghost use Rattle.factors.specs.Factors.{A as Factors-as-A, Z};
ghost use Rattle.year_steps.specs.Filled.{Filled};
ghost use Rattle.bench_annuity.specs.Rows.{row_at, rows_of};

use rates::{AGES, Rows};

// A(k) for each age.
pub fn bench_annuity_life_annuity(numbers: &[u32], r: usize, i: u64, out: &mut [u64]) -> bool
    ensures { result ≡ true → Filled (Factors-as-A (basis (rows_of numbers.now) r i)) 120 15 out.new }
{
    if numbers.len() != 424 || out.len() != AGES || i > 2000 {
        return false;
    }
    let rows = rows_of(numbers);
    if !is_table(rows) {
        return false;
    }
    out.copy_from_slice(&annuity::life_annuity(rows, r, i));
    true
}

// Z(k,e) for each age up to e.
pub fn bench_annuity_pay_annuity(
    numbers: &[u32],
    r: usize,
    i: u64,
    e: usize,
    out: &mut [u64],
) -> bool
    ensures { result ≡ true → Filled (λ k. Z (basis (rows_of numbers.now) r i) k e) e 15 out.new }
{
    if numbers.len() != 424 || out.len() != AGES || i > 2000 || e < 15 || e > 120 {
        return false;
    }
    let rows = rows_of(numbers);
    if !is_table(rows) {
        return false;
    }
    out.copy_from_slice(&annuity::pay_annuity(rows, r, i, e));
    true
}

// The rows of a table.
pub fn rows_of(numbers: &[u32]) -> Rows
    requires { length numbers.now ≡ 424 }
    ensures { result ≡ rows_of numbers.now }
{
    let mut rows = [[0u32; 4]; AGES];
    for j in 0..AGES {
        rows[j] = row_at(numbers, 4 * j);
    }
    rows
}

fn row_at(numbers: &[u32], at: usize) -> [u32; 4]
    requires { at + 4 ≤ length numbers.now }
    ensures { result ≡ row_at numbers.now at }
{
    [
        numbers[at],
        numbers[at + 1],
        numbers[at + 2],
        numbers[at + 3],
    ]
}

// Tells whether the annuity functions take the rows.
pub fn is_table(rows: Rows) -> bool
    ensures { result ≡ true → Table rows }
{
    rows.iter().all(|row| is_sound(*row))
}

fn is_sound(row: [u32; 4]) -> bool
    ensures { result ≡ true → Sound row }
{
    let [death, withdrawal, disability, weight] = row;
    let most = 1_000_000;
    death <= most && withdrawal <= most && disability <= most && weight <= 100_000
}
