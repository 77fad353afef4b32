// T and Z for every pair of ages that is asked for, rules 8.6, 8.7 and 8.11: there is a column for each end age from 15 to 75,
// with a place for every age, and it is filled when it is first needed, by the one fill of the crate year_steps.
// specs/Columns.antt says what the columns hold that are filled, and that they stay so; no other is read. Each `requires` is
// what an accepted plan and member show.
#![tactic(auto)]

ghost use Rattle.std.specs.Prelude.{◌≡◌, ℕ, ◌-◌, ◌≤◌, get_or};
ghost use Rattle.rates.specs.Table.{Table, first_age};
ghost use Rattle.factors.specs.Basis.{basis};
ghost use Rattle.year_steps.specs.Filled.{factor};
ghost use Rattle.columns.specs.Columns.{last_end, column, Marked, FilledColumns, ColumnsKept};

use rates::{AGES, FIRST_AGE, Rows};
use year_steps::{Amount, Factors, fill};

// Rules 2.3, 4.3 and 4.4: how many end ages there are, 15 to 75.
pub const ENDS: usize = 61;

// Columns of T or of Z, and which of them are filled. A mark beside a column and no Option in its place: who reads one has shown that it
// is filled, and would have an arm for one that isn't.
#[derive(Clone, Copy)]
pub struct Columns {
    pub factors: [Factors; ENDS],
    pub filled: [bool; ENDS],
}

impl Columns {
    // At first none is filled.
    pub fn new() -> Columns
        ensures { (F : (k e : ℕ) → ℕ) → FilledColumns F result.factors result.filled }
    {
        Columns {
            factors: [[0; AGES]; ENDS],
            filled: [false; ENDS],
        }
    }

    // The factor of age k that ends at e with nothing, by what is paid each year: T(k,e), rule 8.6, where that is one, and Z(k,e), rule 8.7,
    // where it is the age's weight.
    pub fn between(
        &mut self,
        rows: &Rows,
        r: usize,
        i: u64,
        amount: Amount,
        k: usize,
        e: usize,
    ) -> u64
        requires { Table rows.now × (i ≤ 2000) × (15 ≤ k) × (k ≤ e) × (e ≤ last_end) × FilledColumns (λ k e. factor (basis rows.now r i) amount e 0 k) self.old.factors self.old.filled }
        ensures value { result ≡ factor (basis rows.now r i) amount e 0 k }
        ensures filled_columns { FilledColumns (λ k e. factor (basis rows.now r i) amount e 0 k) self.new.factors self.new.filled }
        ensures columns_kept { ColumnsKept self.old.factors self.old.filled self.new.factors self.new.filled }
    {
        self.need_column(rows, r, i, amount, e);
        self.in_column(k, e)
    }

    // Fills the column of end age e, unless it is filled.
    fn need_column(&mut self, rows: &Rows, r: usize, i: u64, amount: Amount, e: usize)
        requires { Table rows.now × (i ≤ 2000) × (15 ≤ e) × (e ≤ last_end) × FilledColumns (λ k e. factor (basis rows.now r i) amount e 0 k) self.old.factors self.old.filled }
        ensures filled_columns { FilledColumns (λ k e. factor (basis rows.now r i) amount e 0 k) self.new.factors self.new.filled }
        ensures columns_kept { ColumnsKept self.old.factors self.old.filled self.new.factors self.new.filled }
        ensures marked { Marked self.new.filled e }
    {
        let filled = self.filled[e - FIRST_AGE];
        if !filled {
            self.factors[e - FIRST_AGE] = fill(rows, r, i, amount, e, 0);
            self.filled[e - FIRST_AGE] = true;
        }
    }

    // What the column of end age e holds for age k: it must be filled, so its mark is asked for, though not looked at.
    fn in_column(&self, k: usize, e: usize) -> u64
        requires { (15 ≤ k) × (k ≤ e) × (e ≤ last_end) × Marked self.now.filled e }
        ensures { result ≡ get_or (column self.now.factors e) (k - first_age) 0 }
    {
        self.factors[e - FIRST_AGE][k - FIRST_AGE]
    }
}
