// The rows of the table, RULES section 3: the rules of each, and their order; specs/Table.antt has what every contract is an
// equation with.
#![tactic(auto)]

ghost use Rattle.std.specs.Prelude.{◌≡◌, ◌&&◌, cond, true, eqb, leb};
ghost use Rattle.rates.specs.Table.{first_age, ages};
ghost use Rattle.rules.specs.Refusals.{out_of_range, wrong_last_death, wrong_weight, verdict};
ghost use Rattle.rules.specs.Rules.{first_among};
ghost use Rattle.rules.specs.Rules.{unless as Rules·unless, between as Rules·between};
ghost use Rattle.row_rules.specs.Table.{row_rules, row_numbers, rows_refusal};

use rates::{FIRST_AGE, LAST_AGE, Rows};
use rules::refusals::Refusal;
use rules::{between, unless};

// The four numbers of a row, as wide as a file can hold them.
#[derive(Clone, Copy)]
pub struct Row {
    pub death: u64,
    pub withdrawal: u64,
    pub disability: u64,
    pub weight: u64,
}

// A row of the table, rule 3.1.
impl From<[u32; 4]> for Row {
    ghost from_gives = { λ row r. r ≡ row_numbers row };

    fn from([death, withdrawal, disability, weight]: [u32; 4]) -> Row {
        Row {
            death: u64::from(death),
            withdrawal: u64::from(withdrawal),
            disability: u64::from(disability),
            weight: u64::from(weight),
        }
    }
}

impl From<[u64; 4]> for Row {
    ghost from_gives = { λ row r. r ≡ row_numbers row };

    fn from([death, withdrawal, disability, weight]: [u64; 4]) -> Row {
        Row {
            death,
            withdrawal,
            disability,
            weight,
        }
    }
}

// Rules 3.2, 3.4 and 3.5 of the row of age k, where the age before has the weight `before`.
pub fn row_rule(k: usize, before: u64, row: Row) -> Result<(), Refusal>
    ensures { verdict result ≡ first_among (row_rules k before row) }
{
    rates_rule(row)?;
    last_age_rule(k, row.death)?;
    weight_rule(before, row.weight)
}

fn rates_rule(row: Row) -> Result<(), Refusal>
    ensures { verdict result ≡ Rules·unless (leb row.death 1000000 && (leb row.withdrawal 1000000 && leb row.disability 1000000)) out_of_range }
{
    let most = 1_000_000;
    unless(
        row.death <= most && row.withdrawal <= most && row.disability <= most,
        Refusal::OutOfRange,
    )
}

// Rule 3.4: nobody lives past 120.
fn last_age_rule(k: usize, death: u64) -> Result<(), Refusal>
    ensures { verdict result ≡ Rules·unless (cond (eqb k 120) (eqb death 1000000) true) wrong_last_death }
{
    unless(k != LAST_AGE || death == 1_000_000, Refusal::WrongLastDeath)
}

fn weight_rule(before: u64, weight: u64) -> Result<(), Refusal>
    ensures { verdict result ≡ Rules·unless (Rules·between 1000 100000 weight && leb before weight) wrong_weight }
{
    unless(
        between(1000, 100_000, weight) && before <= weight,
        Refusal::WrongWeight,
    )
}

// The first refusal of all rows.
pub fn rows_refusal(rows: Rows) -> Result<(), Refusal>
    ensures { verdict result ≡ rows_refusal rows first_age ages }
{
    let mut before: u64 = 0;
    for k in FIRST_AGE..=LAST_AGE {
        let row = Row::from(rows[k - FIRST_AGE]);
        row_rule(k, before, row)?;
        before = row.weight;
    }
    Ok(())
}
