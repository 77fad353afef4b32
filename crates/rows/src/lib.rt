// The table, RULES section 3: a row for each age from 15 to 120.
#![tactic(auto)]

ghost use Rattle.std.specs.Prelude.{◌≡◌, map, ◌≤◌};
ghost use Rattle.fields.specs.Values.{line_of};
ghost use Rattle.rules.specs.Refusals.{verdict};
ghost use Rattle.rules.specs.Rules.{first_among};
ghost use Rattle.row_rules.specs.Table.{row_rules, row_numbers};
ghost use Rattle.walk.specs.Settled.{settled as Settled·settled};
ghost use Rattle.walk.specs.Lines.{row_form};
ghost use Rattle.rows.specs.Narrow.{narrow_of};
ghost use Rattle.rows.specs.Stretch.{RowsAre};

use fields::{Fault, Line};
use rates::{AGES, FIRST_AGE, Rows};
use row_rules::{Row, row_rule};
use rules::refusals::{Refusal, Refused};
use stretches::{Next, at_line, plan_line, settled};
use values::whole_values;

// The line of an age's row: the four numbers after the age.
fn row_line(s: &[u8], age: u64) -> Line<4>
    ensures { result ≡ line_of (row_form age) s.now }
{
    let (values, end) = whole_values::<5>(s, b"row=")?;
    let [due, death, withdrawal, disability, weight] = values;
    if due != age {
        return Err(Fault::Wrong);
    }
    Ok(([death, withdrawal, disability, weight], end))
}

// The range rules of a row, where the ranges are settled.
fn row_refusal(ranges: bool, age: usize, before: u64, numbers: [u64; 4]) -> Result<(), Refusal>
    ensures { verdict result ≡ Settled·settled ranges (first_among (row_rules age before (row_numbers numbers))) }
{
    settled(ranges, || row_rule(age, before, Row::from(numbers)))
}

// A number in 32 bits; a larger one becomes the largest. Where the ranges are settled no number is larger.
fn narrow(x: u64) -> u32
    ensures { result ≡ narrow_of x }
{
    x.min(u64::from(u32::MAX)) as u32
}

fn narrow_row(numbers: [u64; 4]) -> [u32; 4]
    ensures { result ≡ map narrow_of numbers }
{
    numbers.map(narrow)
}

// Reads the rows from a line on, up to the first that is refused, and settles their ranges too where that is asked for.
// After a refusal the table is left open.
pub fn row_lines(s: &[u8], first: u64, ranges: bool, rows: &mut Rows) -> Result<Next, Refused>
    requires { first ≤ 65536 }
    ensures { RowsAre ranges first s.now result rows.new }
{
    // Nothing that the caller left there is taken for a row.
    *rows = [[0; 4]; AGES];
    let mut line = first;
    let mut at = 0;
    let mut before = 0;
    for k in 0..AGES {
        let age = k + FIRST_AGE;
        let (numbers, end) = plan_line(row_line(&s[at..], age as u64), line)?;
        at_line(row_refusal(ranges, age, before, numbers), line)?;
        rows[k] = narrow_row(numbers);
        before = numbers[3];
        line += 1;
        at += end + 1;
    }
    Ok(Next { line, at })
}
