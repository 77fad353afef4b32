// A plan's table, RULES section 3, and staying by its rates, rules 8.2 and 8.10: below r from rates for one cause alone.
// specs/Rates.antt has what a row's rates make of a million, rule by rule, and the figures worked by hand;
// specs/Table.antt the rows of a table, and what the code asks of them. An array has a row for each of the 106 ages; that
// of age k stands at place k - 15. Each `requires` is what an accepted plan shows.
#![tactic(auto)]

ghost use Rattle.std.specs.Prelude.{◌≡◌, ◌-◌, ◌*◌, ◌≤◌};
ghost use Rattle.rounding.specs.Nearest.{nearest};
ghost use Rattle.rates.specs.Rates.{able as Rates·able, stays};
ghost use Rattle.rates.specs.Table.{Sound, weight as Table·weight};

// Rule 3.1: the ages of a table, and how many they are.
pub const FIRST_AGE: usize = 15;

pub const LAST_AGE: usize = 120;

pub const AGES: usize = 106;

// Rule 3.1: a row for each age: three rates and the weight.
pub type Rows = [[u32; 4]; AGES];

// One rate alone, in millionths: of a million, how many are left.
fn left_by(rate: u32) -> u64
    requires { rate ≤ 1000000 }
    ensures { result ≡ 1000000 - rate }
{
    1_000_000 - u64::from(rate)
}

// Of a million, how many are left by two causes: by the one alone a, and by the other alone b.
fn left_by_both(a: u64, b: u64) -> u64
    requires { (a ≤ 1000000) × (b ≤ 1000000) }
    ensures { result ≡ nearest (a * b) 1000000 }
{
    rounding::div_nearest(a * b, 1_000_000)
}

// Rule 8.2, a, by the row of an age: of a million, how many neither die nor are disabled.
#[tactic(auto, unfolding(crate::specs::Rates::able))]
fn able(row: [u32; 4]) -> u64
    requires { Sound row }
    ensures { result ≡ Rates·able row }
{
    let [death, _, disability, _] = row;
    left_by_both(left_by(death), left_by(disability))
}

// Rule 8.2, P(k), by the row of age k: of a million, how many stay the year.
pub fn staying(row: [u32; 4], r: usize, k: usize) -> u64
    requires { Sound row }
    ensures { result ≡ stays row r k }
{
    let [death, withdrawal, _, _] = row;
    if k < r {
        left_by_both(able(row), left_by(withdrawal))
    } else {
        left_by(death)
    }
}

// Rule 3.5, W(k): the weight of age k.
pub fn weight(rows: &Rows, k: usize) -> u64
    requires { (15 ≤ k) × (k ≤ 120) }
    ensures { result ≡ Table·weight rows.now k }
{
    u64::from(rows[k - FIRST_AGE][3])
}
