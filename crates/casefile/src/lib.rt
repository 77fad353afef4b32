// The case file of a valuation, RULES sections 1 to 5: reading is for its form (rule 5.1), accepting for its ranges too
// (rule 5.2). The crate walk says what a case file is, and the crate whole_walk does the walk; here are the answers. The entries are read_case
// and accept_case: two words, two functions, two answers. Neither has a `requires`.
#![tactic(auto)]

ghost use Rattle.std.specs.Prelude.{◌≡◌};
ghost use Rattle.rules.specs.Outcome.{outcome};
ghost use Rattle.casefile.specs.Answers.{reading_of, accepting_of, accepting};
ghost use Rattle.casefile.specs.Stored.{amendments_after, rows_after, members_after};

use plan::{Amendments, MOST_AMENDMENTS, MOST_MEMBERS, Members};
use rates::{AGES, Rows};
use rules::refusals::Refused;
use whole_walk::{Outline, walk_lines};

// Rule 5.1: reads a case file for its form, which says nothing of ranges.
pub fn read_case(case: &[u8]) -> Result<(), Refused>
    ensures { outcome result ≡ reading_of case.now }
{
    let mut list = [[0; 4]; MOST_AMENDMENTS];
    let mut rows = [[0; 4]; AGES];
    let mut members = [[0; 5]; MOST_MEMBERS];
    walk_lines(case, false, &mut list, &mut rows, &mut members)?;
    Ok(())
}

// Rule 5.2: accepts a case file, its form and its ranges. An accepted case is copied out: its amendments to `amendments`, its table
// to `rows` and its members to `members`, the numbers of one at its place, and zeros past the last. A refusal leaves
// the arrays as they were. What is valued is `amending::as_valued` of the plan and the amendments.
pub fn accept_case(
    case: &[u8],
    amendments: &mut Amendments,
    rows: &mut Rows,
    members: &mut Members,
) -> Result<Outline, Refused>
    ensures answer { outcome result ≡ accepting (accepting_of case.now) }
    ensures amendments_after { amendments.new ≡ amendments_after (accepting_of case.now) amendments.old }
    ensures rows_after { rows.new ≡ rows_after (accepting_of case.now) rows.old }
    ensures members_after { members.new ≡ members_after (accepting_of case.now) members.old }
{
    let mut list = [[0; 4]; MOST_AMENDMENTS];
    let mut table = [[0; 4]; AGES];
    let mut array = [[0; 5]; MOST_MEMBERS];
    let outline = walk_lines(case, true, &mut list, &mut table, &mut array)?;
    *amendments = list;
    *rows = table;
    *members = array;
    Ok(outline)
}
