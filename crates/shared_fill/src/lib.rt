// The figures of all members by the shared engine, rules 8.11 and 9.12, in their array: what members share is worked once, or where it is first
// needed.
#![tactic(auto)]

ghost use Rattle.std.specs.Prelude.{length};
ghost use Rattle.shared_engine.specs.Shared.{Shared};
ghost use Rattle.all_figures.specs.Worked.{AcceptedMembers, AreWorked};

use all_figures::{Worked, numbers_of};
use annuity::deferred_annuity;
use columns::Columns;
use plan::{MOST_MEMBERS, Member, Plan};
use rates::Rows;
use year_steps::Factors;

// Works each member's figures into the array, by the shared engine: G is worked here, and no column is filled yet.
pub fn fill_shared(p: Plan, rows: Rows, members: &[[u64; 5]], worked: &mut Worked)
    requires { AcceptedMembers p rows members.now (length members.now) }
    ensures { AreWorked p rows members.now worked.new (length members.now) }
{
    let g = deferred_annuity(rows, p.retire as usize, p.pay, p.interest);
    let mut columns = Columns::new();
    fill_from_shared(p, &rows, members, &g, &mut columns, worked);
}

// Works each member's figures into the array from the annuities that are shared. Past the last member the array is left
// open. The loop is `fill_plainly`'s over again: a trait for the two engines, of which this one changes, is longer than both.
fn fill_from_shared(
    p: Plan,
    rows: &Rows,
    members: &[[u64; 5]],
    g: &Factors,
    columns: &mut Columns,
    worked: &mut Worked,
)
    requires { AcceptedMembers p rows.now members.now (length members.now) × Shared p rows.now g.now columns.old.factors columns.old.filled }
    ensures are_worked { AreWorked p rows.now members.now worked.new (length members.now) }
    ensures shared { Shared p rows.now g.now columns.new.factors columns.new.filled }
{
    *worked = [[0u64; 4]; MOST_MEMBERS];
    for (j, &numbers) in members.iter().enumerate() {
        let f = shared_engine::figures_of(p, rows, Member::from(numbers), g, columns);
        worked[j] = numbers_of(f);
    }
}
