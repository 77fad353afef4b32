// The figures of all members by the plain engine, rules 9.11 and 9.12, in their array.
#![tactic(auto)]

ghost use Rattle.std.specs.Prelude.{length};
ghost use Rattle.all_figures.specs.Worked.{AcceptedMembers, AreWorked};

use all_figures::{Worked, numbers_of};
use plan::{MOST_MEMBERS, Member, Plan};
use rates::Rows;

// Works each member's figures into the array, by the plain engine. Past the last member the array is left open.
pub fn fill_plainly(p: Plan, rows: Rows, members: &[[u64; 5]], worked: &mut Worked)
    requires { AcceptedMembers p rows members.now (length members.now) }
    ensures { AreWorked p rows members.now worked.new (length members.now) }
{
    // Written whole first, so that its length is known to the proof.
    *worked = [[0u64; 4]; MOST_MEMBERS];
    for (j, &numbers) in members.iter().enumerate() {
        let own = plain_engine::figures_of(p, rows, Member::from(numbers));
        worked[j] = numbers_of(own);
    }
}
