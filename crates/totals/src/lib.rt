// The figures of all members, by an engine, and their sums: rules 9.12 and 11.1. `work` has the array of figures filled by either engine (crates
// plain_fill and shared_fill) and sums them, one after the other; the text is the crate report's. specs/Totals.antt has the totals and the plan's own figures, RULES
// section 11, which the crate funding works; specs/Sums.antt the sums over the array, and specs/Choice.antt which engine works.
#![tactic(auto)]

ghost use Rattle.std.specs.Prelude.{◌≡◌, ◌≤◌, length};
ghost use Rattle.walk.specs.Lines.{most_members};
ghost use Rattle.all_figures.specs.Worked.{AcceptedMembers, members_in, SmallIn, AreWorked};
ghost use Rattle.totals.specs.Totals.{totals};
ghost use Rattle.totals.specs.Choice.{shared_for};
ghost use Rattle.totals.specs.Sums.{sums_in};

use all_figures::{Worked, figures_from};
use plain_fill::fill_plainly;
use plan::Plan;
use rates::Rows;
use shared_fill::fill_shared;

// Rule 11.1: the sums of the printed V, N and L, in cents.
#[derive(Clone, Copy)]
pub struct Totals {
    pub value: u64,
    pub cost: u64,
    pub liability: u64,
}

// Rule 9.12: which engine works the figures, the plain one or the shared one; `ByCount` leaves it to the count of members.
// An enum and no closure, since callers name the engine, those in C too.
#[derive(Clone, Copy)]
pub enum EngineChoice {
    Plain,
    Shared,
    ByCount,
}

// From so many members on the shared engine is the quicker one, by bench/run.
const SHARED_FROM: usize = 2;

// Whether the shared engine works so many members.
fn shares(engine: EngineChoice, count: usize) -> bool
    ensures { result ≡ shared_for engine count }
{
    match engine {
        EngineChoice::Plain => false,
        EngineChoice::Shared => true,
        EngineChoice::ByCount => SHARED_FROM <= count,
    }
}

// Works each member's figures into the array, by an engine.
fn fill_figures(
    engine: EngineChoice,
    p: Plan,
    rows: Rows,
    members: &[[u64; 5]],
    worked: &mut Worked,
)
    requires { AcceptedMembers p rows members.now (length members.now) }
    ensures { AreWorked p rows members.now worked.new (length members.now) }
{
    if shares(engine, members.len()) {
        fill_shared(p, rows, members, worked);
        return;
    }
    fill_plainly(p, rows, members, worked);
}

// Rule 11.1: the sums of figures that the array holds.
fn sum_figures(worked: &[[u64; 4]]) -> Totals
    requires { (length worked.now ≤ most_members) × SmallIn worked.now (length worked.now) }
    ensures { result ≡ sums_in worked.now (length worked.now) }
{
    let mut value = 0;
    let mut cost = 0;
    let mut liability = 0;
    for &numbers in worked {
        let f = figures_from(numbers);
        value += f.value;
        cost += f.cost;
        liability += f.liability;
    }
    Totals {
        value,
        cost,
        liability,
    }
}

// The members' figures, by an engine, and their sums.
pub fn work(
    engine: EngineChoice,
    p: Plan,
    rows: Rows,
    members: &[[u64; 5]],
    worked: &mut Worked,
) -> Totals
    requires { AcceptedMembers p rows members.now (length members.now) }
    ensures value { result ≡ totals p rows (members_in members.now (length members.now)) }
    ensures are_worked { AreWorked p rows members.now worked.new (length members.now) }
{
    fill_figures(engine, p, rows, members, worked);
    sum_figures(&worked[..members.len()])
}
