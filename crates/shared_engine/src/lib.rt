// The shared engine: a member's figures by annuities that all members of a plan share. G is filled once a plan. T, by CD, and
// Z, by CP, stand in columns, each of which is filled when a member first needs it. The crate measures makes the parts
// of them, as for the plain engine, and the crate parts the figures. specs/Shared.antt says what is kept between two members.
#![tactic(auto)]

ghost use Rattle.std.specs.Prelude.{◌≡◌, ◌≤◌};
ghost use Rattle.factors.specs.Factors.{G};
ghost use Rattle.year_steps.specs.Filled.{Filled};
ghost use Rattle.columns.specs.Columns.{FilledColumns, ColumnsKept};
ghost use Rattle.plan.specs.Ranges.{MemberRanges};
ghost use Rattle.costs.specs.Valuation.{plan_basis, setting_of, figures};
ghost use Rattle.parts.specs.Parts.{parts_at};
ghost use Rattle.measures.specs.Temporary.{temporary as Temporary·temporary};
ghost use Rattle.shared_engine.specs.Shared.{Shared};

use columns::Columns;
use costs::Figures;
use measures::parts_from;
use parts::{Parts, figures_from, method_of};
use plan::{Member, Method, Plan};
use rates::Rows;
use year_steps::{Amount, Factors};

// The figures of an accepted member at its own age, by the plan's method and by the shared annuities.
pub fn figures_of(p: Plan, rows: &Rows, m: Member, g: &Factors, columns: &mut Columns) -> Figures
    requires { MemberRanges p rows.now m × Shared p rows.now g.now columns.old.factors columns.old.filled }
    ensures value { result ≡ figures p rows.now m }
    ensures shared { Shared p rows.now g.now columns.new.factors columns.new.filled }
    ensures columns_kept { ColumnsKept columns.old.factors columns.old.filled columns.new.factors columns.new.filled }
{
    let method = method_of(p.method);
    let parts = parts_at(p, rows, m, method, m.age as usize, g, columns);
    figures_from(parts, method)
}

// The parts of an accepted member at an age k of its own, by any method.
fn parts_at(
    p: Plan,
    rows: &Rows,
    m: Member,
    method: Method,
    k: usize,
    g: &Factors,
    columns: &mut Columns,
) -> Parts
    requires { MemberRanges p rows.now m × (m.entry ≤ k) × (k ≤ p.retire) × Filled (G (plan_basis p rows.now)) p.retire 15 g.now × FilledColumns (Temporary·temporary (plan_basis p rows.now) method) columns.old.factors columns.old.filled }
    ensures value { result ≡ parts_at (setting_of p rows.now m) k method }
    ensures filled_columns { FilledColumns (Temporary·temporary (plan_basis p rows.now) method) columns.new.factors columns.new.filled }
    ensures columns_kept { ColumnsKept columns.old.factors columns.old.filled columns.new.factors columns.new.filled }
{
    let past = temporary(p, rows, m, method, k, columns);
    let all = temporary(p, rows, m, method, p.retire as usize, columns);
    parts_from(p, rows, m, method, k, g, past, all)
}

// T(y,e) for CD and Z(y,e) for CP, for an age e of the member; the other methods count by no annuity.
fn temporary(
    p: Plan,
    rows: &Rows,
    m: Member,
    method: Method,
    e: usize,
    columns: &mut Columns,
) -> u64
    requires { MemberRanges p rows.now m × (m.entry ≤ e) × (e ≤ p.retire) × FilledColumns (Temporary·temporary (plan_basis p rows.now) method) columns.old.factors columns.old.filled }
    ensures value { result ≡ Temporary·temporary (plan_basis p rows.now) method m.entry e }
    ensures filled_columns { FilledColumns (Temporary·temporary (plan_basis p rows.now) method) columns.new.factors columns.new.filled }
    ensures columns_kept { ColumnsKept columns.old.factors columns.old.filled columns.new.factors columns.new.filled }
{
    let r = p.retire as usize;
    let y = m.entry as usize;
    match method {
        Method::AB | Method::BD | Method::BP => 0,
        Method::CD => columns.between(rows, r, p.interest, Amount::One, y, e),
        Method::CP => columns.between(rows, r, p.interest, Amount::Weight, y, e),
    }
}
