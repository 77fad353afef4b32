// The parts of a member's figures by annuities of its own: G, and T or Z where the method asks for it.
ghost use Rattle.std.specs.Prelude.{◌≡◌, ◌≤◌};
ghost use Rattle.factors.specs.Factors.{T, Z};
ghost use Rattle.plan.specs.Ranges.{MemberRanges};
ghost use Rattle.costs.specs.Valuation.{setting_of, plan_basis};
ghost use Rattle.parts.specs.Parts.{parts_at};
ghost use Rattle.measures.specs.Temporary.{temporary as Temporary·temporary};

use measures::parts_from;
use parts::Parts;
use plan::{Member, Method, Plan};
use rates::Rows;
use year_steps::of_age;

// The parts of an accepted member at an age k of its own, by any method.
pub(crate) fn parts_at(p: Plan, rows: &Rows, m: Member, method: Method, k: usize) -> Parts
    requires { MemberRanges p rows.now m × (m.entry ≤ k) × (k ≤ p.retire) }
    ensures { result ≡ parts_at (setting_of p rows.now m) k method }
{
    let annuity = annuity::deferred_annuity(*rows, p.retire as usize, p.pay, p.interest);
    let past = temporary(p, rows, m, method, k);
    let all = temporary(p, rows, m, method, p.retire as usize);
    parts_from(p, rows, m, method, k, &annuity, past, all)
}

// T(y,e) for CD and Z(y,e) for CP, for an age e of the member; the other methods count by no annuity.
fn temporary(p: Plan, rows: &Rows, m: Member, method: Method, e: usize) -> u64
    requires { MemberRanges p rows.now m × (m.entry ≤ e) × (e ≤ p.retire) }
    ensures { result ≡ Temporary·temporary (plan_basis p rows.now) method m.entry e }
{
    match method {
        Method::AB | Method::BD | Method::BP => 0,
        Method::CD => working_from_entry(p, rows, m, e),
        Method::CP => pay_from_entry(p, rows, m, e),
    }
}

// T(y,e), for an age e of the member.
fn working_from_entry(p: Plan, rows: &Rows, m: Member, e: usize) -> u64
    requires { MemberRanges p rows.now m × (m.entry ≤ e) × (e ≤ p.retire) }
    ensures { result ≡ T (plan_basis p rows.now) m.entry e }
{
    let annuity = annuity::working_annuity(*rows, p.retire as usize, p.interest, e);
    of_age(&annuity, m.entry as usize)
}

// Z(y,e), for an age e of the member.
fn pay_from_entry(p: Plan, rows: &Rows, m: Member, e: usize) -> u64
    requires { MemberRanges p rows.now m × (m.entry ≤ e) × (e ≤ p.retire) }
    ensures { result ≡ Z (plan_basis p rows.now) m.entry e }
{
    let annuity = annuity::pay_annuity(*rows, p.retire as usize, p.interest, e);
    of_age(&annuity, m.entry as usize)
}
