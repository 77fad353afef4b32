// The plain engine: a member's figures by factors of its own. annuities.rt works the annuities; the crate measures makes the parts
// of them, and the crate parts the figures. `value_member` is the entry: it has no `requires`, and its contract is the figures'
// equation and the limits on its N and L.
#![tactic(auto)]

mod annuities;

ghost use Rattle.std.specs.Prelude.{◌≡◌};
ghost use Rattle.plan.specs.Ranges.{MemberRanges};
ghost use Rattle.rules.specs.Outcome.{outcome};
ghost use Rattle.amendments.specs.Force.{amendments_from, as_valued};
ghost use Rattle.costs.specs.Valuation.{figures, valuation, Limited};

use acceptance::lone_refusal;
use amending::as_valued;
use costs::Figures;
use parts::{figures_from, method_of};
use plan::{Member, Plan};
use rates::Rows;
use rules::refusals::Refused;

// Rules 5.5, 5.6 and 9.11: values a lone member of a plan with its amendments.
pub fn value_member(
    p: Plan,
    amendments: &[[u64; 4]],
    rows: Rows,
    m: Member,
) -> Result<Figures, Refused>
    ensures figures { outcome result ≡ valuation p (amendments_from amendments.now) rows m }
    ensures limits { Limited (as_valued p (amendments_from amendments.now)) rows m (outcome result) }
{
    lone_refusal(p, amendments, rows, m)?;
    let valued = as_valued(p, amendments);
    Ok(figures_of(valued, rows, m))
}

// The figures of an accepted member at its own age, by the plan's method and by factors of its own.
pub fn figures_of(p: Plan, rows: Rows, m: Member) -> Figures
    requires { MemberRanges p rows m }
    ensures { result ≡ figures p rows m }
{
    let method = method_of(p.method);
    let parts = annuities::parts_at(p, &rows, m, method, m.age as usize);
    figures_from(parts, method)
}
