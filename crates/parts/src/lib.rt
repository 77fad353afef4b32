// The parts of a member's figures at one age, and the figures that they give by any method: RULES section 9. An engine
// works the annuities, and the crate measures makes the parts of them; here nothing is known of a plan, a table or an age.
// specs/Parts.antt has the parts of a setting, and the one law over the five methods, that they give its figures. Each
// `requires` is what an engine shows.
#![tactic(auto)]

ghost use Rattle.std.specs.Prelude.{◌≡◌, ◌*◌, ◌≤◌, ◌<◌};
ghost use Rattle.rounding.specs.Nearest.{nearest};
ghost use Rattle.factors.specs.Factors.{S};
ghost use Rattle.costs.specs.Valuation.{method_of};
ghost use Rattle.parts.specs.Parts.{SmallParts, value_from, cost_factor, liability_factor, figures_from};

use costs::Figures;
use plan::Method;

// B(r), G(x) and G(y); then, by the method's own measure, what is earned up to x, what the year from x on adds, and what
// both are divided by.
#[derive(Clone, Copy)]
pub struct Parts {
    pub benefit: u64,
    pub deferred: u64,
    pub entered: u64,
    pub earned: u64,
    pub added: u64,
    pub divisor: u64,
}

// Rules 9.1 to 9.8: the figures that the parts give.
pub fn figures_from(q: Parts, method: Method) -> Figures
    requires { SmallParts q }
    ensures { result ≡ figures_from q method }
{
    let value = worth(q.benefit, q.deferred);
    let cost = share(cost_factor(q, method, value), q.added, q.divisor);
    let liability = share(liability_factor(q, method, value), q.earned, q.divisor);
    Figures {
        benefit: q.benefit,
        value,
        cost,
        liability,
    }
}

// What N has beside what is added. Both products fit a word: a benefit is 10^8 at most, and a factor 71 S.
fn cost_factor(q: Parts, method: Method, value: u64) -> u64
    requires { SmallParts q × (value ≡ value_from q) }
    ensures { result ≡ cost_factor q method }
{
    match method {
        Method::AB => q.deferred,
        Method::BD | Method::BP => value,
        Method::CD => q.benefit * q.entered,
        Method::CP => worth(q.benefit, q.entered) * year_steps::S,
    }
}

// What L has beside what is earned.
fn liability_factor(q: Parts, method: Method, value: u64) -> u64
    requires { value ≡ value_from q }
    ensures { result ≡ liability_factor q method }
{
    match method {
        Method::AB => q.deferred,
        Method::BD | Method::BP | Method::CD | Method::CP => value,
    }
}

// benefit * deferred / S: what a benefit from r on is worth at the age of the factor.
fn worth(benefit: u64, deferred: u64) -> u64
    requires { (benefit ≤ 100000000) × (deferred ≤ 71 * S) }
    ensures { (result ≡ nearest (benefit * deferred) S) × (result ≤ 7100000000) }
{
    rounding::mul_div_nearest(benefit, deferred, year_steps::S)
}

// factor * part / whole.
fn share(factor: u64, part: u64, whole: u64) -> u64
    requires { (0 < whole) × (part ≤ whole) }
    ensures { result ≡ nearest (factor * part) whole }
{
    rounding::mul_div_nearest(factor, part, whole)
}

// Rule 5.4: the method of a code that is accepted. No `From`, since any other code passes for CP too.
#[tactic(auto, unfolding(costs::specs::Valuation::method_of))]
pub fn method_of(code: u64) -> Method
    ensures { result ≡ method_of code }
{
    match code {
        1 => Method::AB,
        2 => Method::BD,
        3 => Method::BP,
        4 => Method::CD,
        _ => Method::CP,
    }
}
