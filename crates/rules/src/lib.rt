// The range rules of the heading, RULES section 2, in terms.rt; refusals.rt has the refusals, and here stands what every rule is made of,
// those of the table too, which the crate row_rules has. A rule answers Ok where it is kept, and else its refusal, which `unless`
// hands on whatever it is. specs/ has what every contract is an equation with: the numbers in Refusals, what a rule is in Rules, the list
// of the rules in Heading, and in Outcome what an answer says.
#![tactic(auto)]

pub mod refusals;
pub mod terms;

ghost use Rattle.std.specs.Prelude.{◌≡◌, cond, Ok, Err};
ghost use Rattle.rules.specs.Rules.{between as Rules·between};

pub fn between(lo: u64, hi: u64, n: u64) -> bool
    ensures { result ≡ Rules·between lo hi n }
{
    lo <= n && n <= hi
}

pub fn unless<E: Drop>(kept: bool, refusal: E) -> Result<(), E>
    ensures { result ≡ cond kept (Ok tt) (Err refusal) }
{
    if kept { Ok(()) } else { Err(refusal) }
}

pub fn unless_between<E: Drop>(lo: u64, hi: u64, n: u64, refusal: E) -> Result<(), E>
    ensures { result ≡ cond (Rules·between lo hi n) (Ok tt) (Err refusal) }
{
    unless(between(lo, hi, n), refusal)
}
