// The figures of the members of an accepted plan, in an array. specs/Worked.antt has what it holds. The engines fill it, each in a crate of its
// own: plain_fill and shared_fill.
#![tactic(auto)]

ghost use Rattle.std.specs.Prelude.{◌≡◌};
ghost use Rattle.all_figures.specs.Worked.{figures_stored};

use costs::Figures;
use plan::MOST_MEMBERS;

// The figures of up to 1,000 members: the benefit, its value, the cost and the liability of each.
pub type Worked = [[u64; 4]; MOST_MEMBERS];

// A member's figures, from the array.
pub fn figures_from(numbers: [u64; 4]) -> Figures
    ensures { result ≡ figures_stored numbers }
{
    let [benefit, value, cost, liability] = numbers;
    Figures {
        benefit,
        value,
        cost,
        liability,
    }
}

// Figures as the array holds them.
pub fn numbers_of(f: Figures) -> [u64; 4]
    ensures { figures_stored result ≡ f }
{
    [f.benefit, f.value, f.cost, f.liability]
}
