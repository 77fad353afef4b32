// What a plan has yet to pay, rules 11.2 and 11.3: the unfunded liability, and the yearly payment that pays it off. What they are of a plan's
// members is in crate `totals` (specs/Totals.antt).
#![tactic(auto)]

ghost use Rattle.std.specs.Prelude.{◌≡◌, ◌≤◌, pos, ◌-ℤ◌, ◌*ℤ◌};
ghost use Rattle.rounding.specs.Nearest.{nearest_ℤ};
ghost use Rattle.rounding.specs.Signed.{integer_of, signed};
ghost use Rattle.factors.specs.Factors.{S as Factors-as-S, C};

use rounding::Signed;

// Rule 11.2: what the assets leave open of the liability.
pub fn unfunded_of(liability: u64, assets: u64) -> Signed
    ensures { result ≡ signed (pos liability -ℤ pos assets) }
{
    if liability < assets {
        Signed {
            negative: true,
            size: assets - liability,
        }
    } else {
        Signed {
            negative: false,
            size: liability - assets,
        }
    }
}

// Rule 11.3: the yearly payment that pays the unfunded off in so many years.
pub fn supplemental_of(unfunded: Signed, interest: u64, years: u64) -> Signed
    requires { (interest ≤ 2000) × (1 ≤ years) × (years ≤ 40) }
    ensures { result ≡ signed (nearest_ℤ (integer_of unfunded *ℤ pos Factors-as-S) (C interest years)) }
{
    let certain = annuity::certain_annuity(interest, years);
    rounding::signed_mul_div_nearest(unfunded, year_steps::S, certain)
}
