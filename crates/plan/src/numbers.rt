// Plain values and what they are of, rule 5.6: a member, an amendment and a plan from their numbers, and the numbers back. Each number of a line
// has its place here alone.
ghost use Rattle.std.specs.Prelude.{◌≡◌};
ghost use Rattle.plan.specs.Numbers.{member_from, numbers_of, amendment_from, fields_of, terms_of, plan_from};

use crate::{Amendment, Member, Plan, Terms};

// Rule 4.1: a member's id, person, entry age, age and salary.
impl From<[u64; 5]> for Member {
    ghost from_gives = { λ numbers m. m ≡ member_from numbers };

    fn from([id, person, entry, age, salary]: [u64; 5]) -> Member {
        Member {
            id,
            person,
            entry,
            age,
            salary,
        }
    }
}

impl From<Member> for [u64; 5] {
    ghost from_gives = { λ m numbers. numbers ≡ numbers_of m };

    fn from(m: Member) -> [u64; 5] {
        [m.id, m.person, m.entry, m.age, m.salary]
    }
}

// Rule 2.11: an amendment's number, the number that it rests on, its addition and whether it is struck.
impl From<[u64; 4]> for Amendment {
    ghost from_gives = { λ numbers a. a ≡ amendment_from numbers };

    fn from([number, rests, add, struck]: [u64; 4]) -> Amendment {
        Amendment {
            number,
            rests,
            add,
            struck,
        }
    }
}

impl From<Amendment> for [u64; 4] {
    ghost from_gives = { λ a numbers. numbers ≡ fields_of a };

    fn from(a: Amendment) -> [u64; 4] {
        [a.number, a.rests, a.add, a.struck]
    }
}

// Rule 2.1: the terms, in the order of the heading's lines.
impl From<Terms> for Plan {
    ghost from_gives = { λ terms p. p ≡ plan_from terms };

    fn from(terms: Terms) -> Plan {
        // By place: taken apart and put together again each of the nine would be named twice.
        Plan {
            interest: terms[0],
            retire: terms[1],
            pay: terms[2],
            formula: terms[3],
            unit: terms[4],
            average: terms[5],
            method: terms[6],
            assets: terms[7],
            years: terms[8],
        }
    }
}

impl From<Plan> for Terms {
    ghost from_gives = { λ p terms. terms ≡ terms_of p };

    fn from(p: Plan) -> Terms {
        [
            p.interest, p.retire, p.pay, p.formula, p.unit, p.average, p.method, p.assets, p.years,
        ]
    }
}
