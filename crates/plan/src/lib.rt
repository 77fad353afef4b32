// A plan, its amendments and a member handed in as plain values (rules 5.3 to 5.6), and pay and benefit, RULES section 7; the rows are the
// crate rates'. benefit.rt has the accrued benefit, and numbers.rt the way from numbers to these and back. specs/ has what every contract is an
// equation with: Numbers for that way, Benefit and Weights for pay and benefit; in Ranges what the benefit asks of a plan and a member; and in Rising the law that the benefit never falls. A formula
// or method is a code: 1 flat, 2 career, 3 final; 1 AB, 2 BD, 3 BP, 4 CD, 5 CP; so a field that was never set is refused. Money
// is in cents, a rate in millionths, and each field is wide enough to hold a wrong value.
#![tactic(auto)]

pub mod benefit;
pub mod numbers;

// Rule 2.4: how the benefit accrues.
#[derive(Clone, Copy)]
pub enum Formula {
    Flat,
    Career,
    Final,
}

// Rule 2.7, the cost method: accrued benefit; benefit prorate by dollar or percent; cost prorate by dollar or percent.
#[derive(Clone, Copy)]
pub enum Method {
    AB,
    BD,
    BP,
    CD,
    CP,
}

#[derive(Clone, Copy)]
pub struct Plan {
    pub interest: u64,
    pub retire: u64,
    // Rule 2.10: how many times a year a pension is paid. What a member earns is its salary.
    pub pay: u64,
    // A code, and the method too: C hands in any number, and one that is no code is refused.
    pub formula: u64,
    pub unit: u64,
    pub average: u64,
    pub method: u64,
    pub assets: u64,
    pub years: u64,
}

// Rule 2.1: so many terms has a plan, and their values in the order of the heading's lines.
pub const TERMS: usize = 9;

pub type Terms = [u64; TERMS];

#[derive(Clone, Copy)]
pub struct Member {
    pub id: u64,
    // Rule 4.7: who it is. One person may stand on several lines.
    pub person: u64,
    pub entry: u64,
    pub age: u64,
    pub salary: u64,
}

// Rule 2.11: an amendment to the unit.
#[derive(Clone, Copy)]
pub struct Amendment {
    pub number: u64,
    // The number that it rests on, 0 for none.
    pub rests: u64,
    // What it adds to the unit.
    pub add: u64,
    // 1 where it is struck out, else 0.
    pub struck: u64,
}

// So many amendments at most, each by its number, the number that it rests on, its addition and whether it is struck.
pub const MOST_AMENDMENTS: usize = 20;

pub type Amendments = [[u64; 4]; MOST_AMENDMENTS];

// Rule 4.1: so many members at most.
pub const MOST_MEMBERS: usize = 1_000;

// The members, each by its id, person, entry age, age and salary. Numbers in fixed memory, as C lends them.
pub type Members = [[u64; 5]; MOST_MEMBERS];
