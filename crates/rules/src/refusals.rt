// The refusals of rule 12.3, with their numbers, and where one stands. 13 and 26 are retired.
ghost use Rattle.std.specs.Prelude.{◌≡◌};
ghost use Rattle.rules.specs.Refusals.{number};

#[derive(Clone, Copy)]
pub enum Refusal {
    // The file.
    TooLarge = 1,
    CutOff = 2,
    BytesAfter = 3,
    WrongCount = 4,
    // The plan.
    PlanForm = 10,
    OutOfRange = 11,
    WrongAverage = 12,
    WrongLastDeath = 14,
    WrongWeight = 15,
    WrongAmendment = 53,
    UnlistedRest = 54,
    HighUnit = 55,
    // A line after the table.
    MemberForm = 20,
    WrongId = 21,
    WrongEntry = 22,
    WrongAge = 23,
    WrongSalary = 24,
    HighBenefit = 25,
    SurplusMember = 27,
    WrongPerson = 28,
    HighSum = 29,
    // The output.
    NoRoom = 30,
}

// A refusal and its line: 0 where it is of the file as a whole, or of plain values.
#[derive(Clone, Copy)]
pub struct Refused {
    pub refusal: Refusal,
    pub line: u64,
}

impl Refusal {
    // The number that is printed, and that C is given.
    pub fn number(self) -> u64
        ensures { result ≡ number self }
    {
        self as u64
    }

    pub fn at(self, line: u64) -> Refused
        ensures { (result.refusal ≡ self) × (result.line ≡ line) }
    {
        Refused {
            refusal: self,
            line,
        }
    }
}

impl From<Refusal> for Refused {
    ghost from_gives = { λ refusal refused. (refused.refusal ≡ refusal) × (refused.line ≡ 0) };

    fn from(refusal: Refusal) -> Refused {
        refusal.at(0)
    }
}
