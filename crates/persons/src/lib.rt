// Rule 7.10: the benefits of each person, summed. A person is found by its number, in a few steps whatever the numbers are,
// and not by going through the lines before: specs/Held.antt has what is held for a person, as a scan, and the contract of
// `add` is an equation with that. specs/Search.antt has the way to a person. That what is held is the sum over the lines
// before is for the loop over the lines to show (crate `members`). No map, since the library has no heap.
#![tactic(auto)]

ghost use Rattle.std.specs.Prelude.{◌≡◌, cond, ℕ, ◌+◌, ◌≤◌, ◌<◌, leb, eqb, OnOk};
ghost use Rattle.rules.specs.Refusals.{high_sum, verdict};
ghost use Rattle.rules.specs.Rules.{unless as Rules·unless};
ghost use Rattle.persons.specs.Held.{held};
ghost use Rattle.persons.specs.Search.{stops_at, branch, Searchable, Found, Rooted};

use plan::MOST_MEMBERS;
use rules::refusals::Refusal;

// A search begins at one of so many cells, by the last 12 bits of the person's number.
const HOMES: u64 = 4_096;

// And two cells for each line, to go on from a line by the next bit of the number: 4,096 + 2 × 1,001. Those of line 0 stay
// empty: lines are counted from 1, so that 0 is none.
pub const CELLS: usize = 6_098;

// The persons of the lines so far, and the sum of each.
#[derive(Clone, Copy)]
pub struct Persons {
    // A cell is empty, or holds the line at which a person came first.
    pub cells: [u32; CELLS],
    // A person, and the sum so far, in the place of the line at which the person came first; zeros in all other places.
    pub sums: [[u64; 2]; MOST_MEMBERS],
}

impl Persons {
    // No line yet.
    pub fn none() -> Persons
        ensures rooted { Rooted result.cells result.sums 0 }
        ensures nothing { (person : ℕ) → held result.sums person ≡ 0 }
    {
        Persons {
            cells: [0; CELLS],
            sums: [[0; 2]; MOST_MEMBERS],
        }
    }

    // Whether a person's search ends at a cell: it is empty, or holds the person.
    fn stops(&self, person: u64, cell: usize) -> bool
        requires { Searchable self.now.cells × (cell < 6098) }
        ensures { result ≡ stops_at self.now.cells self.now.sums person cell }
    {
        let line = self.cells[cell] as usize;
        line == 0 || self.sums[line - 1][0] == person
    }

    // The cell at which a person's search ends. A `while`, since what is stored says how many steps it takes.
    fn find(&self, person: u64) -> usize
        requires { Searchable self.now.cells }
        ensures { Found self.now.cells self.now.sums person result }
    {
        let mut cell = (person % HOMES) as usize;
        let mut rest = person / HOMES;
        while !self.stops(person, cell) {
            cell = branch_of(u64::from(self.cells[cell]), rest);
            rest /= 2;
        }
        cell
    }

    // Adds a benefit to a person's sum, after `count` lines; or refuses it, where the sum would pass 1000000.00. Which cells and
    // places are used is left open: promised is what is held for each person, and that each is found (`Rooted`). After a
    // refusal both arrays are open.
    pub fn add(&mut self, count: usize, person: u64, benefit: u64) -> Result<(), Refusal>
        requires { Rooted self.old.cells self.old.sums count × (count < 1000) × (1 ≤ person) × (benefit ≤ 100000000) }
        ensures refusal { verdict result ≡ Rules·unless (leb (held self.old.sums person + benefit) 100000000) high_sum }
        ensures rooted { OnOk result (Rooted self.new.cells self.new.sums (count + 1)) }
        ensures other_after { OnOk result ((other : ℕ) → held self.new.sums other ≡ held self.old.sums other + cond (eqb person other) benefit 0) }
    {
        let cell = self.find(person);
        let line = self.cells[cell] as usize;
        if line == 0 {
            self.cells[cell] = (count + 1) as u32;
            self.sums[count] = [person, benefit];
            return Ok(());
        }
        let sum = self.sums[line - 1][1] + benefit;
        if 100_000_000 < sum {
            return Err(Refusal::HighSum);
        }
        self.sums[line - 1] = [person, sum];
        Ok(())
    }
}

// The cell to go on to from a line.
fn branch_of(line: u64, rest: u64) -> usize
    requires { line ≤ 1000 }
    ensures { result ≡ branch line rest }
{
    (HOMES + (2 * line + rest % 2)) as usize
}
