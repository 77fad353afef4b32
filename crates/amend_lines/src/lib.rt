// The amendments of a case file, rule 2.11: the lines after the terms that begin amend=, up to the first that doesn't.
#![tactic(auto)]

ghost use Rattle.std.specs.Prelude.{◌≡◌, true, cond, [], ◌≤◌, length, take, set, OnOk};
ghost use Rattle.fields.specs.Split.{upto_of};
ghost use Rattle.fields.specs.Values.{line_of};
ghost use Rattle.plan.specs.Numbers.{fields_of};
ghost use Rattle.rules.specs.Refusals.{verdict};
ghost use Rattle.amendments.specs.Force.{amendments_from};
ghost use Rattle.amendments.specs.Judging.{most_amendments, amendment_refusal, unit_refusal, each_refusal};
ghost use Rattle.walk.specs.Settled.{settled as Settled·settled};
ghost use Rattle.walk.specs.Lines.{amend_form, begins as Lines·begins};
ghost use Rattle.amend_lines.specs.Array.{list_array};
ghost use Rattle.amend_lines.specs.Stretch.{surplus_of, refusal_of, AmendsAre};

use amending::{amendment_rule, fields_rule, unit_rule};
use fields::Line;
use plan::{Amendment, MOST_AMENDMENTS, Plan};
use rules::refusals::{Refusal, Refused};
use stretches::{Next, at_line, plan_line, settled};
use values::whole_values;

// Whether the bytes begin as an amendment's line does, whole or not.
fn begins(s: &[u8]) -> bool
    ensures { result ≡ Lines·begins (upto_of 10 s.now) }
{
    s.starts_with(b"amend=")
}

// The line of an amendment: its four numbers.
fn amend_line(s: &[u8]) -> Line<4>
    ensures { result ≡ line_of amend_form s.now }
{
    whole_values(s, b"amend=")
}

// A twenty-first: 53, unless a field is out of its range, where that is asked for.
fn surplus_refusal(ranges: bool, a: Amendment) -> Result<(), Refusal>
    ensures { verdict result ≡ surplus_of ranges a }
{
    settled(ranges, || fields_rule(a))?;
    Err(Refusal::WrongAmendment)
}

// An amendment's own rules, where the ranges are settled.
fn own_refusal(ranges: bool, before: &[[u64; 4]], a: Amendment) -> Result<(), Refusal>
    ensures { verdict result ≡ Settled·settled ranges (amendment_refusal (amendments_from before.now) a) }
{
    settled(ranges, || amendment_rule(before, a))
}

// The unit's rule, unless one more amendment follows.
fn unit_refusal(ranges: bool, more: bool, p: Plan, list: &[[u64; 4]]) -> Result<(), Refusal>
    requires { ranges ≡ true → each_refusal [] (amendments_from list.now) ≡ 0 }
    ensures { verdict result ≡ Settled·settled ranges (cond more 0 (unit_refusal p (amendments_from list.now))) }
{
    if more {
        return Ok(());
    }
    settled(ranges, || unit_rule(p, list))
}

// What the rules say of an amendment after the n of a list, where `more` says whether one more follows. Where nothing refuses it
// it is put after them; after a refusal the list is left open. The list is an array and n, since there is no heap.
fn listed_refusal(
    ranges: bool,
    p: Plan,
    list: &mut [[u64; 4]],
    n: usize,
    a: Amendment,
    more: bool,
) -> Result<(), Refusal>
    requires { (length list.old ≡ most_amendments) × (n ≤ most_amendments) × (ranges ≡ true → each_refusal [] (amendments_from (take n list.old)) ≡ 0) }
    ensures value { verdict result ≡ refusal_of ranges p (amendments_from (take n list.old)) a more }
    ensures list_after { OnOk result (list.new ≡ set list.old n (fields_of a)) }
{
    if n == MOST_AMENDMENTS {
        return surplus_refusal(ranges, a);
    }
    own_refusal(ranges, &list[..n], a)?;
    list[n] = <[u64; 4]>::from(a);
    unit_refusal(ranges, more, p, &list[..n + 1])
}

// Reads the amendments from a line on, up to the first line that is none, and settles their ranges too where that is asked for,
// under a plan with the heading's unit. After a refusal the list is left open. A `while`, since the bytes say how many there are.
pub fn amend_lines(
    s: &[u8],
    first: u64,
    ranges: bool,
    p: Plan,
    list: &mut [[u64; 4]],
) -> Result<Next, Refused>
    requires { (list.old ≡ list_array []) × (first ≤ 65536) }
    ensures { AmendsAre ranges p first s.now result list.new }
{
    let mut at = 0;
    let mut n = 0;
    while begins(&s[at..]) {
        let line = first + n as u64;
        let (numbers, end) = plan_line(amend_line(&s[at..]), line)?;
        let a = Amendment::from(numbers);
        at += end + 1;
        let more = begins(&s[at..]);
        at_line(listed_refusal(ranges, p, list, n, a, more), line)?;
        n += 1;
    }
    Ok(Next {
        line: first + n as u64,
        at,
    })
}
