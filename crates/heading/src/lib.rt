// The heading, RULES section 2: the plan's own terms.
#![tactic(auto)]

ghost use Rattle.std.specs.Prelude.{◌≡◌, ◌==◌, position};
ghost use Rattle.fields.specs.Values.{line_of};
ghost use Rattle.rules.specs.Refusals.{verdict};
ghost use Rattle.rules.specs.Heading.{term_rule};
ghost use Rattle.walk.specs.Settled.{settled as Settled·settled};
ghost use Rattle.walk.specs.Terms.{formula_word, method_word, term_form};
ghost use Rattle.heading.specs.Words.{coded, word_of};
ghost use Rattle.heading.specs.Stretch.{HeadIs};

use fields::{Fault, Line};
use plan::{TERMS, Terms};
use rules::refusals::{Refusal, Refused};
use rules::terms::term_rule;
use stretches::{Next, at_line, plan_line, settled};
use values::{unread, values_to_amount, whole_values};

// Rules 2.4 and 5.4: the code of the formula, none for another word. By `==`: of a `match` on byte strings the check asks a proof
// for each byte of each word.
fn formula_code(line: &[u8]) -> Option<u64>
    ensures { coded result ≡ formula_word line.now }
{
    if line == b"formula=flat".as_slice() {
        Some(1)
    } else if line == b"formula=career".as_slice() {
        Some(2)
    } else if line == b"formula=final".as_slice() {
        Some(3)
    } else {
        None
    }
}

// Rules 2.7 and 5.4: the code of the method, none for another word.
fn method_code(line: &[u8]) -> Option<u64>
    ensures { coded result ≡ method_word line.now }
{
    if line == b"method=AB".as_slice() {
        Some(1)
    } else if line == b"method=BD".as_slice() {
        Some(2)
    } else if line == b"method=BP".as_slice() {
        Some(3)
    } else if line == b"method=CD".as_slice() {
        Some(4)
    } else if line == b"method=CP".as_slice() {
        Some(5)
    } else {
        None
    }
}

// The place of the first byte 10.
fn line_end(s: &[u8]) -> Option<usize>
    ensures { result ≡ position (λ b. b == 10) s.now }
{
    s.iter().position(|b| *b == b'\n')
}

// The line of the formula or of the method: the code of its word. A flag, as the definition has it: of a function handed in
// each clause would have to say what it gives.
fn word_line(s: &[u8], method: bool) -> Line<1>
    ensures { result ≡ line_of (word_of method) s.now }
{
    let Some(end) = line_end(s) else {
        return Err(Fault::Cut);
    };
    let word = &s[..end];
    let code = if method {
        method_code(word)
    } else {
        formula_code(word)
    };
    match code {
        Some(code) => Ok(([code], end)),
        None => Err(Fault::Wrong),
    }
}

// The line of the term with k before it: its one value.
fn term_line(s: &[u8], k: usize) -> Line<1>
    ensures { result ≡ line_of (term_form k) s.now }
{
    match k {
        0 => whole_values(s, b"interest="),
        1 => whole_values(s, b"retire="),
        2 => whole_values(s, b"pay="),
        3 => word_line(s, false),
        4 => whole_values(s, b"unit="),
        5 => whole_values(s, b"average="),
        6 => word_line(s, true),
        7 => values_to_amount(s, b"assets="),
        8 => whole_values(s, b"years="),
        _ => Err(unread(s)),
    }
}

// The range rule of a term, where the ranges are settled.
fn term_refusal(ranges: bool, k: usize, terms: &Terms, value: u64) -> Result<(), Refusal>
    ensures { verdict result ≡ Settled·settled ranges (term_rule k terms.now value) }
{
    settled(ranges, || term_rule(k, terms, value))
}

// Reads the terms, and settles their ranges too where that is asked for. After a refusal `terms` is left open.
pub fn head_lines(s: &[u8], ranges: bool, terms: &mut Terms) -> Result<Next, Refused>
    ensures { HeadIs ranges s.now result terms.new }
{
    // Nothing that the caller left there is taken for a term.
    *terms = [0; TERMS];
    let mut line = 1;
    let mut at = 0;
    for k in 0..TERMS {
        let (values, end) = plan_line(term_line(&s[at..], k), line)?;
        let value = values[0];
        at_line(term_refusal(ranges, k, terms, value), line)?;
        terms[k] = value;
        line += 1;
        at += end + 1;
    }
    Ok(Next { line, at })
}
