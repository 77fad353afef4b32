// The library for programs in C and Rust: the entries of valuation, writer, fitting, casefile and plain_engine, exported under C names. An export
// answers a refusal's number, 0 for none; a line or a count goes to a place that the caller lends. None has a
// `requires`, and every place that is lent has its equation on every path. embed/kuyeshan.h declares them for C.
#![tactic(auto)]

ghost use Rattle.std.specs.Prelude.{◌≡◌, false, length};
ghost use Rattle.rules.specs.Outcome.{outcome};
ghost use Rattle.plan.specs.Numbers.{plan_from, member_from};
ghost use Rattle.amendments.specs.Force.{amendments_from};
ghost use Rattle.walk.specs.Walk.{walk_of};
ghost use Rattle.casefile.specs.Answers.{accepting_of};
ghost use Rattle.judging.specs.Refusing.{plain_case};
ghost use Rattle.costs.specs.Valuation.{valuation};
ghost use Rattle.report.specs.Lines.{refusal_line};
ghost use Rattle.fitting.specs.Fitting.{fitting, buffer};
ghost use Rattle.valuation.specs.Answers.{valued_of};
ghost use Rattle.writer.specs.Files.{file_of};
ghost use Rattle.answer_numbers.specs.Answers.{number_of, line_number_of, written_of, bytes_of};
ghost use Rattle.answer_numbers.specs.Values.{refused_by, figures_after};

use plan::{MOST_AMENDMENTS, MOST_MEMBERS, Member, Plan, Terms};
use rates::{AGES, Rows};
use rules::refusals::Refused;
use totals::EngineChoice;

// The refusal's number, 0 for none.
fn number_told<T>(answer: &Result<T, Refused>) -> u64
    ensures { result ≡ number_of (outcome answer.now) }
{
    match answer {
        Ok(_) => 0,
        Err(e) => e.refusal.number(),
    }
}

// The refusal's line, 0 for none.
fn line_told<T>(answer: &Result<T, Refused>) -> u64
    ensures { result ≡ line_number_of (outcome answer.now) }
{
    match answer {
        Ok(_) => 0,
        Err(e) => e.line,
    }
}

// How many bytes were written, 0 after a refusal.
fn written_told(answer: &Result<usize, Refused>) -> u64
    ensures { result ≡ bytes_of (outcome answer.now) }
{
    match answer {
        Ok(n) => *n as u64,
        Err(_) => 0,
    }
}

// Rule 5.1: reads a case file for its form.
#[unsafe(no_mangle)]
pub extern "C" fn kuyeshan_read(case: &[u8], line: &mut u64) -> u64
    ensures value { result ≡ number_of (walk_of false case.now) }
    ensures line_after { line.new ≡ line_number_of (walk_of false case.now) }
{
    let read = casefile::read_case(case);
    *line = line_told(&read);
    number_told(&read)
}

// Rule 5.2: accepts a case file, its form and its ranges. What accepting hands on stays here.
#[unsafe(no_mangle)]
pub extern "C" fn kuyeshan_accept(case: &[u8], line: &mut u64) -> u64
    ensures value { result ≡ number_of (accepting_of case.now) }
    ensures line_after { line.new ≡ line_number_of (accepting_of case.now) }
{
    let mut amendments = [[0; 4]; MOST_AMENDMENTS];
    let mut rows = [[0; 4]; AGES];
    let mut members = [[0; 5]; MOST_MEMBERS];
    let accepted = casefile::accept_case(case, &mut amendments, &mut rows, &mut members);
    *line = line_told(&accepted);
    number_told(&accepted)
}

// Values a case file: the lines of its members and of the plan, at the start of `out`, or a refusal. The engine is chosen by
// the count of members: both give the same.
#[unsafe(no_mangle)]
pub extern "C" fn kuyeshan_value(
    case: &[u8],
    out: &mut [u8],
    line: &mut u64,
    written: &mut u64,
) -> u64
    ensures value { result ≡ number_of (valued_of (length out.old) case.now) }
    ensures out_after { out.new ≡ buffer (valued_of (length out.old) case.now) out.old }
    ensures line_after { line.new ≡ line_number_of (valued_of (length out.old) case.now) }
    ensures written_after { written.new ≡ written_of (valued_of (length out.old) case.now) }
{
    value_by(EngineChoice::ByCount, case, out, line, written)
}

// The same by the plain engine.
#[unsafe(no_mangle)]
pub extern "C" fn kuyeshan_value_plain(
    case: &[u8],
    out: &mut [u8],
    line: &mut u64,
    written: &mut u64,
) -> u64
    ensures value { result ≡ number_of (valued_of (length out.old) case.now) }
    ensures out_after { out.new ≡ buffer (valued_of (length out.old) case.now) out.old }
    ensures line_after { line.new ≡ line_number_of (valued_of (length out.old) case.now) }
    ensures written_after { written.new ≡ written_of (valued_of (length out.old) case.now) }
{
    value_by(EngineChoice::Plain, case, out, line, written)
}

// The same by the shared engine.
#[unsafe(no_mangle)]
pub extern "C" fn kuyeshan_value_shared(
    case: &[u8],
    out: &mut [u8],
    line: &mut u64,
    written: &mut u64,
) -> u64
    ensures value { result ≡ number_of (valued_of (length out.old) case.now) }
    ensures out_after { out.new ≡ buffer (valued_of (length out.old) case.now) out.old }
    ensures line_after { line.new ≡ line_number_of (valued_of (length out.old) case.now) }
    ensures written_after { written.new ≡ written_of (valued_of (length out.old) case.now) }
{
    value_by(EngineChoice::Shared, case, out, line, written)
}

// What the three share.
fn value_by(
    engine: EngineChoice,
    case: &[u8],
    out: &mut [u8],
    line: &mut u64,
    written: &mut u64,
) -> u64
    ensures value { result ≡ number_of (valued_of (length out.old) case.now) }
    ensures out_after { out.new ≡ buffer (valued_of (length out.old) case.now) out.old }
    ensures line_after { line.new ≡ line_number_of (valued_of (length out.old) case.now) }
    ensures written_after { written.new ≡ written_of (valued_of (length out.old) case.now) }
{
    let answer = valuation::value_case_by(engine, case, out);
    *line = line_told(&answer);
    *written = written_told(&answer);
    number_told(&answer)
}

// Writes the one line of a refusal at the start of `out`. It answers 0, or 30 where the line is longer than that.
#[unsafe(no_mangle)]
pub extern "C" fn kuyeshan_refusal_line(
    number: u64,
    line: u64,
    out: &mut [u8],
    written: &mut u64,
) -> u64
    ensures value { result ≡ number_of (fitting (length out.old) (refusal_line number line)) }
    ensures out_after { out.new ≡ buffer (fitting (length out.old) (refusal_line number line)) out.old }
    ensures written_after { written.new ≡ written_of (fitting (length out.old) (refusal_line number line)) }
{
    let printed = fitting::refusal_line(number, line, out);
    *written = written_told(&printed);
    number_told(&printed)
}

// Rules 5.5 and 5.6: values a lone member of a plan with its amendments, all of them plain numbers: its benefit, present value,
// normal cost and liability go to `figures`. A refusal leaves `figures` as they were; its line would be 0.
#[unsafe(no_mangle)]
pub extern "C" fn kuyeshan_value_member(
    plan: &Terms,
    amendments: &[[u64; 4]],
    rows: &Rows,
    member: &[u64; 5],
    figures: &mut [u64; 4],
) -> u64
    ensures value { result ≡ refused_by (valuation (plan_from plan.now) (amendments_from amendments.now) rows.now (member_from member.now)) }
    ensures figures_after { figures.new ≡ figures_after (valuation (plan_from plan.now) (amendments_from amendments.now) rows.now (member_from member.now)) figures.old }
{
    let p = Plan::from(*plan);
    let m = Member::from(*member);
    match plain_engine::value_member(p, amendments, *rows, m) {
        Ok(f) => {
            *figures = [f.benefit, f.value, f.cost, f.liability];
            0
        }
        Err(refused) => refused.refusal.number(),
    }
}

// Rules 5.7 and 13.6: writes the case file of a plan with its amendments, its rows and its members, all of them plain numbers, at the
// start of `out`. A refusal leaves `out` as it was; its line would be 0.
#[unsafe(no_mangle)]
pub extern "C" fn kuyeshan_write_case(
    plan: &Terms,
    amendments: &[[u64; 4]],
    rows: &Rows,
    members: &[[u64; 5]],
    out: &mut [u8],
    written: &mut u64,
) -> u64
    ensures value { result ≡ number_of (file_of (length out.old) (plain_case (plan_from plan.now) amendments.now rows.now members.now)) }
    ensures out_after { out.new ≡ buffer (file_of (length out.old) (plain_case (plan_from plan.now) amendments.now rows.now members.now)) out.old }
    ensures written_after { written.new ≡ written_of (file_of (length out.old) (plain_case (plan_from plan.now) amendments.now rows.now members.now)) }
{
    let p = Plan::from(*plan);
    let file = writer::write_case(p, amendments, *rows, members, out);
    *written = written_told(&file);
    number_told(&file)
}
