// The valuation of a whole plan, as text: RULES sections 12 and 13. The figures and their totals are the crate totals', what the
// plan has yet to pay the crate funding's, the lines the crate report's, and that they are written where they fit is the crate
// fitting's. The entries are value_case, value_case_by and print_case, and those of the layers below, which are passed on:
// refusal_line, read_case, accept_case, accept_plan, accept_member, value_member. None has a `requires`.
#![tactic(auto)]

ghost use Rattle.std.specs.Prelude.{◌≡◌, ◌≤◌, length, IsOk};
ghost use Rattle.rules.specs.Refusals.{number};
ghost use Rattle.rules.specs.Outcome.{outcome, refusal};
ghost use Rattle.report.specs.Lines.{printed};
ghost use Rattle.fitting.specs.Fitting.{fitting, answer, buffer};
ghost use Rattle.valuation.specs.Answers.{valued_of, or_refusal, program_of};
ghost use Rattle.all_figures.specs.Worked.{AcceptedMembers, members_in};

pub use acceptance::{accept_member, accept_plan};
use amending::as_valued;
pub use casefile::{accept_case, read_case};
pub use costs::Figures;
use fitting::fit_lines;
pub use fitting::refusal_line;
use funding::{supplemental_of, unfunded_of};
pub use plain_engine::value_member;
pub use plan::{Amendments, Member, Plan};
use plan::{MOST_AMENDMENTS, MOST_MEMBERS};
use rates::{AGES, Rows};
use report::Report;
pub use rules::refusals::{Refusal, Refused};
pub use totals::EngineChoice;
use totals::work;
pub use whole_walk::Outline;

// Values a case file: the lines of its members and of the plan, at the start of `out`, or a refusal.
pub fn value_case(case: &[u8], out: &mut [u8]) -> Result<usize, Refused>
    ensures value { outcome result ≡ answer (valued_of (length out.old) case.now) }
    ensures out_after { out.new ≡ buffer (valued_of (length out.old) case.now) out.old }
{
    value_case_by(EngineChoice::ByCount, case, out)
}

// The same by an engine that the caller chooses: the answer and every byte are those.
pub fn value_case_by(engine: EngineChoice, case: &[u8], out: &mut [u8]) -> Result<usize, Refused>
    ensures value { outcome result ≡ answer (valued_of (length out.old) case.now) }
    ensures out_after { out.new ≡ buffer (valued_of (length out.old) case.now) out.old }
{
    let mut amendments = [[0; 4]; MOST_AMENDMENTS];
    let mut rows = [[0; 4]; AGES];
    let mut members = [[0; 5]; MOST_MEMBERS];
    let answer = accept_case(case, &mut amendments, &mut rows, &mut members);
    let outline = answer?;
    let listed = &amendments[..outline.amendments as usize];
    let valued = as_valued(outline.plan, listed);
    let accepted = &members[..outline.members as usize];
    value_accepted(engine, valued, rows, accepted, out)
}

// Values an accepted case, under the plan as it is valued.
fn value_accepted(
    engine: EngineChoice,
    p: Plan,
    rows: Rows,
    members: &[[u64; 5]],
    out: &mut [u8],
) -> Result<usize, Refused>
    requires { AcceptedMembers p rows members.now (length members.now) }
    ensures value { outcome result ≡ answer (fitting (length out.old) (printed p rows (members_in members.now (length members.now)))) }
    ensures out_after { out.new ≡ buffer (fitting (length out.old) (printed p rows (members_in members.now (length members.now)))) out.old }
{
    let mut worked = [[0u64; 4]; MOST_MEMBERS];
    let totals = work(engine, p, rows, members, &mut worked);
    let unfunded = unfunded_of(totals.liability, p.assets);
    let supplemental = supplemental_of(unfunded, p.interest, p.years);
    let report = Report {
        members,
        worked: &worked,
        totals,
        unfunded,
        supplemental,
    };
    fit_lines(out, report)
}

// Rule 13.1, what the program prints of a case file, at the start of `out`: its lines, or the one line of its refusal.
// Where that line too is longer than `out`, the refusal is answered as it is; with 50 bytes something is always written.
pub fn print_case(case: &[u8], out: &mut [u8]) -> Result<usize, Refused>
    ensures value { outcome result ≡ answer (program_of (length out.old) case.now) }
    ensures out_after { out.new ≡ buffer (program_of (length out.old) case.now) out.old }
    ensures writes { 50 ≤ length out.old → IsOk result }
{
    match value_case(case, out) {
        Ok(n) => Ok(n),
        Err(refused) => print_refusal(refused, out),
    }
}

// The line of a refusal, at the start of `out`; where it is longer than that, the refusal itself.
fn print_refusal(refused: Refused, out: &mut [u8]) -> Result<usize, Refused>
    ensures value { outcome result ≡ answer (or_refusal (length out.old) (refusal (number refused.refusal) refused.line)) }
    ensures out_after { out.new ≡ buffer (or_refusal (length out.old) (refusal (number refused.refusal) refused.line)) out.old }
    ensures writes { 50 ≤ length out.old → IsOk result }
{
    refusal_line(refused.refusal.number(), refused.line, out).or(Err(refused))
}
