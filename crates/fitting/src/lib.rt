// What fits: the lines of a report, or the line of a refusal, are written whole at the start of the buffer, or the answer
// is refusal 30 and the buffer as it was. Each is measured before it is written, unless it surely fits. `refusal_line` is an
// entry and has no `requires`; `fit_lines` asks what accepted members show.
#![tactic(auto)]

ghost use Rattle.std.specs.Prelude.{◌≡◌, ◌≤◌, leb, length};
ghost use Rattle.rules.specs.Outcome.{outcome};
ghost use Rattle.walk.specs.Lines.{most_members};
ghost use Rattle.report.specs.Lines.{refusal_line};
ghost use Rattle.report.specs.MemberLines.{report_lines, ShortLines};
ghost use Rattle.fitting.specs.Fitting.{fitting, answer, buffer};

use report::{Report, write_refusal};
use rules::refusals::{Refusal, Refused};

// The longest lines: that of an accepted member, and the plan's three of 1,000 members, whatever words they hold.
const LONGEST_LINE: usize = 64;

const LONGEST_PLAN_LINES: usize = 145;

// Whether all lines of an accepted case fit so much room. Where even the longest would, nothing is measured. The report comes by
// value, so that it is known what its words can hold.
fn lines_fit(room: usize, report: Report) -> bool
    requires { (length report.members.now ≤ most_members) × ShortLines report.members.now report.worked.now (length report.members.now) }
    ensures { result ≡ leb (length (report_lines report.entry)) room }
{
    if LONGEST_LINE * report.members.len() + LONGEST_PLAN_LINES <= room {
        return true;
    }
    let mut nowhere = [0u8; 0];
    let needed = report.write(&mut nowhere);
    needed <= room
}

// Writes all lines of an accepted case where they fit, and tells how many bytes they are.
pub fn fit_lines(out: &mut [u8], report: Report) -> Result<usize, Refused>
    requires { (length report.members.now ≤ most_members) × ShortLines report.members.now report.worked.now (length report.members.now) }
    ensures value { outcome result ≡ answer (fitting (length out.old) (report_lines report.entry)) }
    ensures out_after { out.new ≡ buffer (fitting (length out.old) (report_lines report.entry)) out.old }
{
    if !lines_fit(out.len(), report) {
        return Err(Refusal::NoRoom.into());
    }
    Ok(report.write(out))
}

// Rule 13.3: writes the one line of a refusal at the start of `out`.
pub fn refusal_line(number: u64, line: u64, out: &mut [u8]) -> Result<usize, Refused>
    ensures value { outcome result ≡ answer (fitting (length out.old) (refusal_line number line)) }
    ensures out_after { out.new ≡ buffer (fitting (length out.old) (refusal_line number line)) out.old }
{
    let mut nowhere = [0u8; 0];
    if out.len() < write_refusal(&mut nowhere, number, line) {
        return Err(Refusal::NoRoom.into());
    }
    Ok(write_refusal(out, number, line))
}
