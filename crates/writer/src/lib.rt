// The case file of plain values, rules 5.7 and 13.6 to 13.9. Which values are refused is the crate judging's, the text the crate
// written's, and its lines the crate case_lines'. The entry is write_case, and has no `requires`. specs/Files.antt has what it answers, and
// specs/Statements.antt that accepting undoes it.
#![tactic(auto)]

ghost use Rattle.std.specs.Prelude.{◌≡◌, leb, length};
ghost use Rattle.rules.specs.Outcome.{outcome};
ghost use Rattle.judging.specs.Refusing.{plain_case, case_refusal};
ghost use Rattle.written.specs.Written.{written};
ghost use Rattle.fitting.specs.Fitting.{answer, buffer};
ghost use Rattle.writer.specs.Files.{file_of};

use case_lines::write_case_lines;
use judging::case_refusal;
use plan::Plan;
use rates::Rows;
use rules::refusals::{Refusal, Refused};

// Rule 13.9: the longest file that an accepted case has.
const LONGEST_FILE: usize = 48_624;

// Whether the file of an accepted case fits so much room. Where even the longest would, nothing is measured.
fn file_fits(
    room: usize,
    p: Plan,
    amendments: &[[u64; 4]],
    rows: Rows,
    members: &[[u64; 5]],
) -> bool
    requires { case_refusal (plain_case p amendments.now rows members.now) ≡ 0 }
    ensures { result ≡ leb (length (written (plain_case p amendments.now rows members.now))) room }
{
    if LONGEST_FILE <= room {
        return true;
    }
    let mut nowhere = [0u8; 0];
    let needed = write_case_lines(&mut nowhere, p, amendments, &rows, members);
    needed <= room
}

// Writes the case file of a plan with its amendments, its rows and its members, at the start of `out`; or a refusal, with line 0.
pub fn write_case(
    p: Plan,
    amendments: &[[u64; 4]],
    rows: Rows,
    members: &[[u64; 5]],
    out: &mut [u8],
) -> Result<usize, Refused>
    ensures value { outcome result ≡ answer (file_of (length out.old) (plain_case p amendments.now rows members.now)) }
    ensures out_after { out.new ≡ buffer (file_of (length out.old) (plain_case p amendments.now rows members.now)) out.old }
{
    case_refusal(p, amendments, &rows, members)?;
    if !file_fits(out.len(), p, amendments, rows, members) {
        return Err(Refusal::NoRoom.into());
    }
    Ok(write_case_lines(out, p, amendments, &rows, members))
}
