// The lines of a report, RULES section 13: those of the members and of the plan, or the one line of a refusal. A writer
// puts them on a page, and those that begin it answer how many bytes they take; with no bytes to write to they measure. Each
// `requires` is what accepted members show.
#![tactic(auto)]

ghost use Rattle.std.specs.Prelude.{◌+◌, ◌^◌, ◌≤◌, ◌<◌, length};
ghost use Rattle.rounding.specs.Signed.{integer_of};
ghost use Rattle.walk.specs.Lines.{most_members};
ghost use Rattle.printing.specs.Puts.{PutsAt, Puts};
ghost use Rattle.report.specs.Lines.{figures_line, plan_lines, refusal_line};
ghost use Rattle.report.specs.MemberLines.{lines_in, report_lines};

use all_figures::{Worked, figures_from};
use costs::Figures;
use plan::Member;
use printed_lines::{write_amounts_line, write_pair_line, write_signed_line};
use printing::Page;
use rounding::Signed;
use totals::Totals;

// What is reported of an accepted case: its members, the array of their figures, the sums of these, and what the plan has yet to pay.
#[derive(Clone, Copy)]
pub struct Report<'a> {
    pub members: &'a [[u64; 5]],
    pub worked: &'a Worked,
    pub totals: Totals,
    pub unfunded: Signed,
    pub supplemental: Signed,
}

impl Report<'_> {
    // Writes the members' lines.
    fn write_members(&self, page: &mut Page)
        requires { (length self.now.members.now ≤ most_members) × (page.old.at + 133000 < 2 ^ 64) }
        ensures puts { Puts page.old (lines_in self.now.members.now self.now.worked.now (length self.now.members.now)) page.new }
        ensures upper_bound { page.new.at ≤ page.old.at + 133000 }
    {
        // The figures by place: they stand in an array that may be longer, and a zip with a slice of it is no shorter.
        for (j, &numbers) in self.members.iter().enumerate() {
            let m = Member::from(numbers);
            let f = figures_from(self.worked[j]);
            write_member_line(page, m.id, f);
        }
    }

    // Writes the plan's three lines.
    fn write_plan(&self, page: &mut Page)
        requires { page.old.at + 191 < 2 ^ 64 }
        ensures { Puts page.old (plan_lines (length self.now.members.now) self.now.totals (integer_of self.now.unfunded) (integer_of self.now.supplemental)) page.new }
    {
        let t = self.totals;
        let sums = [t.value, t.cost, t.liability];
        write_amounts_line(page, b"total=", self.members.len() as u64, &sums);
        write_signed_line(page, b"unfunded=", self.unfunded);
        write_signed_line(page, b"supplemental=", self.supplemental);
    }

    // Writes all lines, from the start of the buffer on.
    pub fn write(&self, out: &mut [u8]) -> usize
        requires { length self.now.members.now ≤ most_members }
        ensures { PutsAt out.old 0 (report_lines self.now) out.new result }
    {
        let mut page = Page::new(out);
        self.write_members(&mut page);
        self.write_plan(&mut page);
        page.at
    }
}

// Writes a member's line.
fn write_member_line(page: &mut Page, id: u64, f: Figures)
    requires { page.old.at + 133 < 2 ^ 64 }
    ensures puts { Puts page.old (figures_line id f) page.new }
    ensures upper_bound { page.new.at ≤ page.old.at + 133 }
{
    let amounts = [f.benefit, f.value, f.cost, f.liability];
    write_amounts_line(page, b"member=", id, &amounts);
}

// Rule 13.3: writes the line of a refusal, from the start of the buffer on.
pub fn write_refusal(out: &mut [u8], number: u64, line: u64) -> usize
    ensures { PutsAt out.old 0 (refusal_line number line) out.new result }
{
    let mut page = Page::new(out);
    write_pair_line(&mut page, b"refused=", number, line);
    page.at
}
