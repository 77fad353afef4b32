// The case file of a case, rule 13.6, as it is written: the crate written has the text, and every contract here is an equation with a
// part of it. The terms are the crate term_lines'; lists.rt has the amendments, the rows and the members, line by line. The text goes on a
// page, as in the crate printing. A bound on its place, in a second `ensures` of each writer, keeps the next in 64 bits; the last
// has none.
#![tactic(auto)]

mod lists;

ghost use Rattle.std.specs.Prelude.{◌≤◌, length};
ghost use Rattle.amendments.specs.Judging.{most_amendments};
ghost use Rattle.walk.specs.Lines.{most_members};
ghost use Rattle.judging.specs.Refusing.{plain_case};
ghost use Rattle.printing.specs.Puts.{PutsAt};
ghost use Rattle.written.specs.Written.{written};

use lists::{write_amendments, write_members, write_rows};
use plan::Plan;
use rates::Rows;
use term_lines::{write_terms, write_whole_line};

// Writes a case, from the start of the buffer on, and answers how many bytes it takes. With an empty buffer it only measures.
pub fn write_case_lines(
    out: &mut [u8],
    p: Plan,
    amendments: &[[u64; 4]],
    rows: &Rows,
    members: &[[u64; 5]],
) -> usize
    requires { (length amendments.now ≤ most_amendments) × (length members.now ≤ most_members) }
    ensures { PutsAt out.old 0 (written (plain_case p amendments.now rows.now members.now)) out.new result }
{
    let mut page = write_terms(out, p);
    write_amendments(&mut page, amendments);
    write_rows(&mut page, *rows);
    write_members(&mut page, members);
    write_whole_line(&mut page, b"end=", members.len() as u64);
    page.at
}
