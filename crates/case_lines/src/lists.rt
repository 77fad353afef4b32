// The lines of the amendments, of the rows and of the members, in order.
ghost use Rattle.std.specs.Prelude.{[], ◌∷◌, ◌++◌, map, ◌+◌, ◌^◌, ◌≤◌, ◌<◌, length};
ghost use Rattle.rates.specs.Table.{first_age};
ghost use Rattle.amendments.specs.Force.{amendments_from};
ghost use Rattle.amendments.specs.Judging.{most_amendments};
ghost use Rattle.walk.specs.Lines.{most_members};
ghost use Rattle.plan.specs.Numbers.{member_from};
ghost use Rattle.printing.specs.Amounts.{whole_number};
ghost use Rattle.printing.specs.Puts.{Puts};
ghost use Rattle.written.specs.Written.{with_commas, amendment_line, row_line, row_lines, member_line, closed_lines};

use plan::{Amendment, Member};
use printed_lines::{write_field, write_next, write_start};
use printing::Page;
use rates::{FIRST_AGE, Rows};

// Writes how each of these lines begins: a key and four whole numbers. Over a slice it would be a loop with its invariant.
fn write_four(page: &mut Page, key: &[u8], a: u64, b: u64, c: u64, d: u64)
    requires { (length key.now ≤ 16) × (page.old.at + 99 < 2 ^ 64) }
    ensures puts { Puts page.old (key.now ++ with_commas (whole_number a ∷ whole_number b ∷ whole_number c ∷ whole_number d ∷ [])) page.new }
    ensures upper_bound { page.new.at ≤ page.old.at + 99 }
{
    write_start(page, key, a);
    write_next(page, b);
    write_next(page, c);
    write_next(page, d);
}

// Rule 2.11: writes an amendment.
fn write_amendment(page: &mut Page, a: Amendment)
    requires { page.old.at + 100 < 2 ^ 64 }
    ensures puts { Puts page.old (closed_lines (amendment_line a ∷ [])) page.new }
    ensures upper_bound { page.new.at ≤ page.old.at + 100 }
{
    write_four(page, b"amend=", a.number, a.rests, a.add, a.struck);
    page.put(b'\n');
}

// Rule 3.1: writes the row of an age.
fn write_row(page: &mut Page, age: u64, row: [u32; 4])
    requires { page.old.at + 121 < 2 ^ 64 }
    ensures puts { Puts page.old (closed_lines (row_line age row ∷ [])) page.new }
    ensures upper_bound { page.new.at ≤ page.old.at + 121 }
{
    let [death, withdrawal, disability, weight] = row;
    write_four(
        page,
        b"row=",
        age,
        u64::from(death),
        u64::from(withdrawal),
        u64::from(disability),
    );
    write_next(page, u64::from(weight));
    page.put(b'\n');
}

// Rule 4.1: writes a member.
fn write_member(page: &mut Page, m: Member)
    requires { page.old.at + 124 < 2 ^ 64 }
    ensures puts { Puts page.old (closed_lines (member_line m ∷ [])) page.new }
    ensures upper_bound { page.new.at ≤ page.old.at + 124 }
{
    write_four(page, b"member=", m.id, m.person, m.entry, m.age);
    write_field(page, m.salary);
    page.put(b'\n');
}

// Writes the amendments.
pub(crate) fn write_amendments(page: &mut Page, amendments: &[[u64; 4]])
    requires { (length amendments.now ≤ most_amendments) × (page.old.at + 2000 < 2 ^ 64) }
    ensures puts { Puts page.old (closed_lines (map amendment_line (amendments_from amendments.now))) page.new }
    ensures upper_bound { page.new.at ≤ page.old.at + 2000 }
{
    for &a in amendments {
        write_amendment(page, Amendment::from(a));
    }
}

// Writes the rows. They come by value, so that it is known how many they are.
pub(crate) fn write_rows(page: &mut Page, rows: Rows)
    requires { page.old.at + 12826 < 2 ^ 64 }
    ensures puts { Puts page.old (closed_lines (row_lines first_age rows)) page.new }
    ensures upper_bound { page.new.at ≤ page.old.at + 12826 }
{
    for (j, &row) in rows.iter().enumerate() {
        write_row(page, (FIRST_AGE + j) as u64, row);
    }
}

// Writes the members. The loop is write_amendments' over other lines: one over both would be handed the writer, and be no shorter.
pub(crate) fn write_members(page: &mut Page, members: &[[u64; 5]])
    requires { (length members.now ≤ most_members) × (page.old.at + 124000 < 2 ^ 64) }
    ensures puts { Puts page.old (closed_lines (map member_line (map member_from members.now))) page.new }
    ensures upper_bound { page.new.at ≤ page.old.at + 124000 }
{
    for &m in members {
        write_member(page, Member::from(m));
    }
}
