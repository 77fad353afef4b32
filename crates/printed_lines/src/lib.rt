// The lines that are printed, rules 13.2 and 13.3: amounts after a number, a signed amount, a pair of numbers. Each writer puts its text on
// a page, as those of the crate printing do.
#![tactic(auto)]

ghost use Rattle.std.specs.Prelude.{◌∷◌, ◌++◌, ◌+◌, ◌*◌, ◌^◌, ◌≤◌, ◌<◌, length};
ghost use Rattle.rounding.specs.Signed.{integer_of};
ghost use Rattle.printing.specs.Amounts.{whole_number, amount};
ghost use Rattle.printed_lines.specs.Lines.{fields, amounts_line, signed_line, pair_line};
ghost use Rattle.printing.specs.Puts.{Puts};

use printing::Page;
use rounding::Signed;

// Rule 1.6: what stands between two values of a line.
const SEPARATOR: u8 = b',';

// Writes how a line begins that has a number: its key and the number.
pub fn write_start(page: &mut Page, key: &[u8], n: u64)
    requires { (length key.now ≤ 16) × (page.old.at + 36 < 2 ^ 64) }
    ensures puts { Puts page.old (key.now ++ whole_number n) page.new }
    ensures upper_bound { page.new.at ≤ page.old.at + 36 }
{
    page.text(key);
    page.whole(n);
}

// Writes a comma and a whole number. Apart from the next, as either is one call after the comma.
pub fn write_next(page: &mut Page, n: u64)
    requires { page.old.at + 21 < 2 ^ 64 }
    ensures puts { Puts page.old (44 ∷ whole_number n) page.new }
    ensures upper_bound { page.new.at ≤ page.old.at + 21 }
{
    page.put(SEPARATOR);
    page.whole(n);
}

// Writes a comma and an amount.
pub fn write_field(page: &mut Page, cents: u64)
    requires { page.old.at + 24 < 2 ^ 64 }
    ensures puts { Puts page.old (44 ∷ amount cents) page.new }
    ensures upper_bound { page.new.at ≤ page.old.at + 24 }
{
    page.put(SEPARATOR); // before an amount
    page.amount(cents);
}

// Writes amounts, each after a comma.
fn write_fields(page: &mut Page, amounts: &[u64])
    requires { page.old.at + 24 * length amounts.now < 2 ^ 64 }
    ensures puts { Puts page.old (fields amounts.now) page.new }
    ensures upper_bound { page.new.at ≤ page.old.at + 24 * length amounts.now }
{
    for &cents in amounts {
        write_field(page, cents);
    }
}

// Writes a line of a whole number and amounts.
pub fn write_amounts_line(page: &mut Page, key: &[u8], n: u64, amounts: &[u64])
    requires { (length key.now ≤ 16) × (page.old.at + 24 * length amounts.now + 37 < 2 ^ 64) }
    ensures puts { Puts page.old (amounts_line key.now n amounts.now) page.new }
    ensures upper_bound { page.new.at ≤ page.old.at + 24 * length amounts.now + 37 }
{
    write_start(page, key, n);
    write_fields(page, amounts);
    page.put(b'\n');
}

// Writes a line of a signed amount.
pub fn write_signed_line(page: &mut Page, key: &[u8], z: Signed)
    requires { (length key.now ≤ 16) × (page.old.at + 41 < 2 ^ 64) }
    ensures puts { Puts page.old (signed_line key.now (integer_of z)) page.new }
    ensures upper_bound { page.new.at ≤ page.old.at + 41 }
{
    page.text(key);
    page.signed(z);
    page.put(b'\n');
}

// Writes a line of two whole numbers.
pub fn write_pair_line(page: &mut Page, key: &[u8], a: u64, b: u64)
    requires { (length key.now ≤ 16) × (page.old.at + 58 < 2 ^ 64) }
    ensures { Puts page.old (pair_line key.now a b) page.new }
{
    write_start(page, key, a);
    write_next(page, b);
    page.put(b'\n');
}
