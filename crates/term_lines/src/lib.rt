// The terms, rules 2.1 and 13.6, each written on its line; and the line of a key and a whole number, which the end is too.
#![tactic(auto)]

ghost use Rattle.std.specs.Prelude.{◌≡◌, [], ◌∷◌, ◌++◌, ◌+◌, ◌^◌, ◌≤◌, ◌<◌, length};
ghost use Rattle.printing.specs.Amounts.{whole_number, amount};
ghost use Rattle.printing.specs.Puts.{PutsAt, Puts};
ghost use Rattle.written.specs.Written.{word_of, formula_words, method_words, term_lines, closed_lines};

use plan::Plan;
use printed_lines::write_start;
use printing::Page;

// Writes a line of a key and a whole number.
pub fn write_whole_line(page: &mut Page, key: &[u8], n: u64)
    requires { (length key.now ≤ 16) × (page.old.at + 37 < 2 ^ 64) }
    ensures puts { Puts page.old (closed_lines ((key.now ++ whole_number n) ∷ [])) page.new }
    ensures upper_bound { page.new.at ≤ page.old.at + 37 }
{
    write_start(page, key, n);
    page.put(b'\n');
}

// Writes a line of a key and a word. One function over what follows the key would be handed the writer.
fn write_word_line(page: &mut Page, key: &[u8], word: &[u8])
    requires { page.old.at + length key.now + length word.now + 1 < 2 ^ 64 }
    ensures puts { Puts page.old (closed_lines ((key.now ++ word.now) ∷ [])) page.new }
    ensures upper_bound { page.new.at ≤ page.old.at + length key.now + length word.now + 1 }
{
    page.text(key);
    page.text(word);
    page.put(b'\n');
}

// Writes a line of a key and an amount.
fn write_amount_line(page: &mut Page, key: &[u8], cents: u64)
    requires { page.old.at + length key.now + 24 < 2 ^ 64 }
    ensures puts { Puts page.old (closed_lines ((key.now ++ amount cents) ∷ [])) page.new }
    ensures upper_bound { page.new.at ≤ page.old.at + length key.now + 24 }
{
    page.text(key);
    page.amount(cents);
    page.put(b'\n');
}

// Rule 2.4: a formula's word. A code that has none, which no accepted plan has, has no bytes.
fn formula_word(code: u64) -> &'static [u8]
    ensures value { result.now ≡ word_of formula_words code }
    ensures upper_bound { length result.now ≤ 6 }
{
    match code {
        1 => b"flat",
        2 => b"career",
        3 => b"final",
        _ => b"",
    }
}

// Rule 2.7: a method's word, in the same way.
fn method_word(code: u64) -> &'static [u8]
    ensures value { result.now ≡ word_of method_words code }
    ensures upper_bound { length result.now ≤ 2 }
{
    match code {
        1 => b"AB",
        2 => b"BD",
        3 => b"BP",
        4 => b"CD",
        5 => b"CP",
        _ => b"",
    }
}

// Begins a page with the terms.
pub fn write_terms<'a>(out: &'a mut [u8], p: Plan) -> Page<'a>
    ensures puts { PutsAt out.old 0 (closed_lines (term_lines p)) result.out.now result.at }
    ensures upper_bound { result.at ≤ 278 }
    ensures same_buffer { result.out.ghost_name ≡ out.entry.ghost_name }
{
    let mut page = Page::new(out);
    write_whole_line(&mut page, b"interest=", p.interest);
    write_whole_line(&mut page, b"retire=", p.retire);
    write_whole_line(&mut page, b"pay=", p.pay);
    write_word_line(&mut page, b"formula=", formula_word(p.formula));
    write_whole_line(&mut page, b"unit=", p.unit);
    write_whole_line(&mut page, b"average=", p.average);
    write_word_line(&mut page, b"method=", method_word(p.method));
    write_amount_line(&mut page, b"assets=", p.assets);
    write_whole_line(&mut page, b"years=", p.years);
    page
}
