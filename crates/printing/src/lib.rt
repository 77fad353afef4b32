// What is printed, RULES section 13: bytes and texts, whole numbers, amounts and signed amounts; the lines made of them are the crate
// printed_lines'. specs/ has the texts. They are written on a `Page`, a buffer that the caller lends and the place in it where the next
// text begins. A writer puts its text there as far as the buffer reaches, all its other bytes stay, and the page's place is
// after the text, whether that fits or not, so that with an empty buffer it only measures: the contracts say so with `Puts`.
// What a writer requires is that this place is a number of 64 bits, which its second `ensures` hands on.
#![tactic(auto)]

mod digits;

ghost use Rattle.std.specs.Prelude.{◌≡◌, ◌&&◌, [], ◌∷◌, ◌+◌, ◌^◌, ◌≤◌, ◌<◌, ltb, length};
ghost use Rattle.rounding.specs.Signed.{integer_of};
ghost use Rattle.printing.specs.Amounts.{digits, whole_number, amount, signed_amount};
ghost use Rattle.printing.specs.Puts.{PutsAt, Puts};

use digits::{put, write_two, write_whole};
use rounding::Signed;

// A buffer that is lent, and the place in it after what is written. The place may lie past the buffer's end, and a caller
// may begin anywhere.
#[derive(Drop)]
pub struct Page<'a> {
    pub out: &'a mut [u8],
    pub at: usize,
}

impl<'a> Page<'a> {
    // A page that begins where the buffer does.
    pub fn new(out: &'a mut [u8]) -> Page<'a>
        ensures at { result.at ≡ 0 }
        ensures out { result.out.now ≡ out.old }
        ensures same_buffer { result.out.ghost_name ≡ out.entry.ghost_name }
    {
        Page { out, at: 0 }
    }

    // Writes a byte.
    pub fn put(&mut self, byte: u8)
        requires { self.old.at + 1 < 2 ^ 64 }
        ensures { Puts self.old (byte ∷ []) self.new }
    {
        self.at = put(self.out, self.at, byte);
    }

    // Writes a text as it stands.
    pub fn text(&mut self, text: &[u8])
        requires { self.old.at + length text.now < 2 ^ 64 }
        ensures { Puts self.old text.now self.new }
    {
        for &byte in text {
            self.put(byte);
        }
    }

    // Writes the last two digits of n.
    fn two_digits(&mut self, n: u64)
        requires { self.old.at + 2 < 2 ^ 64 }
        ensures puts { Puts self.old (digits 2 n) self.new }
        ensures value { self.new.at ≡ self.old.at + 2 }
    {
        self.at = write_two(self.out, self.at, n);
    }

    // Writes a whole number.
    pub fn whole(&mut self, n: u64)
        requires { self.old.at + 20 < 2 ^ 64 }
        ensures puts { Puts self.old (whole_number n) self.new }
        ensures upper_bound { self.new.at ≤ self.old.at + 20 }
    {
        self.at = write_whole(self.out, self.at, n);
    }

    // Writes an amount.
    pub fn amount(&mut self, cents: u64)
        requires { self.old.at + 23 < 2 ^ 64 }
        ensures puts { Puts self.old (amount cents) self.new }
        ensures upper_bound { self.new.at ≤ self.old.at + 23 }
    {
        self.whole(cents / 100);
        self.put(b'.');
        self.two_digits(cents);
    }

    // Writes an amount after what is already written: the amount writer is lent the part of the output that begins there.
    // Where the output ends before that, the amount is only measured.
    fn amount_after(&mut self, cents: u64)
        requires { self.old.at + 23 < 2 ^ 64 }
        ensures puts { Puts self.old (amount cents) self.new }
        ensures upper_bound { self.new.at ≤ self.old.at + 23 }
    {
        if self.out.len() < self.at {
            return self.amount(cents);
        }
        self.at += write_amount(&mut self.out[self.at..], cents);
    }

    // Rule 13.4, writes a signed amount: the sign, if one is due, and after it the amount.
    pub fn signed(&mut self, z: Signed)
        requires { self.old.at + 24 < 2 ^ 64 }
        ensures puts { Puts self.old (signed_amount (integer_of z)) self.new }
        ensures upper_bound { self.new.at ≤ self.old.at + 24 }
    {
        if has_sign(z) {
            self.put(b'-');
            self.amount_after(z.size);
        } else {
            self.amount(z.size);
        }
    }
}

// Writes an amount where the buffer begins, and answers how many bytes that takes.
fn write_amount(out: &mut [u8], cents: u64) -> usize
    ensures puts { PutsAt out.old 0 (amount cents) out.new result }
    ensures upper_bound { result ≤ 23 }
{
    let mut page = Page::new(out);
    page.amount(cents);
    page.at
}

// Rule 13.4, a minus sign is due: never before 0.00.
fn has_sign(z: Signed) -> bool
    ensures { result ≡ (z.negative && ltb 0 z.size) }
{
    z.negative && 0 < z.size
}
