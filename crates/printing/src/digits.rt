// The digits of a number, put into the buffer one by one. Here the buffer and the place are two parameters and not a page, since a page's place is
// loaded and stored at each byte, which took a quarter more time for a line.
ghost use Rattle.std.specs.Prelude.{◌≡◌, [], ◌∷◌, ◌+◌, ◌%◌, ◌^◌, ◌≤◌, ◌<◌};
ghost use Rattle.printing.specs.Amounts.{digits, whole_number};
ghost use Rattle.printing.specs.Puts.{PutsAt};

// Writes a byte, where the buffer reaches that far. Every writer stores through here, so that past its end each measures.
pub(crate) fn put(out: &mut [u8], at: usize, byte: u8) -> usize
    requires { at + 1 < 2 ^ 64 }
    ensures { PutsAt out.old at (byte ∷ []) out.new result }
{
    if at < out.len() {
        out[at] = byte;
    }
    at + 1
}

// Writes the last digit of n.
fn write_digit(out: &mut [u8], at: usize, n: u64) -> usize
    requires { at + 1 < 2 ^ 64 }
    ensures { PutsAt out.old at ((48 + n % 10) ∷ []) out.new result }
{
    put(out, at, 48 + (n % 10) as u8)
}

// Writes the last two digits of n.
pub(crate) fn write_two(out: &mut [u8], at: usize, n: u64) -> usize
    requires { at + 2 < 2 ^ 64 }
    ensures puts { PutsAt out.old at (digits 2 n) out.new result }
    ensures value { result ≡ at + 2 }
{
    let a = write_digit(out, at, n / 10);
    write_digit(out, a, n)
}

// Writes a whole number of one digit or two.
fn write_small(out: &mut [u8], at: usize, n: u64) -> usize
    requires { (n < 100) × (at + 2 < 2 ^ 64) }
    ensures puts { PutsAt out.old at (whole_number n) out.new result }
    ensures upper_bound { result ≤ at + 2 }
{
    if n < 10 {
        return write_digit(out, at, n);
    }
    write_two(out, at, n)
}

// Writes a whole number: its other digits, if it has more than four, and then the last four, which is quicker than one
// by one.
pub(crate) fn write_whole(out: &mut [u8], at: usize, n: u64) -> usize
    requires { at + 20 < 2 ^ 64 }
    ensures puts { PutsAt out.old at (whole_number n) out.new result }
    ensures upper_bound { result ≤ at + 20 }
{
    if n < 100 {
        return write_small(out, at, n);
    }
    if n < 10_000 {
        let a = write_small(out, at, n / 100);
        return write_two(out, a, n);
    }
    let b = write_whole(out, at, n / 10_000);
    let c = write_two(out, b, n / 100);
    write_two(out, c, n)
}
