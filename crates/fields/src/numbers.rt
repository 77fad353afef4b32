// Numbers, rules 1.3 to 1.6, each read in one pass up to the byte that ends it, so that no tail is dropped.
ghost use Rattle.std.specs.Prelude.{◌≡◌, true, ◌≤◌, ◌<◌};
ghost use Rattle.fields.specs.Numbers.{is_digit, whole_of, amount_of};
ghost use Rattle.fields.specs.Values.{field_of, last_of};

// A number, and the place of the byte that ends it.
#[derive(Clone, Copy)]
pub struct Field {
    pub value: u64,
    pub end: usize,
}

// A decimal digit. One function, so that LLVM makes one test of it.
fn is_digit(c: u8) -> bool
    ensures value { result ≡ is_digit c }
    ensures le_c { result ≡ true → (48 ≤ c) × (c ≤ 57) }
{
    b'0' <= c && c <= b'9'
}

// Rule 1.3: the whole number from place i up to the first byte b, which is no digit. A place instead of a slice, and the
// test of 12 digits inside the loop: in this shape LLVM inlines it.
pub fn field_at(s: &[u8], i: usize, b: u8) -> Option<Field>
    requires { b < 48 }
    ensures { result ≡ field_of whole_of b i s.now }
{
    let mut n: u64 = 0;
    for j in i..s.len() {
        let c = s[j];
        if !is_digit(c) {
            if c != b || j == i || (i + 1 < j && s[i] == b'0') {
                return None;
            }
            return Some(Field { value: n, end: j });
        }
        if i + 12 <= j {
            return None;
        }
        n = n * 10 + (c - b'0') as u64;
    }
    None
}

// Rule 1.4: the amount from place i up to the first byte 10, in cents.
pub fn amount_at(s: &[u8], i: usize) -> Option<Field>
    ensures { result ≡ field_of amount_of 10 i s.now }
{
    let dollars = field_at(s, i, b'.')?;
    let rest = &s[dollars.end..];
    let &[_, a, b, last, ..] = rest else {
        return None;
    };
    if !is_digit(a) || !is_digit(b) || last != b'\n' {
        return None;
    }
    Some(Field {
        value: dollars.value * 100 + (a - b'0') as u64 * 10 + (b - b'0') as u64,
        end: dollars.end + 3,
    })
}

// The last value of a line. A flag, by which the definition and the readers of lines choose too.
pub fn last_at(s: &[u8], i: usize, amount: bool) -> Option<Field>
    ensures { result ≡ field_of (last_of amount) 10 i s.now }
{
    if amount {
        amount_at(s, i)
    } else {
        field_at(s, i, b'\n')
    }
}
