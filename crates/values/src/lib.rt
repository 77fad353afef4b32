// A line of a key, whole numbers with a comma after each, and a last value.
#![tactic(auto)]

ghost use Rattle.std.specs.Prelude.{◌≡◌, ◌-◌, ◌<◌, false, cond, nat_eq};
ghost use Rattle.std.specs.List.{list_any};
ghost use Rattle.fields.specs.declared.Fault.TheVariants.{Wrong, Cut};
ghost use Rattle.fields.specs.Numbers.{whole_of, amount_of};
ghost use Rattle.fields.specs.Split.{has_of};
ghost use Rattle.fields.specs.Values.{keyed_of, last_of, line_of, values_at};

use fields::numbers::{field_at, last_at};
use fields::{Fault, Line};

// Why a line is not read whose form is not right: it is wrong, or it is cut off.
pub fn unread(s: &[u8]) -> Fault
    ensures { result ≡ cond (has_of 10 s.now) Wrong Cut }
{
    if s.contains(&b'\n') {
        Fault::Wrong
    } else {
        Fault::Cut
    }
}

// N values from place i up to the first byte 10, and its place: whole numbers, of which the last may be an amount.
fn values_at<const N: usize, const AMOUNT: bool>(s: &[u8], i: usize) -> Option<([u64; N], usize)>
    requires { 0 < N }
    ensures { result ≡ values_at (last_of AMOUNT) (N - 1) i s.now }
{
    let mut values = [0; N];
    let mut at = i;
    for k in 0..N - 1 {
        let field = field_at(s, at, b',')?;
        values[k] = field.value;
        at = field.end + 1;
    }
    let last = last_at(s, at, AMOUNT)?;
    values[N - 1] = last.value;
    Some((values, last.end))
}

// The line that s begins with: the key, in which no byte is 10, and N values.
fn line<const N: usize, const AMOUNT: bool>(s: &[u8], key: &[u8]) -> Line<N>
    requires some { 0 < N }
    requires key { list_any (λ x. nat_eq x 10) key.now ≡ false }
    ensures { result ≡ line_of (keyed_of key.now (last_of AMOUNT) (N - 1)) s.now }
{
    if !s.starts_with(key) {
        return Err(unread(s));
    }
    // Not by `ok_or_else`: the proof doesn't see what its closure gives.
    match values_at::<N, AMOUNT>(s, key.len()) {
        Some(read) => Ok(read),
        None => Err(unread(s)),
    }
}

// The line that s begins with: the key, and N whole numbers.
pub fn whole_values<const N: usize>(s: &[u8], key: &[u8]) -> Line<N>
    requires some { 0 < N }
    requires key { list_any (λ x. nat_eq x 10) key.now ≡ false }
    ensures { result ≡ line_of (keyed_of key.now whole_of (N - 1)) s.now }
{
    line::<N, false>(s, key)
}

// The same, with an amount in the last place.
pub fn values_to_amount<const N: usize>(s: &[u8], key: &[u8]) -> Line<N>
    requires some { 0 < N }
    requires key { list_any (λ x. nat_eq x 10) key.now ≡ false }
    ensures { result ≡ line_of (keyed_of key.now amount_of (N - 1)) s.now }
{
    line::<N, true>(s, key)
}
