// A line after the rows, RULES section 4: a member's or the end's, read for its form. specs/Tails.antt has what the code answers of it. The crate
// members goes from line to line.
#![tactic(auto)]

ghost use Rattle.std.specs.Prelude.{◌≡◌};
ghost use Rattle.tails.specs.Tails.{kind_of, fault_of, surplus_of};

use fields::Fault;
use plan::Member;
use values::{values_to_amount, whole_values};

// A line after the rows that is right in its form: a member's, or the end's with its count.
#[derive(Clone, Copy)]
pub enum Tail {
    Listed(Member),
    End(u64),
}

// Why a line after the rows is refused: it is a member's when the members are full; it is neither a member's nor the
// end's; or it is cut off.
#[derive(Clone, Copy)]
pub enum TailFault {
    Surplus,
    Neither,
    Cut,
}

impl From<Fault> for TailFault {
    ghost from_gives = { λ fault result. result ≡ fault_of fault };

    fn from(fault: Fault) -> TailFault {
        match fault {
            Fault::Wrong => TailFault::Neither,
            Fault::Cut => TailFault::Cut,
        }
    }
}

// A line after the rows, with the place of its byte 10. When the members are full one more is a surplus (refusal 27): a
// flag, as the definition has it.
pub fn tail_line(s: &[u8], full: bool) -> Result<(Tail, usize), TailFault>
    ensures { result ≡ kind_of full s.now }
{
    if !s.starts_with(b"member=") {
        let (values, end) = whole_values::<1>(s, b"end=")?;
        return Ok((Tail::End(values[0]), end));
    }
    if full {
        return Err(surplus(s));
    }
    let (values, end) = values_to_amount::<5>(s, b"member=")?;
    Ok((Tail::Listed(Member::from(values)), end))
}

// A member's line after 1,000 members, however it goes on. As `values::unread`, but for the two faults.
fn surplus(s: &[u8]) -> TailFault
    ensures { result ≡ surplus_of s.now }
{
    if s.contains(&b'\n') {
        TailFault::Surplus
    } else {
        TailFault::Cut
    }
}
