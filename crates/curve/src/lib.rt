// Curves and claims as values, and what everything above asks of them: a value at a tick, a walk, a table of values,
// which of two is slower. How a curve is held is known here alone.
#![tactic(auto)]

ghost use Rattle.std.specs.Prelude.{◌≡◌, length};
ghost use Rattle.curve.specs.Held.{held_over, steps_in, steps_of};
ghost use Rattle.curve.specs.Kinds.{named_by, within};

pub mod lent;
pub mod listed;
pub mod rates;
pub mod values;
pub mod walks;

use crate::listed::hold;

// A count of ticks. A count of units can't be passed for it.
#[derive(Clone, Copy, PartialEq, Eq, PartialOrd, Ord)]
pub struct Ticks(pub u32);

// A count of data units. A value at any tick that `Ticks` holds fits.
#[derive(Clone, Copy, PartialEq, Eq, PartialOrd, Ord)]
pub struct Units(pub u64);

// What is held of a curve beside its rises: T, d, c and the first value.
#[derive(Clone, Copy, PartialEq, Eq)]
pub struct Form {
    pub rank: Ticks,
    pub period: Ticks,
    pub increment: u32,
    pub first: u32,
}

// The working copy of a curve: its rises from tick to tick, with room for 256 whatever its rank. The last of the T+d
// rises is that over the seam, and from the T-th on they repeat. What is held past them counts for nothing.
#[derive(Clone, Copy)]
pub struct Curve {
    pub form: Form,
    pub rises: [u32; Curve::MAX_LISTED],
}

impl Curve {
    pub const MAX_LISTED: usize = 256;

    pub const MAX_UNITS: u32 = 1_000_000;

    // Of the first T+d values of a working array. A list that falls has no rises, and what is held of it is ill-formed.
    pub fn new(
        rank: Ticks,
        period: Ticks,
        increment: u32,
        values: [u32; Curve::MAX_LISTED],
    ) -> Curve
        ensures { result ≡ held_over (record { rank = rank.0; period = period.0; increment = increment; listed = values }) }
    {
        let mut rises = values;
        let form = hold(rank, period, increment, &mut rises);
        Curve { form, rises }
    }

    pub fn held(&self) -> Held<'_>
        ensures steps { steps_of result ≡ steps_in self.now }
        ensures room { length result.rises.now ≡ 256 }
    {
        Held {
            form: self.form,
            rises: &self.rises,
        }
    }
}

// A curve as it is lent: it is passed by value, and its rises are not copied.
#[derive(Clone, Copy)]
pub struct Held<'a> {
    pub form: Form,
    pub rises: &'a [u32],
}

// Kinds 1 to 3: what the claimed curve is said to be.
#[derive(Clone, Copy)]
pub enum Operation {
    Sum,
    Minimum,
    Convolution,
}

// Kinds 4 to 7: X, a delay in ticks or a backlog in units.
#[derive(Clone, Copy)]
pub enum Deviation {
    Delay(Ticks),
    Backlog(Units),
}

// What is said of the left, the right and, for kinds 1 to 3, the claimed curve.
#[derive(Clone, Copy)]
pub enum Claim {
    Equals(Operation),
    AtMost(Deviation),
    Exactly(Deviation),
}

// Why a kind's number and an X make no claim.
#[derive(Clone, Copy, PartialEq, Eq)]
pub enum ClaimError {
    UnknownKind,
    XTooLarge,
}

impl Claim {
    pub const MAX_X: u32 = 1_000_000_000;

    pub const MAX_HORIZON: usize = 4_096;

    // Of numbers of any size. Kinds 1 to 3 have no X: what is passed for it is not looked at.
    pub fn new(kind: u64, x: u64) -> Result<Claim, ClaimError>
        ensures { result ≡ named_by kind x }
    {
        match kind {
            1 => Ok(Claim::Equals(Operation::Sum)),
            2 => Ok(Claim::Equals(Operation::Minimum)),
            3 => Ok(Claim::Equals(Operation::Convolution)),
            4 => Ok(Claim::AtMost(Deviation::Delay(Ticks(within(x)?)))),
            5 => Ok(Claim::Exactly(Deviation::Delay(Ticks(within(x)?)))),
            6 => Ok(Claim::AtMost(Deviation::Backlog(Units(within(x)? as u64)))),
            7 => Ok(Claim::Exactly(Deviation::Backlog(Units(within(x)? as u64)))),
            _ => Err(ClaimError::UnknownKind),
        }
    }
}

// X where it is within its limit.
fn within(x: u64) -> Result<u32, ClaimError>
    ensures { result ≡ within x }
{
    match u32::try_from(x) {
        Ok(amount) if amount <= Claim::MAX_X => Ok(amount),
        _ => Err(ClaimError::XTooLarge),
    }
}
