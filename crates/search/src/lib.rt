// The ticks of a claim: the first that breaks its rule, by walks over the curves. Kind 3 is searched in a crate of its
// own.
#![tactic(auto)]

ghost use Rattle.std.specs.Prelude.{◌≡◌, ◌≤◌};
ghost use Rattle.minplus.specs.Claim.{at_most, exactly, max_x};
ghost use Rattle.minplus.specs.Horizon.{max_horizon};
ghost use Rattle.minplus.specs.Verdict.{less_holds};
ghost use Rattle.curve.specs.Claimed.{amount_of, bound_over};
ghost use Rattle.curve.specs.Lending.{curve_lent};
ghost use Rattle.search.specs.Break.{LessAsked, first_of_tried, is_nowhere, less_of};

use curve::lent::Lent;
use curve::{Deviation, Ticks, Units};

pub mod bounds;
pub mod results;

use crate::bounds::first_over;

// The first tick that breaks the rule, with its left and its right value.
#[derive(Clone, Copy)]
pub struct Break {
    pub tick: Ticks,
    pub left: Units,
    pub right: Units,
}

// What a search comes to: what it found, and how many ticks it compared for that, from 0 on.
#[derive(Clone, Copy)]
pub struct Compared {
    pub found: Option<Break>,
    pub ticks: Ticks,
}

// Kinds 4 to 7: no tried tick breaks the rule.
fn holds(deviation: Deviation, f: Lent, g: Lent, horizon: usize) -> bool
    requires { (amount_of deviation ≤ max_x) × (horizon ≤ max_horizon) }
    ensures { result ≡ is_nowhere (first_of_tried (bound_over deviation at_most (curve_lent f.entry) (curve_lent g.entry)) horizon).found }
{
    first_over(deviation, f, g, horizon).found.is_none()
}

// X-1. Nothing is less than 0.
fn less_of(deviation: Deviation) -> Option<Deviation>
    ensures { result ≡ less_of deviation }
{
    match deviation {
        Deviation::Delay(x) => {
            let less = x.0.checked_sub(1)?;
            Some(Deviation::Delay(Ticks(less)))
        }
        Deviation::Backlog(x) => {
            let less = x.0.checked_sub(1)?;
            Some(Deviation::Backlog(Units(less)))
        }
    }
}

// Kinds 5 and 7: X > 0, and no tried tick breaks the rule for X-1.
pub fn less_holds(deviation: Deviation, f: Lent, g: Lent, horizon: usize) -> bool
    requires { LessAsked deviation (curve_lent f) (curve_lent g) horizon }
    ensures { result ≡ less_holds (bound_over deviation exactly (curve_lent f.entry) (curve_lent g.entry)) }
{
    match less_of(deviation) {
        Some(less) => holds(less, f, g, horizon),
        None => false,
    }
}
