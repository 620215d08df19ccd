// Kinds 1 and 2: three walks beside each other.
ghost use Rattle.std.specs.Prelude.{◌≡◌, ◌+◌, ◌≤◌, Bool};
ghost use Rattle.minplus.specs.Claim.{equals};
ghost use Rattle.minplus.specs.Horizon.{max_horizon};
ghost use Rattle.curve.specs.Lending.{curve_lent};
ghost use Rattle.search.specs.Beside.{GivesBeside, TakesTwo, beside_of};
ghost use Rattle.search.specs.Break.{first_of_tried};

use crate::{Break, Compared};
use curve::lent::Lent;
use curve::walks::Walk;
use curve::{Ticks, Units};

// The first of the `tried` ticks at which h differs from what a closure makes of f and g there: the smaller of two
// values, or their sum, which need not fit 32 bits. The loop counts the ticks that it compares, the one that it stops
// at included.
fn first_by<B: Fn(u64, u64) -> u64>(beside: B, f: Lent, g: Lent, h: Lent, tried: usize) -> Compared
    requires within { tried ≤ max_horizon + 1 }
    requires takes { TakesTwo (B.pre beside) }
    ensures { (minimum : Bool) → GivesBeside minimum (B.post beside) → result ≡ first_of_tried (equals (beside_of minimum) (curve_lent f.entry) (curve_lent g.entry) (curve_lent h.entry)) tried }
{
    let mut one = Walk::start(f.held.form);
    let mut other = Walk::start(g.held.form);
    let mut said = Walk::start(h.held.form);
    let mut counted = Ticks(0);
    for n in 0..tried {
        counted = Ticks(n as u32 + 1);
        let first = one.value;
        let second = other.value;
        let value = said.value;
        let due = beside(first.0, second.0);
        if due != value.0 {
            let found = Break {
                tick: Ticks(n as u32),
                left: Units(due),
                right: value,
            };
            return Compared {
                found: Some(found),
                ticks: counted,
            };
        }
        one = one.next(f.held);
        other = other.next(g.held);
        said = said.next(h.held);
    }
    Compared {
        found: None,
        ticks: counted,
    }
}

// The first of the `tried` ticks at which h differs from the minimum, or the sum, of f and g. Which of the two is asked
// once, and not at every tick: each has a loop of its own.
pub fn first_unlike(minimum: bool, f: Lent, g: Lent, h: Lent, tried: usize) -> Compared
    requires { tried ≤ max_horizon + 1 }
    ensures { result ≡ first_of_tried (equals (beside_of minimum) (curve_lent f.entry) (curve_lent g.entry) (curve_lent h.entry)) tried }
{
    if minimum {
        first_by(u64::min, f, g, h, tried)
    } else {
        first_by(|a, b| a + b, f, g, h, tried)
    }
}
