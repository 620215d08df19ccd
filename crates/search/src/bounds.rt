// Kinds 4 to 7: two walks, the right one so many ticks ahead.
ghost use Rattle.std.specs.Prelude.{◌≡◌, ◌≤◌};
ghost use Rattle.minplus.specs.Claim.{at_most, max_x};
ghost use Rattle.minplus.specs.Horizon.{max_horizon};
ghost use Rattle.curve.specs.Claimed.{amount_of, bound_over};
ghost use Rattle.curve.specs.Lending.{curve_lent};
ghost use Rattle.search.specs.Break.{Comparable, first_above, first_of_tried, later_by, more_by};

use crate::{Break, Compared};
use curve::lent::Lent;
use curve::walks::Walk;
use curve::{Deviation, Ticks, Units};

// Kinds 4 and 5: how many ticks later the right value is taken. A backlog's is not.
fn later_by(deviation: Deviation) -> Ticks
    ensures { result.0 ≡ later_by deviation }
{
    match deviation {
        Deviation::Delay(x) => x,
        Deviation::Backlog(_) => Ticks(0),
    }
}

// Kinds 6 and 7: what is added to the right value. To a delay's it is nothing.
fn more_by(deviation: Deviation) -> Units
    ensures { result.0 ≡ more_by deviation }
{
    match deviation {
        Deviation::Delay(_) => Units(0),
        Deviation::Backlog(x) => x,
    }
}

// The first of the `tried` ticks at which f is above what g is so many ticks later, and so many units more. Each of the
// two is walked over, one rise a tick. The loop counts the ticks that it compares, the one that it stops at included.
fn first_above(f: Lent, g: Lent, later: Ticks, more: Units, tried: usize) -> Compared
    requires { Comparable later.0 more.0 tried }
    ensures { result ≡ first_above (curve_lent f.entry) (curve_lent g.entry) later.0 more.0 tried }
{
    let mut arrived = Walk::start(f.held.form);
    let mut served = Walk::at(g.held, later);
    let mut counted = Ticks(0);
    for s in 0..tried {
        counted = Ticks(s as u32 + 1);
        let value = arrived.value;
        let allowed = served.value.0 + more.0;
        if allowed < value.0 {
            let found = Break {
                tick: Ticks(s as u32),
                left: value,
                right: Units(allowed),
            };
            return Compared {
                found: Some(found),
                ticks: counted,
            };
        }
        arrived = arrived.next(f.held);
        served = served.next(g.held);
    }
    Compared {
        found: None,
        ticks: counted,
    }
}

// The first of the `tried` ticks at which the left value is above the right one.
pub fn first_over(deviation: Deviation, f: Lent, g: Lent, tried: usize) -> Compared
    requires { (amount_of deviation ≤ max_x) × (tried ≤ max_horizon) }
    ensures { result ≡ first_of_tried (bound_over deviation at_most (curve_lent f.entry) (curve_lent g.entry)) tried }
{
    let later = later_by(deviation);
    let more = more_by(deviation);
    first_above(f, g, later, more, tried)
}
