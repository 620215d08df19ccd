// A walk over a curve's ticks: one rise a tick, and no division but where it begins.
ghost use Rattle.std.specs.Prelude.{◌≡◌};
ghost use Rattle.curve.specs.Held.{steps_of};
ghost use Rattle.curve.specs.Walks.{Walkable, walk_by, walk_start, next_walk};

use crate::values::turn_by;
use crate::{Form, Held, Ticks, Units};

// The place of the rise that comes next, and the value before it.
#[derive(Clone, Copy)]
pub struct Walk {
    pub place: usize,
    pub value: Units,
}

impl Walk {
    // A walk that begins at tick 0.
    pub fn start(form: Form) -> Walk
        ensures { result ≡ walk_start form.first }
    {
        Walk {
            place: 0,
            value: Units(form.first as u64),
        }
    }

    // A walk that begins at any tick.
    pub fn at(curve: Held, tick: Ticks) -> Walk
        ensures { result ≡ walk_by (steps_of curve.entry) tick.0 }
    {
        let begin = turn_by(curve.form, tick);
        Walk {
            place: begin.place as usize,
            value: curve.value_after(begin),
        }
    }

    // One tick on: one place on, and after the last one back to the rank's.
    pub fn next(self, curve: Held) -> Walk
        requires { Walkable (steps_of curve) self }
        ensures { result ≡ next_walk (steps_of curve.entry) self }
    {
        let t = curve.form.rank.0 as usize;
        let count = t + curve.form.period.0 as usize;
        let next = self.place + 1;
        Walk {
            place: if next < count { next } else { t },
            value: Units(self.value.0 + curve.rises[self.place] as u64),
        }
    }
}
