// A curve's value at a tick, its first values in a lent table, and whether its rises are those of a curve. Each answers
// for any numbers: a value that 64 bits do not hold stands as their largest number, and no well-formed curve has one.
ghost use Rattle.std.specs.Prelude.{◌≡◌, ◌+◌, ◌*◌, ◌≤◌, ◌<◌, min, get_or};
ghost use Rattle.curve.specs.Held.{steps_of};
ghost use Rattle.curve.specs.Steps.{largest, sum_to, reached, closes, value_by, stepped};
ghost use Rattle.curve.specs.Table.{table_over};
ghost use Rattle.curve.specs.Walks.{most, turned_to};

use crate::listed::{narrow, number_at};
use crate::{Claim, Form, Held, Ticks, Units};

// The sum of `count` rises from the `from`-th on. Those that the array lacks are 0.
fn risen(rises: &[u32], from: usize, count: usize) -> u64
    requires { (from < 4_294_967_296) × (count < 4_294_967_296) }
    ensures value { result ≡ sum_to (λ i. get_or rises.now (from + i) 0) count }
    ensures upper_bound { result ≤ count * largest }
{
    let end = rises.len().min(from + count);
    let mut sum: u64 = 0;
    for i in from..end {
        sum += rises[i] as u64;
    }
    sum
}

// Where a tick comes to: its place in the list, after so many whole periods since the rank.
#[derive(Clone, Copy)]
pub(crate) struct Turned {
    pub(crate) place: u32,
    pub(crate) turns: u32,
}

// Below T+d the place is the tick, and nothing is divided. A period of 0 is no curve's.
pub(crate) fn turn_by(form: Form, tick: Ticks) -> Turned
    ensures { result ≡ turned_to form.rank.0 form.period.0 tick.0 }
{
    let t = form.rank.0;
    let d = form.period.0;
    let n = tick.0;
    if d == 0 || (n as u64) < t as u64 + d as u64 {
        return Turned { place: n, turns: 0 };
    }
    let since = n - t;
    Turned {
        place: t + since % d,
        turns: since / d,
    }
}

impl Held<'_> {
    // The listed value at a place: the first value and the rises before it.
    fn listed_at(self, place: u32) -> u64
        ensures { result ≡ reached (steps_of self.entry) place }
    {
        self.form.first as u64 + risen(self.rises, 0, place as usize)
    }

    // Whole periods by one multiplication, then the rises up to the place.
    pub(crate) fn value_after(self, at: Turned) -> Units
        ensures { result.0 ≡ min (reached (steps_of self.entry) at.place + at.turns * self.entry.form.increment) most }
    {
        let gained = at.turns as u64 * self.form.increment as u64;
        Units(self.listed_at(at.place).saturating_add(gained))
    }

    pub fn value_at(self, tick: Ticks) -> Units
        ensures { result.0 ≡ min (value_by (steps_of self.entry) tick.0) most }
    {
        self.value_after(turn_by(self.form, tick))
    }

    // The values at the ticks from 0 on, by a running sum, over the places of `out`: at most 4,097 of them, and what
    // stands after those stays. A value that needs more than 32 bits stands as their largest number.
    pub fn fill(self, out: &mut [u32])
        ensures { out.new ≡ table_over (stepped (steps_of self.entry)) out.old }
    {
        let t = self.form.rank.0 as usize;
        let count = t + self.form.period.0 as usize;
        let end = out.len().min(Claim::MAX_HORIZON + 1);
        let mut value = self.form.first as u64;
        let mut place: usize = 0;
        for n in 0..end {
            out[n] = narrow(value);
            value += number_at(self.rises, place) as u64;
            place += 1;
            if count <= place {
                place = t;
            }
        }
    }

    // The rises of one period add up to c.
    pub fn closes(self) -> bool
        ensures { result ≡ closes (steps_of self.entry) }
    {
        let rank = self.form.rank.0 as usize;
        risen(self.rises, rank, self.form.period.0 as usize) == self.form.increment as u64
    }
}
