// Kind 3, the convolution: ticks and splits, nested.
#![tactic(auto)]

ghost use Rattle.std.specs.Prelude.{◌≡◌, ◌+◌, ◌≤◌, true};
ghost use Rattle.minplus.specs.Claim.{convolution, equals};
ghost use Rattle.minplus.specs.Horizon.{max_horizon};
ghost use Rattle.curve.specs.Held.{steps_of};
ghost use Rattle.curve.specs.Lending.{curve_lent};
ghost use Rattle.search.specs.Break.{first_of_tried};
ghost use Rattle.splits.specs.Parts.{Carries, carried_in, carried_put, no_work};
ghost use Rattle.splits.specs.Reach.{late_of, reach_of};
ghost use Rattle.splits.specs.Splits.{Foldable};

use curve::lent::Lent;
use curve::walks::Walk;
use curve::{Curve, Ticks, Units};
use search::{Break, Compared};

// What a search works in. What stands there before a search does not matter, and after it it is nobody's.
#[derive(Drop)]
pub struct Work {
    // f's values, up to the tick from which on no split is tried.
    left: [u32; Work::SETTLED],
    // g's listed values.
    right: [u32; Curve::MAX_LISTED],
    // The least sum of each tick over the splits that g lists before its rank,
    near: [u32; Work::SETTLED],
    // that over the splits of its first period,
    last: [u32; Work::SETTLED],
    // and that over all splits from its rank on, of the ticks of one period of g.
    carried: [u32; Curve::MAX_LISTED],
}

impl Work {
    // Two curves list no more than this together, and one tick less is settled.
    const SETTLED: usize = 2 * Curve::MAX_LISTED;

    pub fn new() -> Work
        ensures { result ≡ no_work }
    {
        Work {
            left: [0; Work::SETTLED],
            right: [0; Curve::MAX_LISTED],
            near: [0; Work::SETTLED],
            last: [0; Work::SETTLED],
            carried: [0; Curve::MAX_LISTED],
        }
    }

    // The least over the splits of a tick from g's rank on: that over its first period, or what was a period before the
    // tick, with g's increment. It takes the place of what was a period before.
    fn carry(&mut self, at: usize, added: u32, turn: usize, gain: u32, again: bool) -> u32
        requires { Carries self.old at added turn gain again }
        ensures value { result ≡ carried_in self.old at added turn gain again }
        ensures work_after { self.new ≡ carried_put self.old turn (carried_in self.old at added turn gain again) }
    {
        let mut least = self.last[at] + added;
        if again {
            least = least.min(self.carried[turn] + gain);
        }
        self.carried[turn] = least;
        least
    }
}

// How far v goes in the splits u + v = n that are tried. Of a curve with itself a split and its mirror, v + u, give the
// same sum.
fn reach(itself: bool, n: usize) -> usize
    ensures { result ≡ reach_of itself n }
{
    if itself { n / 2 } else { n }
}

// The first tick at which that comes to g's rank.
fn late_from(itself: bool, start: Ticks) -> usize
    ensures { result ≡ late_of itself start.0 }
{
    let start = start.0 as usize;
    if itself { 2 * start } else { start }
}

// The first of the `tried` ticks at which h differs from the convolution of f and g, whose values stand in the working
// numbers. Only splits that g lists are tried, as a later one is carried over g's periods, and of a curve with itself
// only the smaller half; and from the tick `settled` on, past the first periods of both, none is, as all is what it was
// a period of f before, and c more. The loop counts the ticks that it compares, the one that it stops at included. It
// is made no part of its caller: what its loops keep in registers then hangs on what stands around them, and it was
// seen half as slow again.
#[inline(never)]
fn first_split(itself: bool, f: Lent, g: Lent, h: Lent, tried: usize, work: &mut Work) -> Compared
    requires { Foldable itself (curve_lent f) (curve_lent g) work.old tried }
    ensures { result ≡ first_of_tried (equals convolution (curve_lent f.entry) (curve_lent g.entry) (curve_lent h.entry)) tried }
{
    let period = f.held.form.period.0 as usize;
    let start = g.held.form.rank.0 as usize;
    let span = g.held.form.period.0 as usize;
    let count = start + span;
    let settled = f.held.form.rank.0 as usize + period + count - 1;
    let late = late_from(itself, g.held.form.rank);
    let mut compared = Compared {
        found: None,
        ticks: Ticks(0),
    };
    let mut walk = Walk::start(h.held.form);
    let mut at: usize = 0;
    let mut added: u32 = 0;
    let mut turn: usize = 0;
    'ticks: for n in 0..tried {
        compared.ticks = Ticks(n as u32 + 1);
        let reached = reach(itself, n);
        if n < settled {
            let mut near = work.left[n] + work.right[0];
            // Both ends by `min` were slower at every tick.
            let end = if reached < start { reached + 1 } else { start };
            for v in 1..end {
                near = near.min(work.left[n - v] + work.right[v]);
            }
            work.near[n] = near;
        }
        let mut due = work.near[at] + added;
        if late <= n {
            if n < settled {
                let mut last = work.left[n - start] + work.right[start];
                let end = if reached < count { reached + 1 } else { count };
                for v in start + 1..end {
                    last = last.min(work.left[n - v] + work.right[v]);
                }
                work.last[n] = last;
            }
            due = due.min(work.carry(at, added, turn, g.held.form.increment, late + span <= n));
            turn += 1;
            if turn == span {
                turn = 0;
            }
        }
        let value = walk.value;
        if due as u64 != value.0 {
            compared.found = Some(Break {
                tick: Ticks(n as u32),
                left: Units(due as u64),
                right: value,
            });
            break 'ticks;
        }
        walk = walk.next(h.held);
        at += 1;
        if at == settled {
            at = settled - period;
            added += f.held.form.increment;
        }
    }
    compared
}

// The same of curves that are lent. Whoever knows the book says whether it is a curve with itself.
pub fn first_apart(
    itself: bool,
    f: Lent,
    g: Lent,
    h: Lent,
    tried: usize,
    work: &mut Work,
) -> Compared
    requires within { tried ≤ max_horizon + 1 }
    requires one_curve { itself ≡ true → steps_of f.held ≡ steps_of g.held }
    ensures { result ≡ first_of_tried (equals convolution (curve_lent f.entry) (curve_lent g.entry) (curve_lent h.entry)) tried }
{
    let count = g.held.form.rank.0 as usize + g.held.form.period.0 as usize;
    let settled = f.held.form.rank.0 as usize + f.held.form.period.0 as usize + count - 1;
    f.held.fill(&mut work.left[..settled]);
    g.held.fill(&mut work.right[..count]);
    first_split(itself, f, g, h, tried, work)
}
