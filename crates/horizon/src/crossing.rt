// The crossing N: from where on the slower curve decides. With two rates that nearly agree it needs more than 32 bits,
// and so do the products of A and B with a period that it is made of. Nothing else on the way to a horizon does.
ghost use Rattle.std.specs.Prelude.{◌≡◌, ℕ, ◌+◌, ◌*◌, ◌≤◌};
ghost use Rattle.minplus.specs.Curve.{value};
ghost use Rattle.minplus.specs.Horizon as Def;
ghost use Rattle.minplus.specs.Horizon.{Slower};
ghost use Rattle.curve.specs.Held.{rates_of};
ghost use Rattle.curve.specs.Claimed.{operation_of};
ghost use Rattle.curve.specs.Lending.{curve_lent};
ghost use Rattle.horizon.specs.Reach.{signed_of, Limited, Raisable, Extent, Small, Crossable, large, crossing_n};

use curve::lent::Lent;
use curve::rates::slower;
use curve::walks::Walk;
use curve::{Form, Operation, Ticks};

// A whole number that may be below 0: plus less minus.
#[derive(Clone, Copy)]
struct Signed {
    plus: u64,
    minus: u64,
}

impl Signed {
    fn increased(self, by: Signed) -> Signed
        requires { Small large self × Small large by }
        ensures result_value { signed_of result ≡ Def.◌increased_by◌ (signed_of self) (signed_of by) }
        ensures small { Small (large + large) result }
    {
        Signed {
            plus: self.plus + by.plus,
            minus: self.minus + by.minus,
        }
    }
}

// A curve's d and c.
#[derive(Clone, Copy)]
struct Rate {
    period: u64,
    increment: u64,
}

impl Rate {
    fn of(form: Form) -> Rate
        ensures { result ≡ record { period = form.period.0; increment = form.increment } }
    {
        Rate {
            period: form.period.0 as u64,
            increment: form.increment as u64,
        }
    }
}

// d*f(t) - c*t, raised by c*(start + count) so that it is not below 0; `left` is start + count - t.
fn raised(value: u64, rate: Rate, left: u32) -> u64
    requires { Raisable value rate.period rate.increment left }
    ensures value { result ≡ rate.period * value + rate.increment * left }
    ensures upper_bound { result ≤ large }
{
    rate.period * value + rate.increment * left as u64
}

// What `choose` keeps, the greatest or the least, of d*f(t) - c*t over start <= t < start + count, by a walk over f.
fn extreme<F: Fn(u64, u64) -> u64>(
    choose: F,
    f: Lent,
    rate: Rate,
    start: Ticks,
    count: u32,
) -> Signed
    ghost choice: { ℕ → ℕ → ℕ }
    requires extent { Extent rate.period rate.increment start.0 count }
    requires callable { F.IsAlwaysCallable choose }
    requires chooses { (a b r : _) → F.post choose a b r → r ≡ choice a b }
    requires small { (a b : ℕ) → a ≤ large → b ≤ large → choice a b ≤ large }
    ensures result_value { signed_of result ≡ Def.extreme_of choice (value (curve_lent f.entry)) rate.period rate.increment start.0 count }
    ensures small { Small large result }
{
    let mut walk = Walk::at(f.held, start);
    let mut kept = raised(walk.value.0, rate, count);
    for i in 1..count {
        walk = walk.next(f.held);
        kept = choose(kept, raised(walk.value.0, rate, count - i));
    }
    Signed {
        plus: kept,
        minus: rate.increment * (start.0 + count) as u64,
    }
}

// The extreme over one period from the rank on.
fn turning<F: Fn(u64, u64) -> u64>(choose: F, f: Lent) -> Signed
    ghost choice: { ℕ → ℕ → ℕ }
    requires callable { F.IsAlwaysCallable choose }
    requires chooses { (a b r : _) → F.post choose a b r → r ≡ choice a b }
    requires small { (a b : ℕ) → a ≤ large → b ≤ large → choice a b ≤ large }
    ensures result_value { signed_of result ≡ Def.extreme_of choice (value (curve_lent f.entry)) f.entry.held.form.period.0 f.entry.held.form.increment f.entry.held.form.rank.0 f.entry.held.form.period.0 }
    ensures small { Small large result }
{
    extreme(
        choose,
        f,
        Rate::of(f.held.form),
        f.held.form.rank,
        f.held.form.period.0,
    )
}

// N from A and B.
fn crossing(f: Form, g: Form, a: Signed, b: Signed) -> u64
    requires { Crossable (rates_of f) (rates_of g) a b }
    ensures { result ≡ Def.crossing (rates_of f) (rates_of g) (signed_of a) (signed_of b) }
{
    let d = f.period.0 as u64;
    let e = g.period.0 as u64;
    let ahead = (e * a.plus + d * b.minus).saturating_sub(d * b.plus + e * a.minus);
    ahead.div_ceil(g.increment as u64 * d - f.increment as u64 * e)
}

// d*g(T') - c*T'.
fn begun(f: Form, g: Lent) -> Signed
    requires { Limited (rates_of f) }
    ensures result_value { signed_of result ≡ Def.begun_at (rates_of f) (curve_lent g.entry) }
    ensures small { Small large result }
{
    let rank = g.held.form.rank;
    Signed {
        plus: f.period.0 as u64 * g.held.value_at(rank).0,
        minus: f.increment as u64 * rank.0 as u64,
    }
}

// The least d'*f(t) - c'*t over 0 <= t < T, where there is such a t.
#[tactic(auto, unfolding(minplus::specs::Horizon::earliest))]
fn earliest(f: Lent, g: Form) -> Signed
    requires { Limited (rates_of g) × (1 ≤ f.held.form.rank.0) }
    ensures result_value { signed_of result ≡ Def.earliest (curve_lent f.entry) (rates_of g) }
    ensures small { Small large result }
{
    extreme(u64::min, f, Rate::of(g), Ticks(0), f.held.form.rank.0)
}

// With no tick below the rank the last list is empty, and N is 0.
#[tactic(auto, using(crate::specs::Reach::convolution_none, crate::specs::Reach::convolution_some), unfolding(minplus::specs::Horizon::convolution_n))]
fn convolution_n(f: Lent, g: Lent) -> u64
    requires { Slower (curve_lent f) (curve_lent g) }
    ensures { result ≡ Def.convolution_n (curve_lent f.entry) (curve_lent g.entry) }
{
    if f.held.form.rank.0 == 0 {
        return 0;
    }
    let a = turning(u64::max, f).increased(begun(f.held.form, g));
    let b = turning(u64::min, g).increased(earliest(f, g.held.form));
    crossing(f.held.form, g.held.form, a, b)
}

#[tactic(auto, unfolding(crate::specs::Reach::crossing_n))]
fn crossing_n(operation: Operation, f: Lent, g: Lent) -> u64
    requires { Slower (curve_lent f) (curve_lent g) }
    ensures { result ≡ crossing_n (operation_of operation) (curve_lent f.entry) (curve_lent g.entry) }
{
    match operation {
        Operation::Sum => 0,
        Operation::Minimum => {
            crossing(
                f.held.form,
                g.held.form,
                turning(u64::max, f),
                turning(u64::min, g),
            )
        }
        Operation::Convolution => convolution_n(f, g),
    }
}

// N, with the two swapped if g is slower.
#[tactic(auto, using(crate::specs::Reach::rates_left, crate::specs::Reach::rates_right, crate::specs::Reach::rates_even))]
pub(crate) fn n_by_rates(operation: Operation, f: Lent, g: Lent) -> u64
    ensures { result ≡ Def.by_rates (curve_lent f.entry) (curve_lent g.entry) 0 (crossing_n (operation_of operation)) }
{
    if slower(f.held.form, g.held.form) {
        return crossing_n(operation, f, g);
    }
    if slower(g.held.form, f.held.form) {
        return crossing_n(operation, g, f);
    }
    0
}
