// A curve's listed values, as a field or a caller has them: the rises from each to the next, and whether it falls where
// one period meets the next.
ghost use Rattle.std.specs.Prelude.{◌≡◌, ◌<◌, min, get_or, length};
ghost use Rattle.minplus.specs.Curve.{seam_holds};
ghost use Rattle.curve.specs.Filled.{over};
ghost use Rattle.curve.specs.Held.{form_over};
ghost use Rattle.curve.specs.Steps.{largest};
ghost use Rattle.curve.specs.Rises.{rise, rise_within, after_last, rises_over};

use crate::{Form, Ticks};

// 0 where there is none.
pub(crate) fn number_at(numbers: &[u32], at: usize) -> u32
    ensures { result ≡ get_or numbers.now at 0 }
{
    numbers.get(at).copied().unwrap_or(0)
}

// A number that needs more than 32 bits stands as their largest.
pub(crate) fn narrow(x: u64) -> u32
    ensures { result ≡ min x largest }
{
    u32::try_from(x).unwrap_or(u32::MAX)
}

// A fall is no rise, and stands as the largest number: no curve within the limits has such a rise. What comes after the
// last value may need more than 32 bits.
fn rise(before: u32, after: u64) -> u32
    ensures { result ≡ rise before after }
{
    match after.checked_sub(before as u64) {
        Some(rise) => narrow(rise),
        None => u32::MAX,
    }
}

// Each of the first `count` values, turned into the rise to the next one.
fn put_inner(values: &mut [u32], count: usize)
    requires { count < length values.old }
    ensures { values.new ≡ over (rise_within values.old) count values.old }
{
    for n in 0..count {
        values[n] = rise(values[n], values[n + 1] as u64);
    }
}

// What comes after the last of so many values that are held: f(T)+c after all T+d of them; one that is missing is 0.
fn after_last(rank: Ticks, period: Ticks, increment: u32, values: &[u32]) -> u64
    ensures { result ≡ after_last (record { rank = rank.0; period = period.0; increment = increment; listed = values.now }) }
{
    let t = rank.0 as usize;
    if values.len() < t + period.0 as usize {
        return 0;
    }
    number_at(values, t) as u64 + increment as u64
}

// Listed values, turned into the rises from each to the next, where they stand. What stands past T+d of them stays.
fn put_rises(rank: Ticks, period: Ticks, increment: u32, values: &mut [u32])
    ensures { values.new ≡ rises_over (record { rank = rank.0; period = period.0; increment = increment; listed = values.old }) }
{
    let held = values.len().min(rank.0 as usize + period.0 as usize);
    if held == 0 {
        return;
    }
    let after = after_last(rank, period, increment, values);
    let last = held - 1;
    put_inner(values, last);
    values[last] = rise(values[last], after);
}

// The form of listed values, which are turned into their rises where they stand.
pub fn hold(rank: Ticks, period: Ticks, increment: u32, values: &mut [u32]) -> Form
    ensures value { result ≡ form_over (record { rank = rank.0; period = period.0; increment = increment; listed = values.old }) }
    ensures values_after { values.new ≡ rises_over (record { rank = rank.0; period = period.0; increment = increment; listed = values.old }) }
{
    let first = number_at(values, 0);
    put_rises(rank, period, increment, values);
    Form {
        rank,
        period,
        increment,
        first,
    }
}

// f(T)+c, the first value of the next period, is not below f(T+d-1). The values before it are not looked at.
pub fn seam_holds(rank: Ticks, period: Ticks, increment: u32, values: &[u32]) -> bool
    ensures { result ≡ seam_holds (record { rank = rank.0; period = period.0; increment = increment; listed = values.now }) }
{
    let t = rank.0 as usize;
    let count = t + period.0 as usize;
    if count == 0 {
        return true;
    }
    let last = number_at(values, count - 1);
    last as u64 <= number_at(values, t) as u64 + increment as u64
}
