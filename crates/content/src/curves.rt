// A curve's content: T (2), d (2), c (4), then T+d values (4 each).
ghost use Rattle.std.specs.Prelude.{◌≡◌, ◌+◌, ◌*◌, ◌≤◌, min, length};
ghost use Rattle.minplus.specs.Curve.{max_listed};
ghost use Rattle.curve.specs.Filled.{filled};
ghost use Rattle.std.proofs.Math.Seq.{paste};
ghost use Rattle.curve.specs.Held.{holding, rises_into};
ghost use Rattle.content.specs.Layout.{listed_of, curve_head, value_in, whole_in, curve_in};
ghost use Rattle.content.specs.Refusals.{no_span, values_fit, values_rise, limit_fault, listed_fault, curve_fault};

use crate::{Listed, Refusal};
use curve::listed::{hold, seam_holds};
use curve::{Curve, Form, Ticks};
use numbers::number;

// How many bytes stand before the values.
const HEAD: usize = 8;

// d = 0 or T+d > 256, of numbers of any size.
#[tactic(auto, unfolding(crate::specs::Refusals::no_span))]
fn no_span(rank: u64, period: u64) -> bool
    ensures { result ≡ no_span rank period }
{
    period == 0 || (Curve::MAX_LISTED as u64) < rank.saturating_add(period)
}

// All values are looked at, whatever is found: a compiler compares several at once then.
fn values_fit(values: &[u32]) -> bool
    ensures { result ≡ values_fit values.now }
{
    let mut fit = true;
    for value in values {
        fit &= *value <= Curve::MAX_UNITS;
    }
    fit
}

// All of them here too, for the same reason.
fn values_rise(values: &[u32]) -> bool
    ensures { result ≡ values_rise values.now }
{
    let mut rise = true;
    for n in 1..values.len() {
        rise &= values[n - 1] <= values[n];
    }
    rise
}

// What is refused of an increment of any size and of a list.
fn limit_fault(rank: Ticks, period: Ticks, increment: u64, values: &[u32]) -> Result<(), Refusal>
    ensures { result ≡ limit_fault (record { rank = rank.0; period = period.0; increment = increment; listed = values.now }) }
{
    if (Curve::MAX_UNITS as u64) < increment || !values_fit(values) {
        return Err(Refusal::TooManyUnits);
    }
    if !values_rise(values) || !seam_holds(rank, period, increment as u32, values) {
        return Err(Refusal::CurveFalls);
    }
    Ok(())
}

// A curve of numbers of any size and of any list.
pub fn listed_fault(curve: Listed) -> Result<(), Refusal>
    ensures { result ≡ listed_fault (listed_of curve.entry) }
{
    let Listed {
        rank,
        period,
        increment,
        values,
    } = curve;
    if no_span(rank, period) {
        return Err(Refusal::CurvePeriod);
    }
    if values.len() != (rank + period) as usize {
        return Err(Refusal::CurveLength);
    }
    limit_fault(Ticks(rank as u32), Ticks(period as u32), increment, values)
}

// A value that is all there. Its four bytes alone are looked at, so that their number is not tested again.
fn listed_in(content: &[u8], n: usize) -> u32
    requires { curve_head + 4 * n + 4 ≤ length content.now }
    ensures { result ≡ value_in content.now n }
{
    let at = HEAD + 4 * n;
    number::<4>(&content[at..at + 4], 0) as u32
}

// How many of so many values are all there.
fn held_in(content: &[u8], count: usize) -> usize
    ensures { result ≡ min count (whole_in content.now) }
{
    count.min(content.len().saturating_sub(HEAD) / 4)
}

// The first `count` values of a content, in a working array that starts as 0. What is missing stays 0.
fn values_in(content: &[u8], count: usize) -> [u32; Curve::MAX_LISTED]
    requires { count ≤ max_listed }
    ensures { result ≡ filled (value_in content.now) max_listed count }
{
    let mut values = [0; Curve::MAX_LISTED];
    for n in 0..held_in(content, count) {
        values[n] = listed_in(content, n);
    }
    values
}

// The curve of a content, whatever bytes they are; of a sound one, the curve that it says.
pub fn curve_in(content: &[u8]) -> Curve
    ensures { result ≡ holding (curve_in content.now) }
{
    let rank = number::<2>(content, 0) as u32;
    let period = number::<2>(content, 2) as u32;
    let increment = number::<4>(content, 4) as u32;
    let count = (rank + period) as usize;
    let values = values_in(content, count.min(Curve::MAX_LISTED));
    Curve::new(Ticks(rank), Ticks(period), increment, values)
}

// So many numbers, over the front of others, as far as there is room.
fn put_front(from: &[u32], count: usize, out: &mut [u32])
    requires { count ≤ length from.now }
    ensures { out.new ≡ paste out.old 0 from.now (min count (length out.old)) }
{
    for n in 0..count.min(out.len()) {
        out[n] = from[n];
    }
}

// The same curve: its form, and those of its rises that count over the front of lent numbers.
pub fn curve_into(content: &[u8], out: &mut [u32]) -> Form
    ensures value { result ≡ (holding (curve_in content.now)).form }
    ensures out_after { out.new ≡ rises_into out.old (holding (curve_in content.now)) }
{
    let rank = number::<2>(content, 0) as u32;
    let period = number::<2>(content, 2) as u32;
    let increment = number::<4>(content, 4) as u32;
    let count = ((rank + period) as usize).min(Curve::MAX_LISTED);
    let mut values = values_in(content, count);
    let form = hold(Ticks(rank), Ticks(period), increment, &mut values);
    put_front(&values, count, out);
    form
}

pub fn curve_fault(content: &[u8]) -> Result<(), Refusal>
    ensures { result ≡ curve_fault content.now }
{
    if content.len() < HEAD {
        return Err(Refusal::CurveLength);
    }
    let rank = number::<2>(content, 0);
    let period = number::<2>(content, 2);
    if no_span(rank, period) {
        return Err(Refusal::CurvePeriod);
    }
    let count = (rank + period) as usize;
    if content.len() != HEAD + 4 * count {
        return Err(Refusal::CurveLength);
    }
    let increment = number::<4>(content, 4);
    let values = values_in(content, count);
    limit_fault(
        Ticks(rank as u32),
        Ticks(period as u32),
        increment,
        &values[..count],
    )
}
