// How far a claim has to be looked at.
#![tactic(auto)]

ghost use Rattle.std.specs.Prelude.{◌≡◌, ◌+◌, ◌≤◌, max};
ghost use Rattle.minplus.specs.Claim.{equals};
ghost use Rattle.minplus.specs.Divisor.{lcm};
ghost use Rattle.minplus.specs.Horizon as Def;
ghost use Rattle.curve.specs.Held.{rates_of};
ghost use Rattle.curve.specs.Claimed.{claim_of, claim_over, operation_of};
ghost use Rattle.curve.specs.Lending.{curve_lent};
ghost use Rattle.horizon.specs.Capped.{capped, horizon_from};
ghost use Rattle.horizon.specs.Reach.{Limited, even_rank, horizon_answer};

use crate::crossing::n_by_rates;
use crate::divisor::common_multiple;
use curve::lent::Lent;
use curve::{Claim, Curve, Form, Operation, Ticks};
use limits::{IllFormed, well_formed_claim};

mod crossing;
mod divisor;

// 4,096, in as many bits as `Ticks` has.
pub(crate) const LIMIT: u32 = Claim::MAX_HORIZON as u32;

// The horizon one period on from a rank, both of any size. One above the limit has no number, so that none can be taken
// for it: common multiples stop counting.
#[tactic(auto, unfolding(crate::specs::Capped::horizon_from))]
fn horizon_from(rank: u32, period: u32) -> Option<Ticks>
    ensures { result ≡ horizon_from (rank + period) }
{
    let horizon = rank.checked_add(period)?;
    if horizon <= LIMIT {
        Some(Ticks(horizon))
    } else {
        None
    }
}

// D, as far as it is counted.
#[tactic(auto, unfolding(minplus::specs::Horizon::common_period))]
fn common_period(f: Form, g: Form) -> u32
    ensures { result ≡ capped (Def.common_period (rates_of f) (rates_of g)) }
{
    common_multiple(f.period.0, g.period.0)
}

// P, as far as it is counted, over a D that may have stopped counting.
fn full_period(period: u32, h: Form) -> u32
    ensures { result ≡ capped (lcm period h.period.0) }
{
    common_multiple(period, h.period.0)
}

// R with equal rates, from D.
#[tactic(auto, unfolding(crate::specs::Reach::even_rank))]
fn even_rank(operation: Operation, f: Form, g: Form, period: u32) -> u32
    requires { Limited (rates_of f) × Limited (rates_of g) × (period ≤ 4_097) }
    ensures { result ≡ even_rank (operation_of operation) f.rank.0 g.rank.0 period }
{
    match operation {
        Operation::Sum | Operation::Minimum => f.rank.0.max(g.rank.0),
        Operation::Convolution => f.rank.0 + g.rank.0 + period,
    }
}

// Kinds 1 to 3: K + P. N alone may need more than 32 bits; where it is above the limit, so is the horizon.
fn result_horizon(operation: Operation, f: Lent, g: Lent, h: Form) -> Option<Ticks>
    ensures { result ≡ horizon_from (Def.horizon (equals (operation_of operation) (curve_lent f.entry) (curve_lent g.entry) (rates_of h))) }
{
    let n = n_by_rates(operation, f, g);
    if (LIMIT as u64) < n {
        return None;
    }
    let period = common_period(f.held.form, g.held.form);
    let rank = even_rank(operation, f.held.form, g.held.form, period).max(n as u32);
    horizon_from(rank.max(h.rank.0), full_period(period, h))
}

// Kinds 4 to 7: max(T,T') + D.
#[tactic(auto, unfolding(crate::specs::Capped::horizon_from))]
fn bound_horizon(f: Form, g: Form) -> Option<Ticks>
    ensures { result ≡ horizon_from (max f.rank.0 g.rank.0 + Def.common_period (rates_of f) (rates_of g)) }
{
    horizon_from(f.rank.0.max(g.rank.0), common_period(f, g))
}

// Of curves that are lent and known to be well formed; none above the limit. Of the claimed one no value is looked at.
#[tactic(auto, unfolding(minplus::specs::Horizon::horizon, minplus::specs::Horizon::common_period))]
pub fn horizon_over(claim: Claim, f: Lent, g: Lent, h: Form) -> Option<Ticks>
    ensures { result ≡ horizon_from (Def.horizon (claim_over claim (curve_lent f.entry) (curve_lent g.entry) (rates_of h))) }
{
    match claim {
        Claim::Equals(operation) => result_horizon(operation, f, g, h),
        Claim::AtMost(_) | Claim::Exactly(_) => bound_horizon(f.held.form, g.held.form),
    }
}

// Of any claim. One that breaks a limit of document 01 has no horizon.
pub fn horizon_of(claim: Claim, f: &Curve, g: &Curve, h: &Curve) -> Result<Option<Ticks>, IllFormed>
    ensures { result ≡ horizon_answer (claim_of claim f.now g.now h.now) }
{
    if !well_formed_claim(claim, f, g, h) {
        return Err(IllFormed);
    }
    let f = Lent { held: f.held() };
    let g = Lent { held: g.held() };
    Ok(horizon_over(claim, f, g, h.form))
}
