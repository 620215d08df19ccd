// Whether a curve and a claim keep document 01's limits.
#![tactic(auto)]

ghost use Rattle.std.specs.Prelude.{◌≤◌, ◌≡◌};
ghost use Rattle.minplus.specs.Curve.{WellFormed};
ghost use Rattle.minplus.specs.Claim.{well_formed_claim, max_x};
ghost use Rattle.curve.specs.Held.{curve_of};
ghost use Rattle.curve.specs.Claimed.{claim_of, amount_of};
ghost use Rattle.limits.specs.Told.{Told};

use curve::{Claim, Curve, Deviation, Ticks};

// A curve or a claim that does not keep the limits: it is not looked at further.
#[derive(Clone, Copy, PartialEq, Eq)]
pub struct IllFormed;

// The values never fall, as no rise is below 0: the last listed one is the greatest.
fn well_formed(f: &Curve) -> bool
    ensures { Told (WellFormed (curve_of f.now)) result }
{
    let form = f.form;
    let count = form.rank.0 as u64 + form.period.0 as u64;
    if form.period.0 == 0 {
        return false;
    }
    if (Curve::MAX_LISTED as u64) < count {
        return false;
    }
    if Curve::MAX_UNITS < form.increment {
        return false;
    }
    let last = Ticks((count - 1) as u32);
    let held = f.held();
    let greatest = held.value_at(last);
    if (Curve::MAX_UNITS as u64) < greatest.0 {
        return false;
    }
    held.closes()
}

fn within(deviation: Deviation) -> bool
    ensures { Told (amount_of deviation ≤ max_x) result }
{
    match deviation {
        Deviation::Delay(x) => x.0 <= Claim::MAX_X,
        Deviation::Backlog(x) => x.0 <= Claim::MAX_X as u64,
    }
}

// Kinds 4 to 7 have no claimed curve: what stands in its place is not looked at.
pub fn well_formed_claim(claim: Claim, f: &Curve, g: &Curve, h: &Curve) -> bool
    ensures { result ≡ well_formed_claim (claim_of claim f.now g.now h.now) }
{
    if !well_formed(f) || !well_formed(g) {
        return false;
    }
    match claim {
        Claim::Equals(_) => well_formed(h),
        Claim::AtMost(deviation) | Claim::Exactly(deviation) => within(deviation),
    }
}
