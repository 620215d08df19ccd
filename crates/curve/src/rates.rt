// Which of two curves is the slower one.
ghost use Rattle.std.specs.Prelude.{◌≡◌};
ghost use Rattle.minplus.specs.Horizon as Def;
ghost use Rattle.curve.specs.Held.{rates_of};

use crate::Form;

// Rates are compared by cross products: a division would take 1/2 and 2/3 for the same. No rise is looked at.
pub fn slower(f: Form, g: Form) -> bool
    ensures { result ≡ Def.slower (rates_of f) (rates_of g) }
{
    (f.increment as u64 * g.period.0 as u64) < g.increment as u64 * f.period.0 as u64
}
