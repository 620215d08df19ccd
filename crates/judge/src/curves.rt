// The curves of a sound book, decoded once, each in its place. They are lent to whatever judges a claim.
ghost use Rattle.std.specs.Prelude.{◌≤◌, length};
ghost use Rattle.field.specs.Steps.{max_curves};
ghost use Rattle.judge.specs.Kept.{Kept};

use book::Places;
use curve::{Curve, Form, Ticks};
use field::places::curve_at;

// What stands where no curve is kept.
pub(crate) const NONE: Curve = Curve {
    form: Form {
        rank: Ticks(0),
        period: Ticks(0),
        increment: 0,
        first: 0,
    },
    rises: [0; Curve::MAX_LISTED],
};

pub(crate) fn keep_all(book: &[u8], places: &Places, curves: &mut [Curve])
    requires { length curves.old ≤ max_curves }
    ensures { Kept book.now places.now.curves curves.new (length curves.new) }
{
    for n in 0..curves.len() {
        curves[n] = curve_at(book, places.curves[n] as usize);
    }
}
