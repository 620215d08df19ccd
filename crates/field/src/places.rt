// The curve or the claim whose field begins at a place. The place is not looked at first: of a book that ends before
// the field does, what is missing reads as 0.
ghost use Rattle.std.specs.Prelude.{◌≡◌};
ghost use Rattle.curve.specs.Held.{holding, rises_into};
ghost use Rattle.content.specs.Layout.{curve_in};
ghost use Rattle.content.specs.Refusals.{claim_field};
ghost use Rattle.field.specs.Fields.{content_at};

use crate::steps::content_at;
use content::claims::claim_in;
use content::curves::curve_in;
use content::{Refusal, Stated};
use curve::{Curve, Form};

pub fn curve_at(book: &[u8], place: usize) -> Curve
    ensures { result ≡ holding (curve_in (content_at book.now place)) }
{
    curve_in(content_at(book, place))
}

// Its form, and its rises over the front of lent numbers.
pub fn curve_into(book: &[u8], place: usize, out: &mut [u32]) -> Form
    ensures value { result ≡ (holding (curve_in (content_at book.now place))).form }
    ensures out_after { out.new ≡ rises_into out.old (holding (curve_in (content_at book.now place))) }
{
    content::curves::curve_into(content_at(book, place), out)
}

// In a book of so many curves.
pub fn claim_at(book: &[u8], place: usize, curves: usize) -> Result<Stated, Refusal>
    ensures { result ≡ claim_field curves (content_at book.now place) }
{
    claim_in(content_at(book, place), curves)
}
