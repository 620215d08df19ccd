// One claim of a sound book, over the curves that are kept.
ghost use Rattle.std.specs.Prelude.{◌≡◌, length};
ghost use Rattle.verdict.specs.Given.{decided_of};
ghost use Rattle.content.specs.Refusals.{claim_field};
ghost use Rattle.field.specs.Fields.{content_at};
ghost use Rattle.judge.specs.Claims.{record_for};
ghost use Rattle.judge.specs.Kept.{ClaimReady, claim_kept};

use curve::Curve;
use curve::lent::Lent;
use field::places::claim_at;
use splits::Work;
use verdict::{Decided, untried, verdict_over};

// The verdict on the claim whose field is at `place`, in a book of these curves. Left and right are said to be the same
// where their numbers are: no curve is compared with another.
pub(crate) fn decided_at(book: &[u8], place: usize, curves: &[Curve], work: &mut Work) -> Decided
    requires { ClaimReady curves.now (claim_field (length curves.now) (content_at book.now place)) }
    ensures { decided_of result ≡ record_for (claim_kept curves.now (claim_field (length curves.now) (content_at book.now place))) }
{
    let Ok(stated) = claim_at(book, place, curves.len()) else {
        return untried();
    };
    let f = curves[stated.left].held();
    let g = curves[stated.right].held();
    let h = curves[stated.claimed].held();
    let left = Lent { held: f };
    let right = Lent { held: g };
    verdict_over(
        stated.claim,
        stated.left == stated.right,
        left,
        right,
        h,
        work,
    )
}
