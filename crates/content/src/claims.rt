// A claim's content: kind, left, right (1 each), then h (1) for kinds 1 to 3 or X (4) for 4 to 7.
ghost use Rattle.std.specs.Prelude.{◌≡◌};
ghost use Rattle.numbers.specs.Numbers.{number_at};
ghost use Rattle.content.specs.Layout.{third_width};
ghost use Rattle.content.specs.Refusals.{statement_field, statement_fault, claim_field, claim_fault};
ghost use Rattle.content.specs.Claims.{named_id, claimed_by};

use crate::{Refusal, Stated, Statement};
use curve::{Claim, ClaimError};
use numbers::number;

// Where the ids stand. The third is h; X stands there too.
const LEFT: usize = 1;

const RIGHT: usize = 2;

const THIRD: usize = 3;

// How many bytes h or X has.
#[tactic(auto, unfolding(crate::specs::Layout::third_width))]
pub fn third_width(kind: u64) -> usize
    ensures { result ≡ third_width kind }
{
    if kind < 4 { 1 } else { 4 }
}

// The curve that an id names, of so many.
#[tactic(auto, unfolding(crate::specs::Claims::named_id))]
fn named(id: u64, curves: usize) -> Result<usize, Refusal>
    ensures { result ≡ named_id curves id }
{
    if curves as u64 <= id {
        return Err(Refusal::NoSuchCurve);
    }
    Ok(id as usize)
}

// The claimed curve of a claim that has one, else 0.
#[tactic(auto, unfolding(crate::specs::Claims::claimed_by))]
fn claimed(said: Claim, third: u64, curves: usize) -> Result<usize, Refusal>
    ensures { result ≡ claimed_by said curves third }
{
    match said {
        Claim::Equals(_) => named(third, curves),
        Claim::AtMost(_) | Claim::Exactly(_) => Ok(0),
    }
}

// The claim of such numbers, among so many curves. An id that names none is refused before an X that is too large.
#[tactic(auto, using(crate::specs::Claims::field_by_name), unfolding(crate::specs::Claims::field_named))]
pub fn statement(claim: Statement, curves: usize) -> Result<Stated, Refusal>
    ensures { result ≡ statement_field curves claim }
{
    match Claim::new(claim.kind, claim.third) {
        Ok(said) => Ok(Stated {
            claim: said,
            left: named(claim.left, curves)?,
            right: named(claim.right, curves)?,
            claimed: claimed(said, claim.third, curves)?,
        }),
        Err(ClaimError::UnknownKind) => Err(Refusal::WrongClaim),
        Err(ClaimError::XTooLarge) => {
            named(claim.left, curves)?;
            named(claim.right, curves)?;
            Err(Refusal::TooLarge)
        }
    }
}

// Why such numbers are refused.
#[tactic(auto, using(crate::specs::Claims::statement_no_value))]
pub fn statement_fault(claim: Statement, curves: usize) -> Result<(), Refusal>
    ensures { result ≡ statement_fault curves claim }
{
    statement(claim, curves)?;
    Ok(())
}

// h or X, as many bytes as it has.
#[tactic(auto, unfolding(crate::specs::Layout::third_width))]
fn third_in(content: &[u8], kind: u64) -> u64
    ensures { result ≡ number_at (third_width kind) content.now 3 }
{
    if kind < 4 {
        number::<1>(content, THIRD)
    } else {
        number::<4>(content, THIRD)
    }
}

// The claim of a content, among so many curves.
pub fn claim_in(content: &[u8], curves: usize) -> Result<Stated, Refusal>
    ensures { result ≡ claim_field curves content.now }
{
    let kind = number::<1>(content, 0);
    if content.len() != THIRD + third_width(kind) {
        return Err(Refusal::WrongClaim);
    }
    let claim = Statement {
        kind,
        left: number::<1>(content, LEFT),
        right: number::<1>(content, RIGHT),
        third: third_in(content, kind),
    };
    statement(claim, curves)
}

// Why a content is refused.
#[tactic(auto, using(crate::specs::Claims::claim_no_value))]
pub fn claim_fault(content: &[u8], curves: usize) -> Result<(), Refusal>
    ensures { result ≡ claim_fault curves content.now }
{
    claim_in(content, curves)?;
    Ok(())
}
