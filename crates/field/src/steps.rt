// One field: tag (1 byte), length (2), content.
ghost use Rattle.std.specs.Prelude.{◌≡◌, false, drop};
ghost use Rattle.field.specs.Fields.{content_of, content_at, version_in};
ghost use Rattle.field.specs.Steps.{version_fault, end_fault, content_fault, in_order, full, tagged_fault, after, at_place, step_at};

use crate::{Refused, State, Tag, Taken};
use content::Refusal;
use content::claims::claim_fault;
use content::curves::curve_fault;
use numbers::number;

// Tag and length.
const HEAD: usize = 3;

// What is left of some bytes from a place on: nothing where the place is past their end.
fn rest_of(bytes: &[u8], place: usize) -> &[u8]
    ensures { result.now ≡ drop place bytes.now }
{
    &bytes[place.min(bytes.len())..]
}

// The content of the field that some bytes begin with, as far as they have it.
fn content_of(rest: &[u8]) -> &[u8]
    ensures { result.now ≡ content_of rest.now }
{
    let length = number::<2>(rest, 1) as usize;
    let content = rest_of(rest, HEAD);
    &content[..length.min(content.len())]
}

pub(crate) fn content_at(book: &[u8], place: usize) -> &[u8]
    ensures { result.now ≡ content_at book.now place }
{
    content_of(rest_of(book, place))
}

#[tactic(auto, unfolding(crate::specs::Steps::version_fault))]
fn version_fault(content: &[u8]) -> Result<(), Refusal>
    ensures { result ≡ version_fault content.now }
{
    if content.len() != 1 || number::<1>(content, 0) != 1 {
        return Err(Refusal::WrongVersion);
    }
    Ok(())
}

#[tactic(auto, unfolding(crate::specs::Steps::end_fault))]
fn end_fault(content: &[u8], follow: usize) -> Result<(), Refusal>
    ensures { result ≡ end_fault content.now follow }
{
    if !content.is_empty() || 0 < follow {
        return Err(Refusal::WrongEnd);
    }
    Ok(())
}

#[tactic(auto, unfolding(crate::specs::Steps::content_fault))]
fn content_fault(tag: Tag, curves: usize, content: &[u8], follow: usize) -> Result<(), Refusal>
    ensures { result ≡ content_fault tag curves content.now follow }
{
    match tag {
        Tag::Version => version_fault(content),
        Tag::Curve => curve_fault(content),
        Tag::Claim => claim_fault(content, curves),
        Tag::End => end_fault(content, follow),
    }
}

// Before a version nothing else comes, after it no other; after a claim no curve.
#[tactic(auto, unfolding(crate::specs::Steps::in_order))]
pub fn in_order(tag: Tag, version: u8, claims: usize) -> bool
    ensures { result ≡ in_order tag version claims }
{
    match tag {
        Tag::Version => version == 0,
        Tag::Curve => version != 0 && claims == 0,
        Tag::Claim | Tag::End => version != 0,
    }
}

// No more fields of this tag are taken.
#[tactic(auto, unfolding(crate::specs::Steps::full))]
pub fn full(tag: Tag, curves: usize, claims: usize) -> bool
    ensures { result ≡ full tag curves claims }
{
    match tag {
        Tag::Curve => State::MAX_CURVES <= curves,
        Tag::Claim => State::MAX_CLAIMS <= claims,
        Tag::Version | Tag::End => false,
    }
}

// A field whose tag is known. The rest of the book begins with it.
#[tactic(auto, unfolding(crate::specs::Steps::tagged_fault))]
fn tagged_fault(tag: Tag, state: State, rest: &[u8]) -> Result<(), Refusal>
    ensures { result ≡ tagged_fault tag state rest.now }
{
    if !in_order(tag, state.version, state.claims) {
        return Err(Refusal::OutOfOrder);
    }
    if full(tag, state.curves, state.claims) {
        return Err(Refusal::TooMany);
    }
    let size = HEAD + number::<2>(rest, 1) as usize;
    if rest.len() < size {
        return Err(Refusal::Torn);
    }
    content_fault(tag, state.curves, content_of(rest), rest.len() - size)
}

// The state after a field. Its content is looked at for a version alone.
#[tactic(auto, unfolding(crate::specs::Steps::after, crate::specs::Steps::full))]
fn after(tag: Tag, state: State, content: &[u8], place: usize) -> State
    requires { full tag state.curves state.claims ≡ false }
    ensures { result ≡ after tag state (version_in content.now) place }
{
    match tag {
        Tag::Version => State {
            version: number::<1>(content, 0) as u8,
            place,
            ..state
        },
        Tag::Curve => State {
            curves: state.curves + 1,
            place,
            ..state
        },
        Tag::Claim => State {
            claims: state.claims + 1,
            place,
            ..state
        },
        Tag::End => State { place, ..state },
    }
}

// The field at the state's place. A refusal does not say the place yet.
#[tactic(auto, unfolding(crate::specs::Steps::step_at))]
fn field_of(book: &[u8], state: State) -> Result<Taken, Refusal>
    ensures { at_place state.place result ≡ step_at book.now state }
{
    let Some(rest) = book.get(state.place..) else {
        return Err(Refusal::Torn);
    };
    if rest.len() < HEAD {
        return Err(Refusal::Torn);
    }
    let tag = Tag::try_from(number::<1>(rest, 0) as u8)?;
    tagged_fault(tag, state, rest)?;
    let place = state.place + HEAD + number::<2>(rest, 1) as usize;
    Ok(Taken {
        tag,
        state: after(tag, state, content_of(rest), place),
    })
}

// A bad field is refused at its first byte. Whoever reads a book calls this through a reader.
pub(crate) fn field_at(book: &[u8], state: State) -> Result<Taken, Refused>
    ensures { result ≡ step_at book.now state }
{
    field_of(book, state).map_err(|refusal| Refused {
        refusal,
        place: state.place,
    })
}
