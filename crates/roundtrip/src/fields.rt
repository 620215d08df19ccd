// A book's fields by number, from 0, in document 01's order. Call n of a writer writes field n.
use book::Book;
use content::{Refusal, Stated, Statement};
use curve::{Claim, Curve, Deviation, Operation};
use field::State;
use field::places::claim_at;

// Curves and claims with the place at which they begin.
#[derive(Clone, Copy)]
pub(crate) enum Field {
    Version,
    Curve(usize),
    Claim(usize),
    End,
}

pub(crate) const MOST_FIELDS: usize = State::MAX_CURVES + State::MAX_CLAIMS + 2;

// The end stands also for every field past it.
pub(crate) fn field_by(book: &Book, n: usize) -> Field {
    let Some(n) = n.checked_sub(1) else {
        return Field::Version;
    };
    let found = match n.checked_sub(book.curves) {
        None => book
            .places
            .curves
            .get(n)
            .map(|place| Field::Curve(*place as usize)),
        Some(k) if k < book.claims => {
            book.places
                .claims
                .get(k)
                .map(|place| Field::Claim(*place as usize))
        }
        Some(_) => None,
    };
    found.unwrap_or(Field::End)
}

// A curve's values at the first 256 ticks.
pub(crate) fn first_values(f: &Curve) -> [u32; Curve::MAX_LISTED] {
    let mut values = [0; Curve::MAX_LISTED];
    f.held().fill(&mut values);
    values
}

fn in_numbers(stated: Stated) -> Statement {
    let (kind, third) = match stated.claim {
        Claim::Equals(Operation::Sum) => (1, stated.claimed as u64),
        Claim::Equals(Operation::Minimum) => (2, stated.claimed as u64),
        Claim::Equals(Operation::Convolution) => (3, stated.claimed as u64),
        Claim::AtMost(Deviation::Delay(x)) => (4, x.0 as u64),
        Claim::Exactly(Deviation::Delay(x)) => (5, x.0 as u64),
        Claim::AtMost(Deviation::Backlog(x)) => (6, x.0),
        Claim::Exactly(Deviation::Backlog(x)) => (7, x.0),
    };
    Statement {
        kind,
        left: stated.left as u64,
        right: stated.right as u64,
        third,
    }
}

// The claim at a place of a book of so many curves.
pub(crate) fn statement_at(
    bytes: &[u8],
    place: usize,
    curves: usize,
) -> Result<Statement, Refusal> {
    let stated = claim_at(bytes, place, curves)?;
    Ok(in_numbers(stated))
}
