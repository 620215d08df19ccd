// What was written against the book: its bytes, and what is read from them.
use crate::fields::{Field, MOST_FIELDS, field_by, first_values, statement_at};
use book::Book;
use curve::Curve;
use field::places::curve_at;

// What stands in the buffer before it is written and, past the book's length, after.
const FILLING: u8 = 0xA5;

// Where the book itself has that byte, it is another one: so every byte that is not written shows.
fn filling(bytes: &[u8], n: usize) -> u8 {
    match bytes.get(n) {
        Some(&FILLING) => 0,
        _ => FILLING,
    }
}

pub(crate) fn fill(bytes: &[u8], out: &mut [u8]) {
    for (n, byte) in out.iter_mut().enumerate() {
        *byte = filling(bytes, n);
    }
}

fn due(bytes: &[u8], n: usize) -> u8 {
    bytes.get(n).copied().unwrap_or(FILLING)
}

// The first place of the buffer that has not the byte that is due there.
pub(crate) fn other_byte(bytes: &[u8], out: &[u8]) -> Option<usize> {
    (0..out.len()).find(|n| out[*n] != due(bytes, *n))
}

// The values at the first 256 ticks have all that are listed among them.
fn same_curve(f: &Curve, g: &Curve) -> bool {
    f.form == g.form && first_values(f) == first_values(g)
}

fn same_field(bytes: &[u8], book: &Book, written: &[u8], again: &Book, n: usize) -> bool {
    match (field_by(book, n), field_by(again, n)) {
        (Field::Version, Field::Version) => book.version == again.version,
        (Field::Curve(place), Field::Curve(other)) => {
            same_curve(&curve_at(bytes, place), &curve_at(written, other))
        }
        (Field::Claim(place), Field::Claim(other)) => {
            statement_at(bytes, place, book.curves) == statement_at(written, other, again.curves)
        }
        (Field::End, Field::End) => true,
        _ => false,
    }
}

// The first field that is not the same in both books, also where one has fewer.
pub(crate) fn other_field(
    bytes: &[u8],
    book: &Book,
    written: &[u8],
    again: &Book,
) -> Option<usize> {
    (0..MOST_FIELDS).find(|n| !same_field(bytes, book, written, again, *n))
}
