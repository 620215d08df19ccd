// A book's curves and claims, written again.
use crate::fields::{Field, MOST_FIELDS, field_by, first_values, statement_at};
use book::Book;
use content::{Listed, Refusal};
use curve::Curve;
use field::places::curve_at;
use writer::Writer;

// The call that was refused, by the number of its field.
#[derive(Clone, Copy)]
pub(crate) struct Stopped {
    pub(crate) call: usize,
    pub(crate) refusal: Refusal,
}

fn add_curve(writer: &mut Writer, out: &mut [u8], f: &Curve) -> Result<(), Refusal> {
    let values = first_values(f);
    let rank = f.form.rank.0;
    let period = f.form.period.0;
    // A sound curve has no more values than there are.
    let count = rank as usize + period as usize;
    writer.add_curve(
        out,
        Listed {
            rank: rank as u64,
            period: period as u64,
            increment: f.form.increment as u64,
            values: values.get(..count).unwrap_or(&values),
        },
    )
}

fn add_field(
    writer: &mut Writer,
    bytes: &[u8],
    book: &Book,
    n: usize,
    out: &mut [u8],
) -> Result<(), Refusal> {
    match field_by(book, n) {
        Field::Version => writer.begin(out),
        Field::Curve(place) => add_curve(writer, out, &curve_at(bytes, place)),
        Field::Claim(place) => writer.add_claim(out, statement_at(bytes, place, book.curves)?),
        Field::End => writer.close(out),
    }
}

// How many bytes the closed book has.
pub(crate) fn write(bytes: &[u8], book: &Book, out: &mut [u8]) -> Result<usize, Stopped> {
    let mut writer = Writer::new();
    for call in 0..MOST_FIELDS {
        if writer.closed {
            break;
        }
        let added = add_field(&mut writer, bytes, book, call, out);
        added.map_err(|refusal| Stopped { call, refusal })?;
    }
    Ok(writer.state.place)
}
