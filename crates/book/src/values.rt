// A curve's value, asked of a book by curve number and tick.
ghost use Rattle.std.specs.Prelude.{◌≡◌};
ghost use Rattle.book.specs.Values.{value_asked, told};

use crate::whole::read;
use crate::{Book, CurveValue};
use content::Refusal;
use curve::{Ticks, Units};
use field::Refused;
use field::places::curve_at;

pub fn value_in(book: &[u8], curve: u64, tick: u64) -> Result<Units, Refused>
    ensures { result ≡ value_asked book.now curve tick }
{
    let sound = read(book)?;
    if sound.curves as u64 <= curve {
        return Err(Refused {
            refusal: Refusal::NoSuchCurve,
            place: 0,
        });
    }
    if Book::MAX_TICK < tick {
        return Err(Refused {
            refusal: Refusal::TooLarge,
            place: 0,
        });
    }
    let place = sound.places.curves[curve as usize];
    let f = curve_at(book, place as usize);
    Ok(f.held().value_at(Ticks(tick as u32)))
}

// The same for C.
pub fn curve_value(book: &[u8], curve: u64, tick: u64) -> CurveValue
    ensures { result ≡ told (value_asked book.now curve tick) }
{
    match value_in(book, curve, tick) {
        Ok(value) => CurveValue {
            refusal: 0,
            value: value.0,
        },
        Err(refused) => CurveValue {
            refusal: refused.word(),
            value: 0,
        },
    }
}
