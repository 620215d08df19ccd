// The whole book, field by field.
ghost use Rattle.std.specs.Prelude.{◌≡◌};
ghost use Rattle.book.specs.Reading.{read_book};
ghost use Rattle.book.specs.Held.{reading_of};

use crate::{Book, Places};
use content::Refusal;
use field::reader::step;
use field::{Refused, State, Tag};

// The places are noted where they stand: the book is put together at the end.
pub fn read(book: &[u8]) -> Result<Book, Refused>
    ensures { result ≡ reading_of (read_book book.now) }
{
    if Book::MAX_BYTES < book.len() {
        return Err(Refused {
            refusal: Refusal::BookTooLong,
            place: 0,
        });
    }
    let mut state = State {
        version: 0,
        curves: 0,
        claims: 0,
        place: 0,
    };
    let mut places = Places {
        curves: [0; State::MAX_CURVES],
        claims: [0; State::MAX_CLAIMS],
    };
    loop {
        let answer = step(book, state);
        // `?` would say the same: the documents name this form.
        let Ok(taken) = answer else {
            return Err(answer.unwrap_err());
        };
        match taken.tag {
            Tag::Version => {}
            Tag::Curve => places.curves[state.curves] = state.place as u16,
            Tag::Claim => places.claims[state.claims] = state.place as u16,
            Tag::End => {
                return Ok(Book {
                    version: state.version,
                    curves: state.curves,
                    claims: state.claims,
                    places,
                });
            }
        }
        state = taken.state;
    }
}
