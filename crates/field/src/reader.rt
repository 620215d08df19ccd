// The reader as a type of its own: it holds the lent book and its place, and steps field by field.
ghost use Rattle.std.specs.Prelude.{◌≡◌};
ghost use Rattle.field.specs.Steps.{step_at};

use crate::steps::field_at;
use crate::{Refused, State, Taken};

// Any bytes as a book, and any state: where the reader stands in it, and what came before.
#[derive(Clone, Copy)]
pub struct Reader<'a> {
    pub book: &'a [u8],
    pub state: State,
}

impl<'a> Reader<'a> {
    pub fn at(book: &'a [u8], state: State) -> Reader<'a>
        ensures { result ≡ record { book = book.entry; state = state } }
    {
        Reader { book, state }
    }

    // A step over the field at the reader's place: the covered field reader, called on what the reader holds.
    pub fn next(self) -> Result<Taken, Refused>
        ensures { result ≡ step_at self.entry.book.now self.entry.state }
    {
        field_at(self.book, self.state)
    }
}

// The same with the book and the state as they are. Whoever reads a book, in whatever way, goes by these steps.
pub fn step(book: &[u8], state: State) -> Result<Taken, Refused>
    ensures { result ≡ step_at book.now state }
{
    Reader::at(book, state).next()
}
