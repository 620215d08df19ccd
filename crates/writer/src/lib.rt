// A book, written field by field into a lent buffer.
#![tactic(auto)]

ghost use Rattle.std.specs.Prelude.{◌≡◌};
ghost use Rattle.writer.specs.Writing.{fresh};

use field::State;

pub mod calls;
pub mod fields;

// Where a writer stands. The state is that of a reader of what is written so far: its place is where the next field
// goes.
#[derive(Clone, Copy)]
pub struct Writer {
    pub state: State,
    pub closed: bool,
}

impl Writer {
    // Before it has begun.
    pub fn new() -> Writer
        ensures { result ≡ fresh }
    {
        Writer {
            state: State {
                version: 0,
                curves: 0,
                claims: 0,
                place: 0,
            },
            closed: false,
        }
    }
}
