// A writer's state as one number, since C keeps it between calls: bytes written (16 bits), claims (16), curves (8),
// version (7), closed (1).
ghost use Rattle.std.specs.Prelude.{◌≡◌};
ghost use Rattle.zurmakida.specs.States.{takes_nothing, state_of, writer_of, answered};

use crate::BookCall;
use book::Book;
use content::Refusal;
use field::State;
use writer::Writer;

// What one claim, one curve, one version and being closed count for in it.
const CLAIM: u64 = 65_536;

const CURVE: u64 = 4_294_967_296;

const VERSION: u64 = 1_099_511_627_776;

const CLOSED: u64 = 140_737_488_355_328;

// Closed, or no writer's state, since it has a higher bit or more bytes than a book.
#[tactic(auto, unfolding(crate::specs::States::takes_nothing))]
fn takes_nothing(state: u64) -> bool
    ensures { result ≡ takes_nothing state }
{
    Book::MAX_BYTES < (state % CLAIM) as usize || CLOSED <= state
}

#[tactic(auto, unfolding(crate::specs::States::writer_of))]
pub(crate) fn writer_of(state: u64) -> Writer
    ensures { result ≡ writer_of state }
{
    Writer {
        state: State {
            version: (state / VERSION % 128) as u8,
            curves: (state / CURVE % 256) as usize,
            claims: (state / CLAIM % 65_536) as usize,
            place: (state % CLAIM) as usize,
        },
        closed: takes_nothing(state),
    }
}

#[tactic(auto, unfolding(crate::specs::States::state_of))]
fn state_of(writer: Writer) -> u64
    ensures { result ≡ state_of writer }
{
    let state = writer.state;
    let place = state.place as u64 % CLAIM;
    let claims = state.claims as u64 % 65_536;
    let curves = state.curves as u64 % 256;
    let version = state.version as u64 % 128;
    let open = place + CLAIM * claims + CURVE * curves + VERSION * version;
    if writer.closed { open + CLOSED } else { open }
}

// A refused call gives the state back as it came.
#[tactic(auto, unfolding(crate::specs::States::answered))]
pub(crate) fn answered(state: u64, answer: Result<(), Refusal>, writer: Writer) -> BookCall
    ensures { result ≡ answered state (record { checked = answer; writer = writer }) }
{
    match answer {
        Err(refusal) => BookCall {
            refusal: refusal.number() as u64,
            state,
        },
        Ok(()) => BookCall {
            refusal: 0,
            state: state_of(writer),
        },
    }
}
