// The run over a book: a verdict on each claim, written as records into lent bytes, and the refusal or the totals as
// one number.
#![tactic(auto)]

ghost use Rattle.std.specs.Prelude.{◌≡◌};
ghost use Rattle.judge.specs.Run.{answer_of, buffer_of, outcome_of};

use book::whole::read;
use content::Refusal;
use field::Refused;

mod answers;
mod claims;
mod curves;
mod records;

use crate::records::run;

// How many claims were decided so.
#[derive(Clone, Copy)]
pub struct Totals {
    pub accepted: u64,
    pub refuted: u64,
    pub unjudged: u64,
}

impl Totals {
    // A record's bytes: code, tick (4), left value (8), right value (8), ticks tried (2).
    pub const RECORD: usize = 23;

    // The bit of an answer at which each total begins.
    pub const ACCEPTED_AT: u32 = 24;

    pub const REFUTED_AT: u32 = 36;

    pub const UNJUDGED_AT: u32 = 48;
}

// A refused book, or a buffer that has no room, leaves the buffer as it was.
fn judged(book: &[u8], verdicts: &mut [u8]) -> Result<Totals, Refused>
    ensures value { result ≡ outcome_of book.now verdicts.old }
    ensures verdicts_after { verdicts.new ≡ buffer_of book.now verdicts.old }
{
    let sound = read(book)?;
    if verdicts.len() < Totals::RECORD * sound.claims {
        return Err(Refused {
            refusal: Refusal::NoRoom,
            place: 0,
        });
    }
    Ok(run(book, &sound, verdicts))
}

// The answer is the refusal's number + 2^8 * its place, or else 2^24 * accepted + 2^36 * refuted + 2^48 * not judged. A
// refused book leaves the buffer as it was; of a sound one the records stand at the front, in the order of the claims.
pub fn judge(book: &[u8], verdicts: &mut [u8]) -> u64
    ensures value { result ≡ answer_of book.now verdicts.old }
    ensures verdicts_after { verdicts.new ≡ buffer_of book.now verdicts.old }
{
    match judged(book, verdicts) {
        Ok(totals) => totals.word(),
        Err(refused) => refused.word(),
    }
}
