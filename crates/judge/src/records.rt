// The records of a sound book, one after the other.
ghost use Rattle.std.specs.Prelude.{◌≡◌, ◌+◌, ◌≤◌, length};
ghost use Rattle.numbers.specs.Put.{put as put_at};
ghost use Rattle.verdict.specs.Given.{numbers_of};
ghost use Rattle.book.specs.Reading.{read_book};
ghost use Rattle.judge.specs.Answer.{record_size};
ghost use Rattle.judge.specs.Records.{record_bytes};
ghost use Rattle.judge.specs.Run.{totals_on, buffer_on};
ghost use Rattle.judge.specs.Held.{Runs};

use crate::Totals;
use crate::claims::decided_at;
use crate::curves::{NONE, keep_all};
use book::Book;
use field::State;
use numbers::put;
use splits::Work;
use verdict::Record;

fn put_record(out: &mut [u8], at: usize, told: Record)
    requires { at + record_size ≤ length out.old }
    ensures { out.new ≡ put_at out.old at (record_bytes (numbers_of told)) }
{
    put(out, at, 1, told.code.number() as u64);
    put(out, at + 1, 4, told.tick.0 as u64);
    put(out, at + 5, 8, told.left.0);
    put(out, at + 13, 8, told.right.0);
    put(out, at + 21, 2, told.tried.0 as u64);
}

pub(crate) fn run(book: &[u8], sound: &Book, verdicts: &mut [u8]) -> Totals
    requires { Runs book.now sound.now verdicts.old }
    ensures value { result ≡ totals_on book.now (read_book book.now) }
    ensures verdicts_after { verdicts.new ≡ buffer_on book.now verdicts.old (read_book book.now) }
{
    let mut kept = [NONE; State::MAX_CURVES];
    let curves = &mut kept[..sound.curves];
    keep_all(book, &sound.places, curves);
    let mut work = Work::new();
    let mut totals = Totals {
        accepted: 0,
        refuted: 0,
        unjudged: 0,
    };
    for k in 0..sound.claims {
        let place = sound.places.claims[k] as usize;
        let decided = decided_at(book, place, curves, &mut work);
        put_record(verdicts, Totals::RECORD * k, Record::from(decided));
        totals.count(decided.verdict);
    }
    totals
}
