// What C calls, with a writer's state as one number. zurmakida_c exports it; include/zurmakida.h says what a caller has
// to know.
#![tactic(auto)]

ghost use Rattle.std.specs.Prelude.{◌≡◌};
ghost use Rattle.book.specs.Values.{value_asked, told};
ghost use Rattle.judge.specs.Run.{answer_of, buffer_of};
ghost use Rattle.writer.specs.Writing.{begin, add_curve, add_claim, close, called, written};
ghost use Rattle.zurmakida.specs.States.{writer_of, answered};

use book::{CurveValue, values};
use content::{Listed, Statement};

mod states;

use crate::states::{answered, writer_of};

// A call's answer: the refusal's number, 0 where the call is taken, and the writer's state after it.
#[repr(C)]
#[derive(Clone, Copy)]
pub struct BookCall {
    pub refusal: u64,
    pub state: u64,
}

pub fn judge(book: &[u8], verdicts: &mut [u8]) -> u64
    ensures value { result ≡ answer_of book.now verdicts.old }
    ensures verdicts_after { verdicts.new ≡ buffer_of book.now verdicts.old }
{
    judge::judge(book, verdicts)
}

pub fn curve_value(book: &[u8], curve: u64, tick: u64) -> CurveValue
    ensures { result ≡ told (value_asked book.now curve tick) }
{
    values::curve_value(book, curve, tick)
}

pub fn book_begin(state: u64, book: &mut [u8]) -> BookCall
    ensures value { result ≡ answered state (called (begin 1) (writer_of state) book.old) }
    ensures book_after { book.new ≡ written (begin 1) (writer_of state) book.old }
{
    let mut writer = writer_of(state);
    let answer = writer.begin(book);
    answered(state, answer, writer)
}

// C hands over the numbers one by one, here and in the next.
pub fn book_add_curve(
    state: u64,
    book: &mut [u8],
    rank: u64,
    period: u64,
    increment: u64,
    values: &[u32],
) -> BookCall
    ensures value { result ≡ answered state (called (add_curve (record { rank = rank; period = period; increment = increment; listed = values.now })) (writer_of state) book.old) }
    ensures book_after { book.new ≡ written (add_curve (record { rank = rank; period = period; increment = increment; listed = values.now })) (writer_of state) book.old }
{
    let mut writer = writer_of(state);
    let curve = Listed {
        rank,
        period,
        increment,
        values,
    };
    let answer = writer.add_curve(book, curve);
    answered(state, answer, writer)
}

pub fn book_add_claim(
    state: u64,
    book: &mut [u8],
    kind: u64,
    left: u64,
    right: u64,
    third: u64,
) -> BookCall
    ensures value { result ≡ answered state (called (add_claim (record { kind = kind; left = left; right = right; third = third })) (writer_of state) book.old) }
    ensures book_after { book.new ≡ written (add_claim (record { kind = kind; left = left; right = right; third = third })) (writer_of state) book.old }
{
    let mut writer = writer_of(state);
    let claim = Statement {
        kind,
        left,
        right,
        third,
    };
    let answer = writer.add_claim(book, claim);
    answered(state, answer, writer)
}

pub fn book_close(state: u64, book: &mut [u8]) -> BookCall
    ensures value { result ≡ answered state (called close (writer_of state) book.old) }
    ensures book_after { book.new ≡ written close (writer_of state) book.old }
{
    let mut writer = writer_of(state);
    let answer = writer.close(book);
    answered(state, answer, writer)
}
