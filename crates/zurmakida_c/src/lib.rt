// The entries for C, all in one archive, each the function of zurmakida with its name. include/zurmakida.h says what a
// caller has to know.
#![tactic(auto)]

ghost use Rattle.std.specs.Prelude.{◌≡◌};
ghost use Rattle.book.specs.Values.{value_asked, told};
ghost use Rattle.judge.specs.Run.{answer_of, buffer_of};
ghost use Rattle.writer.specs.Writing.{begin, add_curve, add_claim, close, called, written};
ghost use Rattle.zurmakida.specs.States.{writer_of, answered};

use book::CurveValue;
use zurmakida::BookCall;

#[unsafe(no_mangle)]
pub extern "C" fn judge(book: &[u8], verdicts: &mut [u8]) -> u64
    ensures value { result ≡ answer_of book.now verdicts.old }
    ensures verdicts_after { verdicts.new ≡ buffer_of book.now verdicts.old }
{
    zurmakida::judge(book, verdicts)
}

#[unsafe(no_mangle)]
pub extern "C" fn curve_value(book: &[u8], curve: u64, tick: u64) -> CurveValue
    ensures { result ≡ told (value_asked book.now curve tick) }
{
    zurmakida::curve_value(book, curve, tick)
}

#[unsafe(no_mangle)]
pub extern "C" fn book_begin(state: u64, book: &mut [u8]) -> BookCall
    ensures value { result ≡ answered state (called (begin 1) (writer_of state) book.old) }
    ensures book_after { book.new ≡ written (begin 1) (writer_of state) book.old }
{
    zurmakida::book_begin(state, book)
}

#[unsafe(no_mangle)]
pub extern "C" fn book_add_curve(
    state: u64,
    book: &mut [u8],
    rank: u64,
    period: u64,
    increment: u64,
    values: &[u32],
) -> BookCall
    ensures value { result ≡ answered state (called (add_curve (record { rank = rank; period = period; increment = increment; listed = values.now })) (writer_of state) book.old) }
    ensures book_after { book.new ≡ written (add_curve (record { rank = rank; period = period; increment = increment; listed = values.now })) (writer_of state) book.old }
{
    zurmakida::book_add_curve(state, book, rank, period, increment, values)
}

#[unsafe(no_mangle)]
pub extern "C" fn book_add_claim(
    state: u64,
    book: &mut [u8],
    kind: u64,
    left: u64,
    right: u64,
    third: u64,
) -> BookCall
    ensures value { result ≡ answered state (called (add_claim (record { kind = kind; left = left; right = right; third = third })) (writer_of state) book.old) }
    ensures book_after { book.new ≡ written (add_claim (record { kind = kind; left = left; right = right; third = third })) (writer_of state) book.old }
{
    zurmakida::book_add_claim(state, book, kind, left, right, third)
}

#[unsafe(no_mangle)]
pub extern "C" fn book_close(state: u64, book: &mut [u8]) -> BookCall
    ensures value { result ≡ answered state (called close (writer_of state) book.old) }
    ensures book_after { book.new ≡ written close (writer_of state) book.old }
{
    zurmakida::book_close(state, book)
}
