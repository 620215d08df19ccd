// A book on standard input, document 01's lines on standard output.
#![tactic(auto)]

ghost use Rattle.std.specs.Prelude.{◌≡◌, length};
ghost use Rattle.numbers.specs.Put.{put};
ghost use Rattle.report.specs.Written.{IsPrefixLen};
ghost use Rattle.claimbook.specs.Answered.{text_for};

use book::Book;
use field::State;
use input::read_full;
use judge::{Totals, judge};
use report::report;
use std::io;

// One byte more than a book may have: of a longer one no more is read, and it is refused for its length all the same.
const BOOK: usize = Book::MAX_BYTES + 1;

const VERDICTS: usize = Totals::RECORD * State::MAX_CLAIMS;

// A line for each claim and two more.
const TEXT: usize = report::MAX_LINE * (State::MAX_CLAIMS + 2);

fn answered(book: &[u8], text: &mut [u8]) -> usize
    ensures prefix_len { IsPrefixLen result text.new }
    ensures value { result ≡ length (text_for (length text.old) book.now) }
    ensures text_after { text.new ≡ put text.old 0 (text_for (length text.old) book.now) }
{
    let mut verdicts = [0u8; VERDICTS];
    let answer = judge(book, &mut verdicts);
    report(answer, &verdicts, text)
}

fn main(rt: HostRuntime) -> io::Result<()> {
    let mut book = [0u8; BOOK];
    let length = read_full(&mut rt.stdin(), &mut book)?;
    let mut text = [0u8; TEXT];
    let written = answered(&book[..length], &mut text);
    rt.write_all(&text[..written])
}
