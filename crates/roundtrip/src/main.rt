// Both directions of the round trip on the books of data/, which are those of books/. Standard input names them, a line
// each. The curves and claims of a sound book are written again, and what was written is read again.
#![tactic(auto)]

use book::Book;
use book::whole::read;
use curve::Curve;
use field::{Refused, State};
use input::{read_file, read_full};
use lines::is_case;
use std::io;
use std::rt::Files;

mod comparing;
mod fields;
mod writing;

use crate::comparing::{fill, other_byte, other_field};
use crate::writing::write;

// One byte more than a book may have: of a longer one no more is read, and it is refused for its length all the same.
const ROOM: usize = Book::MAX_BYTES + 1;

// The largest sound book: version, curves of 256 values, claims with an X, end.
const MOST_BYTES: usize = 4
    + State::MAX_CURVES * (11 + 4 * Curve::MAX_LISTED)
    + State::MAX_CLAIMS * 10
    + 3;

// What standard input has room for.
const INPUT: usize = 65_536;

fn refused(rt: &impl Print, refused: Refused) -> io::Result<()> {
    print!(rt;
        " refused {} at {}",
        refused.refusal.number(),
        refused.place
    )
}

// Where it differs, or that it is the same.
fn differs(rt: &impl Print, words: &str, place: Option<usize>) -> io::Result<()> {
    match place {
        Some(place) => print!(rt; " differs at {words}{place}"),
        None => print!(rt; " same"),
    }
}

fn read_back(rt: &impl Print, bytes: &[u8], book: &Book, written: &[u8]) -> io::Result<()> {
    print!(rt; " read back")?;
    match read(written) {
        Ok(again) => {
            print!(rt; " {} curves {} claims", again.curves, again.claims)?;
            differs(rt, "field ", other_field(bytes, book, written, &again))
        }
        Err(reason) => refused(rt, reason),
    }
}

fn compare(
    rt: &impl Print,
    bytes: &[u8],
    book: &Book,
    out: &[u8],
    length: usize,
) -> io::Result<()> {
    print!(rt; " written {length}")?;
    if length != bytes.len() {
        print!(rt; " of {}", bytes.len())?;
    }
    differs(rt, "", other_byte(bytes, out))?;
    // Never more than the buffer has.
    read_back(rt, bytes, book, out.get(..length).unwrap_or(out))
}

fn write_again(rt: &impl Print, bytes: &[u8], book: &Book, out: &mut [u8]) -> io::Result<()> {
    fill(bytes, out);
    match write(bytes, book, out) {
        Ok(length) => compare(rt, bytes, book, out, length),
        Err(stopped) => print!(rt;
            " call {} refused {}",
            stopped.call,
            stopped.refusal.number()
        ),
    }
}

fn answer(rt: &impl Print, bytes: &[u8]) -> io::Result<()> {
    match read(bytes) {
        Ok(book) => write_again(rt, bytes, &book, &mut [0; MOST_BYTES]),
        Err(reason) => refused(rt, reason),
    }
}

// The room that a file is read into is the run's: one made for each line would cost a line that names no file a third
// more.
fn case(rt: &(impl Files + Print), name: &[u8], room: &mut [u8]) -> io::Result<()> {
    rt.write_all(name)?;
    match read_file(rt, name, room)? {
        Some(n) => answer(rt, &room[..n])?,
        None => print!(rt; " missing")?,
    }
    println!(rt)
}

fn main(rt: HostRuntime) -> io::Result<()> {
    let mut input = [0u8; INPUT];
    let n = read_full(&mut rt.stdin(), &mut input)?;
    let mut room = [0; ROOM];
    for line in input[..n].split(|byte| *byte == b'\n') {
        if is_case(line) {
            case(&rt, line, &mut room)?;
        }
    }
    Ok(())
}
