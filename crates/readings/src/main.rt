// The reader's answers on the books of data/. Standard input has the questions, a line each: a book's name; a name and
// a claim's number; a name, a curve's number and a tick.
#![tactic(auto)]

use book::Book;
use book::values::curve_value;
use book::whole::read;
use content::Stated;
use curve::{Claim, Deviation, Operation};
use field::Refused;
use field::places::claim_at;
use input::{read_file, read_full};
use lines::is_case;
use std::io;
use std::rt::Files;

// One byte more than a book may have: of a longer one no more is read, and it is refused for its length all the same.
const ROOM: usize = Book::MAX_BYTES + 1;

// What standard input has room for.
const INPUT: usize = 65_536;

fn refused(rt: &impl Print, refused: Refused) -> io::Result<()> {
    print!(rt;
        " refused {} at {}",
        refused.refusal.number(),
        refused.place
    )
}

fn reading(rt: &impl Print, bytes: &[u8]) -> io::Result<()> {
    match read(bytes) {
        Ok(book) => print!(rt;
            " sound version {} curves {} claims {}",
            book.version, book.curves, book.claims
        ),
        Err(reason) => refused(rt, reason),
    }
}

// Asked as C asks it: the refusal's number and place in one.
fn value(rt: &impl Print, bytes: &[u8], curve: u64, tick: u64) -> io::Result<()> {
    let answer = curve_value(bytes, curve, tick);
    if answer.refusal == 0 {
        return print!(rt; " value {}", answer.value);
    }
    print!(rt;
        " refused {} at {}",
        answer.refusal % 256,
        answer.refusal / 256
    )
}

// What is claimed; of kinds 4 to 7, X.
fn kind(rt: &impl Print, claim: Claim) -> io::Result<()> {
    match claim {
        Claim::Equals(Operation::Sum) => print!(rt; " sum"),
        Claim::Equals(Operation::Minimum) => print!(rt; " minimum"),
        Claim::Equals(Operation::Convolution) => print!(rt; " convolution"),
        Claim::AtMost(Deviation::Delay(x)) => print!(rt; " delay bound {}", x.0),
        Claim::AtMost(Deviation::Backlog(x)) => print!(rt; " backlog bound {}", x.0),
        Claim::Exactly(Deviation::Delay(x)) => print!(rt; " exact delay {}", x.0),
        Claim::Exactly(Deviation::Backlog(x)) => print!(rt; " exact backlog {}", x.0),
    }
}

fn stated(rt: &impl Print, stated: Stated) -> io::Result<()> {
    kind(rt, stated.claim)?;
    print!(rt;
        " left {} right {} claimed {}",
        stated.left, stated.right, stated.claimed
    )
}

fn claim(rt: &impl Print, bytes: &[u8], number: u64) -> io::Result<()> {
    let book = match read(bytes) {
        Ok(book) => book,
        Err(reason) => return refused(rt, reason),
    };
    let mut claims = book.places.claims.iter().take(book.claims);
    let Some(place) = claims.nth(number as usize) else {
        return print!(rt; " none");
    };
    let place = *place as usize;
    match claim_at(bytes, place, book.curves) {
        Ok(claim) => stated(rt, claim),
        Err(refusal) => refused(rt, Refused { refusal, place }),
    }
}

// The name ends at `name`. A line that ends there too asks for the reading, one with a number more for a claim.
fn answer(rt: &impl Print, question: &[u8], name: usize, bytes: &[u8]) -> io::Result<()> {
    if question.len() <= name {
        return reading(rt, bytes);
    }
    let first = lines::number_at(question, name);
    if question.len() <= first.next {
        return claim(rt, bytes, first.value);
    }
    let tick = lines::number_at(question, first.next);
    value(rt, bytes, first.value, tick.value)
}

// The room that a file is read into is the run's: one made for each line would cost a line that names no file a third
// more.
fn case(rt: &(impl Files + Print), question: &[u8], room: &mut [u8]) -> io::Result<()> {
    rt.write_all(question)?;
    let name = lines::find(question, 0, b' ');
    match read_file(rt, &question[..name], room)? {
        Some(n) => answer(rt, question, name, &room[..n])?,
        None => print!(rt; " missing")?,
    }
    println!(rt)
}

fn main(rt: HostRuntime) -> io::Result<()> {
    let mut input = [0u8; INPUT];
    let n = read_full(&mut rt.stdin(), &mut input)?;
    let mut room = [0; ROOM];
    for line in input[..n].split(|byte| *byte == b'\n') {
        if is_case(line) {
            case(&rt, line, &mut room)?;
        }
    }
    Ok(())
}
