// Document 01's ground, its errors that look right and its edges, run: standard input has the cases, and each prints a
// line.
#![tactic(auto)]

use curve::{Claim, ClaimError, Curve, Ticks};
use horizon::horizon_of;
use input::read_full;
use limits::IllFormed;
use lines::is_case;
use std::io;
use verdict::{Record, verdict_on};

mod read;

// What standard input has room for.
const INPUT: usize = 65_536;

fn judge(rt: &impl Print, claim: Claim, f: &Curve, g: &Curve, h: &Curve) -> io::Result<()> {
    match horizon_of(claim, f, g, h) {
        Ok(Some(k)) => print!(rt; " horizon {}", k.0)?,
        Ok(None) => print!(rt; " horizon above")?,
        Err(IllFormed) => {}
    }
    match verdict_on(claim, f, g, h) {
        Ok(decided) => {
            let r = Record::from(decided);
            println!(rt;
                " record {} {} {} {} {}",
                r.code as u8, r.tick.0, r.left.0, r.right.0, r.tried.0
            )
        }
        Err(IllFormed) => println!(rt; " ill formed"),
    }
}

// Kind 0 asks for the left curve's value at tick X. A curve that the line lacks is read as one of period 0, which is
// ill-formed.
fn answer(rt: &impl Print, line: &[u8], kind: u64, x: u64) -> io::Result<()> {
    let left = read::past(line, 0, b'|');
    let right = read::past(line, left, b'|');
    let claimed = read::past(line, right, b'|');
    let f = read::curve_at(line, left);
    if kind == 0 {
        let value = f.held().value_at(Ticks(read::narrow(x)));
        return println!(rt; " value {}", value.0);
    }
    match Claim::new(kind, x) {
        Ok(claim) => judge(
            rt,
            claim,
            &f,
            &read::curve_at(line, right),
            &read::curve_at(line, claimed),
        ),
        Err(ClaimError::XTooLarge) => println!(rt; " ill formed"),
        Err(ClaimError::UnknownKind) => println!(rt; " unknown kind"),
    }
}

fn case(rt: &impl Print, line: &[u8]) -> io::Result<()> {
    let name = lines::find(line, 0, b' ');
    rt.write_all(&line[..name])?;
    let kind = lines::number_at(line, name);
    let x = lines::number_at(line, kind.next);
    answer(rt, line, kind.value, x.value)
}

fn main(rt: HostRuntime) -> io::Result<()> {
    let mut input = [0u8; INPUT];
    let n = read_full(&mut rt.stdin(), &mut input)?;
    for line in input[..n].split(|byte| *byte == b'\n') {
        if is_case(line) {
            case(&rt, line)?;
        }
    }
    Ok(())
}
