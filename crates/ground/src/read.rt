// The parts of a case's line.
use curve::{Curve, Ticks};

// A value, how many times it is listed, and the place after it.
#[derive(Clone, Copy)]
struct Run {
    value: u32,
    times: u64,
    next: usize,
}

// The place after a byte, from `from` on, or the end.
pub(crate) fn past(s: &[u8], from: usize, byte: u8) -> usize {
    s.len().min(lines::find(s, from, byte) + 1)
}

// What 32 bits don't hold becomes the largest number that they do.
pub(crate) fn narrow(value: u64) -> u32 {
    u32::try_from(value).unwrap_or(u32::MAX)
}

// A value alone, or the value, * and how many times it is listed. 0 times where no digit stands.
fn run_at(s: &[u8], from: usize) -> Run {
    let start = lines::past_space(s, from);
    let first = lines::digits(s, start);
    let end = first.next;
    if end == start {
        return Run {
            value: 0,
            times: 0,
            next: end,
        };
    }
    let value = narrow(first.value);
    match s.get(end) {
        Some(b'*') => {
            let times = lines::digits(s, end + 1);
            Run {
                value,
                times: times.value,
                next: times.next,
            }
        }
        _ => Run {
            value,
            times: 1,
            next: end,
        },
    }
}

// Values past the 256th are not held.
fn values(s: &[u8], from: usize) -> [u32; Curve::MAX_LISTED] {
    let mut values = [0u32; Curve::MAX_LISTED];
    let mut listed = Run {
        value: 0,
        times: 0,
        next: from,
    };
    for value in values.iter_mut() {
        if listed.times == 0 {
            listed = run_at(s, listed.next);
        }
        if listed.times == 0 {
            break;
        }
        *value = listed.value;
        listed.times -= 1;
    }
    values
}

// T, d and c, a colon, and the values.
pub(crate) fn curve_at(line: &[u8], from: usize) -> Curve {
    let rank = lines::number_at(line, from);
    let period = lines::number_at(line, rank.next);
    let increment = lines::number_at(line, period.next);
    let values = values(line, past(line, increment.next, b':'));
    Curve::new(
        Ticks(narrow(rank.value)),
        Ticks(narrow(period.value)),
        narrow(increment.value),
        values,
    )
}
