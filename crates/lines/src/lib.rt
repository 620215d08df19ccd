// The parts of a line of text, for the programs.
#![tactic(auto)]

ghost use Rattle.std.specs.Prelude.{◌≤◌, min, ◌≡◌, length};
ghost use Rattle.lines.specs.Parts.{Ends, is_case, place_from, with_digit, past_space, number_from};

// A number and the place after it.
#[derive(Clone, Copy)]
pub struct Number {
    pub value: u64,
    pub next: usize,
}

// Whether a line asks something: an empty one does not, nor one that begins with #.
pub fn is_case(line: &[u8]) -> bool
    ensures { result ≡ is_case line.now }
{
    match line {
        [] => false,
        [first, ..] => *first != b'#',
    }
}

// The place of a byte from `from` on, or the end, also where `from` is past it. The first two say what `&s[from..r]`
// and `&s[..r]` ask.
#[tactic(auto, using(crate::specs::Parts::place_laws))]
pub fn find(s: &[u8], from: usize, byte: u8) -> usize
    ensures lower_bound { min from (length s.now) ≤ result }
    ensures ends { Ends result s.now }
    ensures value { result ≡ place_from byte s.now from }
{
    for i in from..s.len() {
        if s[i] == byte {
            return i;
        }
    }
    s.len()
}

// One space may stand before a part.
pub fn past_space(s: &[u8], from: usize) -> usize
    ensures { result ≡ past_space s.now from }
{
    match s.get(from) {
        Some(b' ') => from + 1,
        _ => from,
    }
}

// What 64 bits don't hold becomes the largest number that they do.
fn with_digit(value: u64, digit: u8) -> u64
    ensures { result ≡ with_digit value digit }
{
    value.saturating_mul(10).saturating_add(u64::from(digit))
}

// 0 where no digit stands.
#[tactic(auto, using(crate::specs::Parts::number_laws))]
pub fn digits(s: &[u8], from: usize) -> Number
    ensures { result ≡ number_from 0 s.now from }
{
    let mut value = 0;
    let mut next = from;
    while let Some(c @ b'0'..=b'9') = s.get(next) {
        value = with_digit(value, *c - b'0');
        next += 1;
    }
    Number { value, next }
}

pub fn number_at(s: &[u8], from: usize) -> Number
    ensures { result ≡ number_from 0 s.now (past_space s.now from) }
{
    digits(s, past_space(s, from))
}
