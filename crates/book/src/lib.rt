// A book, read: any bytes are a sound book or a refusal with its place.
#![tactic(auto)]

use field::State;

pub mod values;
pub mod whole;

// At which byte the field of each curve and of each claim begins, as far as a book has been read.
#[derive(Clone, Copy)]
pub struct Places {
    pub curves: [u16; State::MAX_CURVES],
    pub claims: [u16; State::MAX_CLAIMS],
}

// A sound book: how many curves and claims it has, and where they are.
#[derive(Clone, Copy)]
pub struct Book {
    pub version: u8,
    pub curves: usize,
    pub claims: usize,
    pub places: Places,
}

impl Book {
    pub const MAX_BYTES: usize = 32_768;

    // The largest tick at which a curve's value is asked.
    pub const MAX_TICK: u64 = 2_000_000_000;
}

// A curve's value for C, which has no `Result`: the refusal's number + 2^8 * its place, 0 where there is a value; and
// the value, 0 where there is none.
#[repr(C)]
#[derive(Clone, Copy)]
pub struct CurveValue {
    pub refusal: u64,
    pub value: u64,
}
