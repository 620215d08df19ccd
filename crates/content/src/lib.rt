// What stands in a field of a book: a curve or a claim, or why it is refused. The reader and the writer go by the same
// rules.
#![tactic(auto)]

ghost use Rattle.std.specs.Prelude.{◌≡◌};
ghost use Rattle.content.specs.Refusals.{number_of};

use curve::Claim;

pub mod claims;
pub mod curves;

// Why a book, or a question to it, is refused: document 01's numbers.
#[derive(Clone, Copy, PartialEq, Eq)]
pub enum Refusal {
    // fewer than 3 bytes are left, or the content runs past the book
    Torn = 1,
    UnknownTag = 2,
    OutOfOrder = 3,
    // a 17th curve or a 257th claim
    TooMany = 4,
    WrongVersion = 5,
    CurveLength = 6,
    // d = 0 or T+d > 256
    CurvePeriod = 7,
    TooManyUnits = 8,
    // in its list, or where one period meets the next
    CurveFalls = 9,
    // empty, of unknown kind or of the wrong length
    WrongClaim = 10,
    NoSuchCurve = 11,
    // X, or a tick that is asked for
    TooLarge = 12,
    // of a length other than 0, or with a byte after it
    WrongEnd = 13,
    // too few bytes in a lent buffer
    NoRoom = 14,
    BookTooLong = 15,
}

impl Refusal {
    // Document 01's number.
    #[tactic(auto, unfolding(crate::specs::Refusals::number_of))]
    pub fn number(self) -> u8
        ensures { result ≡ number_of self }
    {
        self as u8
    }
}

// A curve as it is listed, in numbers of any size.
#[derive(Clone, Copy)]
pub struct Listed<'a> {
    pub rank: u64,
    pub period: u64,
    pub increment: u64,
    pub values: &'a [u32],
}

// A claim as it is stated, in numbers of any size. The third is h for kinds 1 to 3 and X for 4 to 7.
#[derive(Clone, Copy, PartialEq, Eq)]
pub struct Statement {
    pub kind: u64,
    pub left: u64,
    pub right: u64,
    pub third: u64,
}

// A claim's field: what is said, of which curves. Kinds 4 to 7 have no claimed curve, and 0 stands there.
#[derive(Clone, Copy)]
pub struct Stated {
    pub claim: Claim,
    pub left: usize,
    pub right: usize,
    pub claimed: usize,
}
