// One field of a book: a step over it, or why it is refused.
#![tactic(auto)]

ghost use Rattle.std.specs.Prelude.{◌≡◌, ◌%◌};
ghost use Rattle.field.specs.Fields.{tag_number, tag_by};
ghost use Rattle.field.specs.Steps.{refusal_word};

use content::Refusal;

pub mod places;
pub mod reader;
pub mod steps;

// The four fields, each with its number.
#[derive(Clone, Copy, PartialEq, Eq)]
pub enum Tag {
    Version = 0x10,
    Curve = 0x01,
    Claim = 0x02,
    End = 0x7F,
}

impl Tag {
    #[tactic(auto, unfolding(crate::specs::Fields::tag_number))]
    pub fn number(self) -> u8
        ensures { result ≡ tag_number self }
    {
        self as u8
    }
}

// What a field's first byte says.
impl TryFrom<u8> for Tag {
    type Error = Refusal;

    ghost try_from_gives = { λ byte tag. tag ≡ tag_by byte };

    #[tactic(auto, unfolding(crate::specs::Fields::tag_by))]
    fn try_from(byte: u8) -> Result<Tag, Refusal> {
        match byte {
            0x10 => Ok(Tag::Version),
            0x01 => Ok(Tag::Curve),
            0x02 => Ok(Tag::Claim),
            0x7F => Ok(Tag::End),
            _ => Err(Refusal::UnknownTag),
        }
    }
}

// Where a reader stands: what came before `place`, the first byte of the next field. No version is 0: that says that
// none has come yet.
#[derive(Clone, Copy, PartialEq, Eq)]
pub struct State {
    pub version: u8,
    pub curves: usize,
    pub claims: usize,
    pub place: usize,
}

impl State {
    pub const MAX_CURVES: usize = 16;

    pub const MAX_CLAIMS: usize = 256;
}

// A field that is taken: its tag, and the state after it.
#[derive(Clone, Copy)]
pub struct Taken {
    pub tag: Tag,
    pub state: State,
}

// A refusal with its place.
#[derive(Clone, Copy)]
pub struct Refused {
    pub refusal: Refusal,
    pub place: usize,
}

impl Refused {
    // Both as one number: the refusal's + 2^8 * the place. No place in a book needs more than 16 bits; of a larger one
    // the last 16 stand there.
    pub fn word(self) -> u64
        ensures { result ≡ refusal_word self.refusal (self.place % 65536) }
    {
        self.refusal.number() as u64 + 256 * (self.place as u64 % 65_536)
    }
}
