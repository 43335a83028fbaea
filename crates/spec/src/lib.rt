// The types that the definitions of specs/ and the code share: the refusals, the kinds of a capability, and what the operations answer.
// An operation answers a `Result` with the refusal for its error: Flag, Number and String with a value, or the count of the bytes that were
// written, if the capability is there; List, Flat, a batch, a finder, Send, Send at and its second half with the number of records, of
// answers, or of bytes, that were written.
// The types of positions are in position.rt, that of a finder's state in finder.rt.
#![tactic(auto)]

ghost use Rattle.std.specs.Prelude.{◌≡◌};
ghost use Rattle.spec.specs.Refusals.{refusal_number};
ghost use Rattle.spec.specs.Fields.{kind_number, kind_of};

pub mod finder;
pub mod position;

// A database of more bytes is refused with 3.
pub const MOST_BYTES: usize = 1048576;

// More files in one buffer are refused with 16.
pub const MOST_FILES: usize = 8;

// A database with more lines that are not ignored is not repaired: 14.
pub const MOST_LINES: usize = 4096;

// Why a call is refused. specs/Refusals gives each its number.
#[derive(Clone, Copy)]
pub enum Refusal {
    BadName,
    BadId,
    DatabaseTooLarge,
    UnknownName,
    LostLink,
    Malformed,
    Cycle,
    ChainTooLarge,
    NoRoom,
    UnknownSequence,
    TooFewParameters,
    OutOfRange,
    BadPadding,
    TooManyLines,
    PartialQuestion,
    BadEnds,
    InvalidState,
}

impl Refusal {
    // By this name in the documents, and `u8::from(refusal)` is no plainer than `refusal.number()`.
    pub fn number(self) -> u8
        ensures { result ≡ refusal_number self }
    {
        match self {
            Refusal::BadName => 1,
            Refusal::BadId => 2,
            Refusal::DatabaseTooLarge => 3,
            Refusal::UnknownName => 4,
            Refusal::LostLink => 5,
            Refusal::Malformed => 6,
            Refusal::Cycle => 7,
            Refusal::ChainTooLarge => 8,
            Refusal::NoRoom => 9,
            Refusal::UnknownSequence => 10,
            Refusal::TooFewParameters => 11,
            Refusal::OutOfRange => 12,
            Refusal::BadPadding => 13,
            Refusal::TooManyLines => 14,
            Refusal::PartialQuestion => 15,
            Refusal::BadEnds => 16,
            Refusal::InvalidState => 17,
        }
    }
}

// The kinds of a capability, and their numbers.
#[derive(Clone, Copy)]
pub enum Kind {
    Flag,
    Number,
    String,
}

impl Kind {
    pub const FLAG: u8 = 1;

    pub const NUMBER: u8 = 2;

    pub const STRING: u8 = 3;

    // By this name in the documents, as a refusal's; `u8::from(kind)` is no plainer.
    pub fn number(self) -> u8
        ensures { result ≡ kind_number self }
    {
        match self {
            Kind::Flag => Kind::FLAG,
            Kind::Number => Kind::NUMBER,
            Kind::String => Kind::STRING,
        }
    }

    // By this name in the documents; `TryFrom` is no plainer: it wants an error type, which would say nothing.
    pub fn from_number(n: u8) -> Option<Kind>
        ensures { result ≡ kind_of n }
    {
        match n {
            Kind::FLAG => Some(Kind::Flag),
            Kind::NUMBER => Some(Kind::Number),
            Kind::STRING => Some(Kind::String),
            _ => None,
        }
    }
}

// What Repair gives: the bytes of the mended database, and the number of records.
#[derive(Clone, Copy)]
pub struct Amounts {
    pub bytes: usize,
    pub records: usize,
}

// What goes between the two halves of Send at: the delay in tenths of a millisecond, before its star; the star; and the count of the
// finished bytes, which are at the start of the first half's buffer.
#[derive(Clone, Copy)]
pub struct Finished {
    pub delay: u32,
    pub star: bool,
    pub count: usize,
}

// What Show gives: the part of the database from a place up to a place.
#[derive(Clone, Copy)]
pub struct Part {
    pub from: usize,
    pub to: usize,
}

// What the search that counts gives: whether the name is found, and how many names had bytes compared.
#[derive(Clone, Copy)]
pub struct Tally {
    pub found: bool,
    pub compared: usize,
}

// A line of several files: the number of its file, from 0, and the place in it where it starts.
#[derive(Clone, Copy, PartialEq, Eq)]
pub struct Location {
    pub file: u8,
    pub at: usize,
}
