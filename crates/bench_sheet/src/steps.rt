// The steps that the program runs.
use std::fmt;

// The tags: as many As, and 63 As and a B; then some that are written as they are named.
#[derive(Clone, Copy)]
pub enum Tag {
    A64,
    A65, // one byte too long
    A63, // would begin a held tag
    Parting, // parts from the longest run at its last byte
    B, // held already
    BB, // a held tag begins it
    L14A, // for the edges of a total
    L14B,
}

// The As that the first three tags are cut from.
static RUN: [u8; 65] = [b'A'; 65];

// 63 As and a B.
static PARTING: [u8; 64] = *b"AAAAAAAAAAAAAAAAAAAAAAAAAAAAAAAAAAAAAAAAAAAAAAAAAAAAAAAAAAAAAAAB";

impl Tag {
    pub fn bytes(self) -> &'static [u8] {
        match self {
            Tag::A64 => &RUN[..64],
            Tag::A65 => &RUN,
            Tag::A63 => &RUN[..63],
            Tag::Parting => &PARTING,
            Tag::B => b"B",
            Tag::BB => b"BB",
            Tag::L14A => b"L14A",
            Tag::L14B => b"L14B",
        }
    }
}

// The name that a tag has in the lines.
impl fmt::Display for Tag {
    fn fmt<W: fmt::Write>(&self, f: &mut fmt::Formatter<W>) -> fmt::Result {
        f.write_str(match self {
            Tag::A64 => "64 bytes",
            Tag::A65 => "65 bytes",
            Tag::A63 => "63 bytes",
            Tag::Parting => "64 bytes, the last another",
            Tag::B => "B once more",
            Tag::BB => "BB",
            Tag::L14A => "L14A",
            Tag::L14B => "L14B",
        })
    }
}

// Whether the tags of one byte go in or out.
#[derive(Clone, Copy)]
pub enum Way {
    In,
    Out,
}

impl fmt::Display for Way {
    fn fmt<W: fmt::Write>(&self, f: &mut fmt::Formatter<W>) -> fmt::Result {
        f.write_str(match self {
            Way::In => "in",
            Way::Out => "out",
        })
    }
}

// What a step does: an insert has the total too, and All is about each tag of one byte.
#[derive(Clone, Copy)]
pub enum Step {
    Start,
    Check,
    Insert(Tag, u64),
    Delete(Tag),
    Search(Tag),
    All(Way),
}

pub const STEPS: [Step; 27] = [
    // the longest tag, and one byte too many
    Step::Start,
    Step::Insert(Tag::A64, 1),
    Step::Insert(Tag::A65, 2),
    Step::Insert(Tag::A63, 3),
    Step::Insert(Tag::Parting, 4),
    Step::Search(Tag::A64),
    Step::Search(Tag::A65),
    Step::Check,
    Step::Delete(Tag::A65),
    Step::Delete(Tag::A64),
    Step::Search(Tag::Parting),
    Step::Check,
    // the tags of one byte
    Step::Start,
    Step::All(Way::In),
    Step::Insert(Tag::B, 7),
    Step::Insert(Tag::BB, 8),
    Step::All(Way::Out),
    // the totals 0 and 2^64 - 1
    Step::Start,
    Step::Insert(Tag::L14A, 0),
    Step::Search(Tag::L14A),
    Step::Insert(Tag::L14A, u64::MAX),
    Step::Search(Tag::L14A),
    Step::Insert(Tag::L14A, 0),
    Step::Insert(Tag::L14B, u64::MAX),
    Step::Delete(Tag::L14A),
    Step::Delete(Tag::L14B),
    Step::Check,
];
