// The steps that the program runs.
use std::fmt;

// The child that stood there before a new branching.
pub const OLD_BYTE: u8 = 104;

pub const OLD_REFERENCE: u32 = 5;

// A step: changes first, then questions. References are those of leaves, 8 × number + 5.
#[derive(Clone, Copy)]
pub enum Step {
    // a new branching of this kind: the child that stood there before, and this one
    New {
        kind: u32,
        byte: u8,
        reference: u32,
    },
    // so many children for the bytes from this one on, their references in a row too
    Add {
        count: u32,
        byte: u8,
        reference: u32,
    },
    // another reference for each of so many
    Replace {
        count: u32,
        byte: u8,
        reference: u32,
    },
    // so many taken out
    Remove {
        count: u32,
        byte: u8,
    },
    // another prefix: so many times this byte
    Prefix {
        count: u32,
        byte: u8,
    },
    // the record moved into this kind
    Move {
        kind: u32,
    },
    // asks for the reference for the byte
    Lookup(u8),
    Lowest,
    Highest,
    // asks for the first child at or after the byte
    From(u8),
}

impl fmt::Display for Step {
    // A step as it is asked; 104:5 is the child that stood there before.
    fn fmt<W: fmt::Write>(&self, f: &mut fmt::Formatter<W>) -> fmt::Result {
        match *self {
            Step::New {
                kind,
                byte,
                reference,
            } => write!(
                f,
                "new kind {kind} of {OLD_BYTE}:{OLD_REFERENCE} and {byte}:{reference}"
            ),
            Step::Add {
                count,
                byte,
                reference,
            } => write!(f, "add {byte}:{reference}{}", InRow(count)),
            Step::Replace {
                count,
                byte,
                reference,
            } => write!(f, "replace {byte}:{reference}{}", InRow(count)),
            Step::Remove { count, byte } => write!(f, "remove {byte}{}", InRow(count)),
            Step::Prefix { count, byte } => write!(f, "prefix of {byte}{}", InRow(count)),
            Step::Move { kind } => write!(f, "move to kind {kind}"),
            Step::Lookup(byte) => write!(f, "lookup {byte}"),
            Step::Lowest => write!(f, "lowest"),
            Step::Highest => write!(f, "highest"),
            Step::From(byte) => write!(f, "at or after {byte}"),
        }
    }
}

// How many in a row, where it is more than one.
#[derive(Clone, Copy)]
struct InRow(u32);

impl fmt::Display for InRow {
    fn fmt<W: fmt::Write>(&self, f: &mut fmt::Formatter<W>) -> fmt::Result {
        match self.0 {
            0 | 1 => Ok(()),
            count => write!(f, ", {count} in a row"),
        }
    }
}

// The steps in turn. Walked by reference, these 81 take the check no longer than two would.
pub const STEPS: [Step; 81] = [
    // kind 1: bytes ascending, four at most
    Step::New {
        kind: 1,
        byte: 97,
        reference: 13,
    },
    Step::Add {
        count: 1,
        byte: 255,
        reference: 21,
    },
    Step::Add {
        count: 1,
        byte: 100,
        reference: 29,
    },
    Step::Add {
        count: 1,
        byte: 0,
        reference: 37,
    },
    Step::Add {
        count: 1,
        byte: 97,
        reference: 37,
    },
    Step::Replace {
        count: 1,
        byte: 104,
        reference: 45,
    },
    Step::Replace {
        count: 1,
        byte: 105,
        reference: 45,
    },
    Step::Lookup(104),
    Step::Lookup(105),
    Step::Lowest,
    Step::Highest,
    Step::From(98),
    Step::From(255),
    Step::Remove {
        count: 1,
        byte: 255,
    },
    Step::Remove {
        count: 1,
        byte: 255,
    },
    Step::From(105),
    Step::Prefix {
        count: 10,
        byte: 120,
    },
    Step::Prefix {
        count: 2,
        byte: 121,
    },
    // kind 1 into kind 2, which takes sixteen
    Step::Add {
        count: 1,
        byte: 200,
        reference: 53,
    },
    Step::Move { kind: 2 },
    Step::Add {
        count: 12,
        byte: 0,
        reference: 101,
    },
    Step::Add {
        count: 1,
        byte: 50,
        reference: 61,
    },
    Step::Replace {
        count: 1,
        byte: 0,
        reference: 69,
    },
    Step::Remove { count: 1, byte: 97 },
    Step::Add {
        count: 1,
        byte: 50,
        reference: 77,
    },
    Step::Lookup(50),
    Step::Lowest,
    Step::Highest,
    Step::From(12),
    Step::From(201),
    Step::Move { kind: 1 },
    // kind 2 into kind 3: slots in byte order, then the new child
    Step::Move { kind: 3 },
    Step::Add {
        count: 1,
        byte: 12,
        reference: 85,
    },
    // kind 3: the lowest unused slot, and a hole where a child was
    Step::New {
        kind: 3,
        byte: 30,
        reference: 13,
    },
    Step::Add {
        count: 1,
        byte: 7,
        reference: 21,
    },
    Step::Remove { count: 1, byte: 30 },
    Step::Add {
        count: 1,
        byte: 150,
        reference: 29,
    },
    Step::Add {
        count: 1,
        byte: 200,
        reference: 37,
    },
    Step::Replace {
        count: 1,
        byte: 104,
        reference: 45,
    },
    Step::Prefix { count: 9, byte: 65 },
    Step::Lookup(150),
    Step::Lookup(30),
    Step::Lowest,
    Step::Highest,
    Step::From(8),
    Step::From(201),
    Step::Add {
        count: 44,
        byte: 40,
        reference: 101,
    },
    Step::Add {
        count: 1,
        byte: 0,
        reference: 53,
    },
    Step::Move { kind: 2 },
    // kind 3 into kind 4, by place
    Step::Move { kind: 4 },
    Step::Add {
        count: 1,
        byte: 0,
        reference: 53,
    },
    Step::Replace {
        count: 1,
        byte: 0,
        reference: 61,
    },
    Step::Lookup(0),
    Step::Lookup(1),
    Step::Lowest,
    Step::Highest,
    Step::From(84),
    Step::Move { kind: 3 },
    // and back: 4 into 3, 3 into 2, 2 into 1
    Step::Remove { count: 1, byte: 7 },
    Step::Move { kind: 3 },
    Step::Remove {
        count: 32,
        byte: 40,
    },
    Step::Add {
        count: 1,
        byte: 41,
        reference: 109,
    },
    Step::Remove { count: 1, byte: 41 },
    Step::Move { kind: 2 },
    Step::Remove {
        count: 12,
        byte: 72,
    },
    Step::Move { kind: 1 },
    Step::Remove {
        count: 1,
        byte: 150,
    },
    Step::Remove { count: 1, byte: 0 },
    Step::Remove {
        count: 1,
        byte: 200,
    },
    // kind 1 into kind 3
    Step::New {
        kind: 1,
        byte: 109,
        reference: 13,
    },
    Step::Add {
        count: 2,
        byte: 1,
        reference: 21,
    },
    Step::Move { kind: 3 },
    Step::Add {
        count: 1,
        byte: 0,
        reference: 37,
    },
    // kind 2 and kind 4 made new
    Step::New {
        kind: 2,
        byte: 200,
        reference: 13,
    },
    Step::Remove {
        count: 1,
        byte: 200,
    },
    Step::New {
        kind: 4,
        byte: 255,
        reference: 13,
    },
    Step::Add {
        count: 1,
        byte: 0,
        reference: 21,
    },
    Step::Remove {
        count: 1,
        byte: 104,
    },
    Step::Lowest,
    Step::Highest,
    Step::From(1),
];
