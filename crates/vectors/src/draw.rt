// The tree on one line, read from the block's words as docs/BLOCK.md lays them out: a leaf is TAG=TOTAL, a branching [LENGTH STORED BYTE:child ..].
// A word outside the block reads as 0, so nothing need be known of the words.
ghost use Rattle.std.specs.Prelude.{◌≤◌, ◌<◌, ◌^◌};

use super::memory::Directory;
use super::say::Hex;
use frames::block::Block;
use frames::{form, frame, kind};
use records::header;
use std::io;
use std::io::Write;

// Where the stored bytes of a prefix begin.
const STORED: usize = 3;

// What a drawing tells of a branching: its prefix, with that its kind and its number of children, or with these the slots too.
#[derive(Clone, Copy)]
pub enum Told {
    Prefixes,
    Kinds,
    Slots,
}

// A record: its kind, and the words from its first on.
#[derive(Clone, Copy)]
struct Record<'a> {
    kind: u32,
    words: &'a [u32],
}

// Where the body of an inner record begins.
fn body() -> usize
    ensures { result < 2 ^ 34 }
{
    form::header_of(form::FORMS[0])
}

// The words from the record on that a reference names; none where no pool has it.
fn words_from(directory: &Directory, reference: u32) -> &[u32] {
    match Block::try_new(&directory.words, &directory.keys) {
        Ok(block) if block.has(reference) => {
            block.words.get(block.start_at(reference)..).unwrap_or(&[])
        }
        _ => &[],
    }
}

impl<'a> Record<'a> {
    fn at(directory: &'a Directory, reference: u32) -> Record<'a> {
        Record {
            kind: reference % 8,
            words: words_from(directory, reference),
        }
    }

    // Word i, 0 past the end.
    fn word(&self, i: usize) -> u32 {
        self.words.get(i).copied().unwrap_or(0)
    }

    // Whether the record is in use. Where it is free, its word 0 is 0; an inner record has its kind there, and a leaf 1.
    fn is_used(&self) -> bool {
        self.word(header::KIND) != 0
    }

    // The stored bytes of a prefix, 0 past its end.
    fn stored(&self) -> [u8; 8] {
        let mut stored = [0; 8];
        for (i, byte) in stored.iter_mut().enumerate() {
            *byte = (self.word(STORED + i) % 256) as u8;
        }
        stored
    }

    // How many places for children the record has: kinds 1 and 2 one for each child, the others one for each byte.
    fn places(&self) -> u32 {
        match self.kind {
            0 => 0,
            1 | 2 => kind::row_of(self.kind).children,
            _ => kind::BYTES as u32,
        }
    }

    // What the body has at place i: the byte of kinds 1 and 2, the slot of kind 3, which are numbered from 1, and the reference of kind 4.
    fn at_place(&self, i: u32) -> u32 {
        self.word(body() + i as usize)
    }

    // The reference in a slot of kind 3, after a number for each byte.
    fn in_slot(&self, slot: u32) -> u32 {
        match slot {
            0 => 0,
            _ => self.word(body() + kind::SLOT_ZERO + slot as usize),
        }
    }

    // The reference to the child at place i, 0 for none.
    fn child(&self, i: u32) -> u32 {
        match self.kind {
            1 | 2 => self.word(body() + self.places() as usize + i as usize),
            3 => self.in_slot(self.at_place(i)),
            _ => self.at_place(i),
        }
    }
}

// How many records of a kind are in use.
fn in_use(directory: &Directory, kind: u32) -> usize
    requires { kind ≤ 5 }
    ensures { result ≤ 4096 }
{
    let room = frame::trailer_word(&directory.words, kind as usize + 5) as usize % 4097;
    (0..room)
        .filter(|&i| Record::at(directory, frame::reference_to(kind, i)).is_used())
        .count()
}

// The check's answer for a sound block: how many leaves and how many inner records are in use.
pub fn used<W: Write>(out: &mut W, directory: &Directory) -> io::Result<()> {
    let leaves = in_use(directory, frame::LEAF);
    let small = in_use(directory, 1) + in_use(directory, 2);
    let large = in_use(directory, 3) + in_use(directory, 4);
    write!(out, "0 leaves {leaves} inner {}", small + large)
}

// A drawing: of what, and what it tells.
#[derive(Clone, Copy)]
struct Drawing<'a> {
    directory: &'a Directory,
    told: Told,
}

impl Drawing<'_> {
    // A branching up to its first child.
    fn say_head<W: Write>(&self, out: &mut W, record: Record<'_>) -> io::Result<()> {
        let length = record.word(header::FULL);
        match self.told {
            Told::Prefixes => write!(out, "[{length} ")?,
            Told::Kinds | Told::Slots => {
                let kind = record.word(header::KIND);
                let children = record.word(header::CHILDREN);
                write!(out, "[k{kind} n{children} {length} ")?
            }
        }
        let stored = record.stored();
        write!(out, "{}", Hex(&stored[..length.min(8) as usize]))
    }

    // The byte of the child at place i, and its slot where that is told, from 0 as the crate numbers them.
    fn say_byte<W: Write>(&self, out: &mut W, record: Record<'_>, i: u32) -> io::Result<()> {
        let found = record.at_place(i);
        match (record.kind, self.told) {
            (1 | 2, _) => write!(out, " {:02x}:", found % 256),
            (3, Told::Slots) if 0 < found => write!(out, " {i:02x}@{}:", found - 1),
            _ => write!(out, " {i:02x}:"),
        }
    }

    // The tree below a reference, down to so many records; 0 draws nothing.
    fn draw<W: Write>(&self, out: &mut W, left: u32, reference: u32) -> io::Result<()> {
        if left == 0 {
            return Ok(());
        }
        if reference % 8 == frame::LEAF {
            return write!(out, "{}", self.directory.leaf(reference / 8));
        }
        let record = Record::at(self.directory, reference);
        self.say_head(out, record)?;
        for i in 0..record.places() {
            let child = record.child(i);
            if child != 0 {
                self.say_byte(out, record, i)?;
                self.draw(out, left - 1, child)?;
            }
        }
        write!(out, "]")
    }
}

// The whole tree, told as this command asks: at most 64 branchings on a path, and a leaf.
pub fn tree<W: Write>(out: &mut W, directory: &Directory, told: Told) -> io::Result<()> {
    let root = frame::trailer_word(&directory.words, frame::ROOT);
    if root == 0 {
        return write!(out, "nothing");
    }
    Drawing { directory, told }.draw(out, 65, root)
}
