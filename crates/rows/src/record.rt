// A record that obeys its rule, as it is asked and printed.
ghost use Rattle.std.specs.Prelude.{◌≡◌, ◌<◌, ◌-◌, IsTrue};
ghost use Rattle.std.specs.Iterator.{at_most};
ghost use Rattle.frames.specs.Kind.{children_of};
ghost use Rattle.records.specs.Words.{child_count};
ghost use Rattle.records.specs.Own.{InnerFits, child_at};
ghost use Rattle.edits.specs.Change.{Needs};

use edits::representation::Change;
use frames::form::Form;
use frames::{form, kind};
use records::{header, representation};
use std::fmt;

// The words of a record, of which form and kind.
#[derive(Clone, Copy)]
pub struct Record<'a> {
    pub form: Form,
    pub kind: u32,
    pub words: &'a [u32],
    ghost fits: { InnerFits form kind words.now },
}

impl<'a> Record<'a> {
    // The reference for a byte, 0 where there is none.
    pub fn lookup(&self, byte: u8) -> u32
        ensures { result ≡ child_at self.now.form self.now.kind self.now.words.now byte }
    {
        representation::lookup_child(self.form, self.words, self.kind, byte)
    }

    pub fn lowest(&self) -> Option<(u32, u32)> {
        representation::nth_child(self.form, self.words, self.kind, 0)
    }

    pub fn highest(&self) -> Option<(u32, u32)> {
        representation::last_child(self.form, self.words, self.kind)
    }

    // The first child at or after the byte.
    pub fn at_or_after(&self, byte: u8) -> Option<(u32, u32)> {
        representation::child_from(self.form, self.words, self.kind, byte as usize)
    }

    // All children, by their bytes.
    fn children(&self) -> Children<'a> {
        Children {
            record: *self,
            next: 0,
        }
    }

    // The slot number of a byte in a record of kind 3.
    fn slot(&self, byte: u32) -> Option<u32> {
        let slots = self.words.get(form::header_of(self.form)..)?;
        slots.get(byte as usize).copied()
    }

    // Whether a child may be changed so: a child more where there is room and none for the byte, another reference for a child, or a child less where two are left.
    pub fn takes(&self, byte: u8, change: Change) -> bool
        ensures { IsTrue result → Needs change (child_count self.now.words.now < children_of self.now.kind) (0 < child_at self.now.form self.now.kind self.now.words.now byte) }
    {
        let count = header::child_count(self.words);
        let now = self.lookup(byte);
        match change {
            Change::Add(reference) => {
                count < kind::row_of(self.kind).children && now == 0 && reference != 0
            }
            Change::Replace(reference) => now != 0 && reference != 0,
            Change::Remove => 2 < count && now != 0,
        }
    }
}

// The children of a record for the bytes from the next one on.
#[derive(Clone, Copy)]
struct Children<'a> {
    record: Record<'a>,
    next: u32,
}

impl Iterator for Children<'_> {
    type Item = (u32, u32);

    ghost remaining = { λ children. at_most (256 - children.next) };

    fn next(&mut self) -> Option<(u32, u32)> {
        let byte = u8::try_from(self.next).ok()?;
        let child = self.record.at_or_after(byte)?;
        // No clause says that the child's byte is at or after this one, so `max` sees that the walk goes on.
        self.next = self.next.max(child.0).saturating_add(1);
        Some(child)
    }
}

impl fmt::Display for Record<'_> {
    // Its kind, its prefix with the letters that are stored, how many children, and the row.
    fn fmt<W: fmt::Write>(&self, f: &mut fmt::Formatter<W>) -> fmt::Result {
        let run = header::prefix_at(self.form, self.words);
        write!(f, " -> kind {}, prefix {} ", self.kind, run.full.0)?;
        for letter in run
            .stored
            .iter()
            .take(prefix::stored_len(run.full).0 as usize)
        {
            write!(f, "{}", char::from((letter % 256) as u8))?;
        }
        write!(f, ", {} children:", header::child_count(self.words))?;
        for (byte, reference) in self.children() {
            write!(f, " {byte}:{reference}")?;
            if let (3, Some(slot)) = (self.kind, self.slot(byte)) {
                write!(f, "@{slot}")?;
            }
        }
        Ok(())
    }
}
