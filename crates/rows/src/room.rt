// The room that a record stands in, and the changes of the record.
ghost use Rattle.std.specs.Prelude.{◌≡◌, take, IfSome};
ghost use Rattle.frames.specs.Form.{record_words};

use super::record::Record;
use super::steps::{OLD_BYTE, OLD_REFERENCE, Step};
use edits::representation as edit;
use edits::representation::Change;
use frames::form::Form;
use frames::{form, kind};
use prefix::Prefix;
use records::{header, representation};

// The room is as long as the longest record.
const WORDS: usize = 315;

// The form of the records.
fn form_one() -> Form
    ensures { (result.prefix ≡ 8) × (result.counts ≡ 0) }
{
    form::FORMS[0]
}

// A record stands at the front, where its kind is not 0.
#[derive(Clone, Copy)]
pub struct Room {
    words: [u32; WORDS],
}

impl Room {
    pub fn new() -> Self {
        Room { words: [0; WORDS] }
    }

    // The record that stands at the front; None where none does, or it breaks its rule.
    pub fn record(&self) -> Option<Record<'_>>
        ensures { IfSome result (λ r. r.words.now ≡ take (record_words r.form r.kind) self.now.words) }
    {
        let kind = self.words[0];
        if kind == 0 || 4 < kind {
            return None;
        }
        let form = form_one();
        let words = self.words.get(..form::record_words(form, kind))?;
        if !representation::inner_ok(form, words, kind) {
            return None;
        }
        Some(Record { form, kind, words })
    }

    // A record of this kind with this prefix and these children, at the front of the room; false where they do not fit.
    fn lay(&mut self, kind: u32, p: Prefix, places: [u32; 256]) -> bool {
        if kind == 0 || 4 < kind {
            return false;
        }
        if (kind::row_of(kind).children as usize) < lists::scan::count_nonzero(&places) {
            return false;
        }
        let form = form_one();
        let Some(words) = self.words.get_mut(..form::record_words(form, kind)) else {
            return false;
        };
        edit::build(words, form, kind, p, places);
        true
    }

    // A new branching of two children with the prefix L14.
    fn branch(&mut self, kind: u32, byte: u8, reference: u32) -> bool {
        let mut places = [0; 256];
        places[OLD_BYTE as usize] = OLD_REFERENCE;
        places[byte as usize] = reference;
        self.lay(kind, prefix::header::prefix_of(b"L14"), places)
    }

    // The record moved into another kind.
    fn move_to(&mut self, kind: u32) -> bool {
        let Some(record) = self.record() else {
            return false;
        };
        let p = header::prefix_at(record.form, record.words);
        let places = edit::spread_of(record.form, record.words, record.kind);
        self.lay(kind, p, places)
    }

    // Another prefix: so many times the byte.
    fn set_prefix(&mut self, byte: u8, count: u32) -> bool {
        let Some(record) = self.record() else {
            return false;
        };
        let run = [byte; 64];
        let Some(run) = run.get(..count as usize) else {
            return false;
        };
        let p = prefix::header::prefix_of(run);
        edits::header::set_prefix(&mut self.words, form_one(), p);
        true
    }

    // One change of a child.
    fn change(&mut self, byte: u8, change: Change) -> bool {
        let Some(record) = self.record() else {
            return false;
        };
        if !record.takes(byte, change) {
            return false;
        }
        let form = record.form;
        let kind = record.kind;
        let end = form::record_words(form, kind);
        edit::change_child(&mut self.words[..end], form, kind, byte, change);
        true
    }

    // So many changes for the bytes in a row; stops at one that is refused.
    fn changes(&mut self, count: u32, first: u8, change: Change) -> bool {
        let mut byte = first;
        let mut change = change;
        for _ in 0..count {
            if !self.change(byte, change) {
                return false;
            }
            byte = byte.wrapping_add(1);
            change = next(change);
        }
        true
    }

    // What a step does to the room; false where it is refused.
    pub fn run(&mut self, step: Step) -> bool {
        match step {
            Step::New {
                kind,
                byte,
                reference,
            } => self.branch(kind, byte, reference),
            Step::Add {
                count,
                byte,
                reference,
            } => self.changes(count, byte, Change::Add(reference)),
            Step::Replace {
                count,
                byte,
                reference,
            } => self.changes(count, byte, Change::Replace(reference)),
            Step::Remove { count, byte } => self.changes(count, byte, Change::Remove),
            Step::Prefix { count, byte } => self.set_prefix(byte, count),
            Step::Move { kind } => self.move_to(kind),
            Step::Lookup(_) | Step::Lowest | Step::Highest | Step::From(_) => true,
        }
    }
}

// The change for the next byte, with the next reference of the same kind.
fn next(change: Change) -> Change {
    match change {
        Change::Add(reference) => Change::Add(reference.wrapping_add(8)),
        Change::Replace(reference) => Change::Replace(reference.wrapping_add(8)),
        Change::Remove => Change::Remove,
    }
}
