// The check of a record goes by turns from the record to its row of children: each record is reached once, its leaf follows the one seen last, and
// each hands up the first leaf below it, its witness, with which the row's other leaves and the stored prefix are compared.
ghost use Rattle.std.specs.Prelude.{◌≡◌, ◌≤◌, ◌<◌, ◌+◌, ◌^◌, length};
ghost use Rattle.lists.specs.Part.{between};
ghost use Rattle.frames.specs.Kind.{leaf_size};
ghost use Rattle.records.specs.Words.{full_length};
ghost use Rattle.records.specs.Row.{entry_from, row_at};
ghost use Rattle.tree.specs.Arrive.{InnerFitsFrom};
ghost use Rattle.whole.specs.Arrive.{There, inner_rec};
ghost use Rattle.whole.specs.Marks.{reached};
ghost use Rattle.whole.specs.Witness.{WitnessSeen};
ghost use Rattle.whole.specs.Visit.{Sees, leaf_visit, turn_of, turn_at, row_end, child_end, first_of, record_end, record_by, row_way, RecordReady, RowReady};

use super::{marks, witness};
use frames::block::Block;
use frames::form;
use frames::form::Form;
use frames::kind::{BYTES, LEAF_WORDS};
use records::representation::Entry;
use records::{header, leaf_node, representation};
use std::ops::ControlFlow;
use tree::arrive;
use tree::arrive::Arrival;

// The reference of the leaf seen last, 0 at the start; the reference that must follow it; and how many leaves were seen.
#[derive(Clone, Copy)]
pub struct Seen {
    pub prev: u32,
    pub next: u32,
    pub count: usize,
}

// All is well so far, with the reference of the first leaf below and the leaf seen last; or not.
pub type Visit = Option<(u32, Seen)>;

// An inner record by its kind and first word, and the depth at which its row branches.
#[derive(Clone, Copy)]
pub struct Row {
    pub kind: u32,
    pub start: usize,
    pub depth: usize,
}

// What is to be done at a record: its row, or nothing more.
pub type Turn = ControlFlow<Visit, Row>;

// A leaf comes after the leaf seen last, both ways.
fn leaf_visit(words: &[u32], start: usize, reference: u32, s: Seen) -> Visit
    requires { (start + leaf_size ≤ length words.now) × (s.count + 1 < 2 ^ 64) }
    ensures { result ≡ leaf_visit (between words.now start (start + leaf_size)) reference s }
{
    let e = start + LEAF_WORDS;
    let rec = &words[start..e];
    let prev = leaf_node::previous(rec);
    let next = leaf_node::next(rec);
    if (prev == s.prev) & (s.next == reference) {
        let seen = Seen {
            prev: reference,
            next,
            count: s.count + 1,
        };
        return Some((reference, seen));
    }
    None
}

// How many bytes an inner record's run has.
fn run_len(words: &[u32], form: Form, kind: u32, start: usize) -> usize
    requires { InnerFitsFrom form words.now kind start }
    ensures { (result ≡ full_length (inner_rec form words.now kind start)) × (result < 2 ^ 32) }
{
    let e = start + form::record_words(form, kind);
    let full = header::full_len(&words[start..e]);
    full.0 as usize
}

// What is to be done at a record that is marked now.
fn turn_of(block: &Block, a: Arrival, reference: u32, depth: usize, s: Seen) -> Turn
    requires { There block.now.frame block.now.words.now a × ((s.count + 1 < 2 ^ 64) × (depth ≤ 65536)) }
    ensures { result ≡ turn_of block.now.frame block.now.words.now reference depth s a }
{
    match a {
        Arrival::Leaf(_, start) => ControlFlow::Break(leaf_visit(block.words, start, reference, s)),
        Arrival::Inner(kind, start) => ControlFlow::Continue(Row {
            kind,
            start,
            depth: depth + run_len(block.words, block.frame.form, kind, start),
        }),
        Arrival::Broken => ControlFlow::Break(None),
    }
}

// Arriving at a record with so many inner records left on the path, this one included: it was not reached before, and obeys its own rule.
fn turn_at(
    marks: &mut [u8],
    block: &Block,
    left: u32,
    reference: u32,
    depth: usize,
    s: Seen,
) -> Turn
    requires { RecordReady left depth s marks.old }
    ensures { (result ≡ turn_at block.now.frame block.now.words.now block.now.keys.now left reference depth marks.old s) × (marks.new ≡ reached block.now.frame reference marks.old) }
{
    if marks::reach(marks, &block.frame, reference) {
        let a = arrive::arrive(block, left, reference);
        return turn_of(block, a, reference, depth, s);
    }
    ControlFlow::Break(None)
}

// The first child of a row at or after a byte.
fn row_child(words: &[u32], form: Form, row: Row, byte: usize) -> Entry
    requires { InnerFitsFrom form words.now row.kind row.start × (byte ≤ 256) }
    ensures { result ≡ entry_from byte (row_at form row.kind (inner_rec form words.now row.kind row.start)) }
{
    let start = row.start;
    let e = start + form::record_words(form, row.kind);
    representation::child_from(form, &words[start..e], row.kind, byte)
}

// After the last child: a row hands up its witness, and one without children is none.
fn row_end(w: u32, s: Seen) -> Visit
    ensures { result ≡ row_end w s }
{
    if w == 0 {
        return None;
    }
    Some((w, s))
}

// A child is well, and its tag goes on with its byte from the row's witness, which the first child is itself.
fn child_end(block: &Block, e: usize, byte: u32, w: u32, v: Visit) -> Visit
    requires { WitnessSeen block.now.frame block.now.words.now block.now.keys.now w × Sees block.now.frame block.now.words.now block.now.keys.now v }
    ensures { result ≡ child_end block.now.frame block.now.words.now block.now.keys.now e byte w v }
{
    let (t, s) = v?;
    let x = first_of(w, t);
    if witness::leaf_goes_on(block, e, x, byte, t) {
        return Some((x, s));
    }
    None
}

// The row's witness: the first child's.
fn first_of(w: u32, t: u32) -> u32
    ensures { result ≡ first_of w t }
{
    if w == 0 { t } else { w }
}

// Its row is well, and its stored bytes are its witness's.
fn record_end(block: &Block, row: Row, depth: usize, v: Visit) -> Visit
    requires { InnerFitsFrom block.now.frame.form block.now.words.now row.kind row.start × Sees block.now.frame block.now.words.now block.now.keys.now v }
    ensures { result ≡ record_end block.now.frame block.now.words.now block.now.keys.now row depth v }
{
    let (w, s) = v?;
    if witness::leaf_agrees(block, row.kind, row.start, depth, w) {
        return Some((w, s));
    }
    None
}

// The record that a reference names, with all that is below it: one less is left on the path of its children, so the two functions end.
#[cycle(check_record_check_row)]
pub fn check_record(
    marks: &mut [u8],
    block: &Block,
    left: u32,
    reference: u32,
    depth: usize,
    s: Seen,
) -> Visit
    requires { RecordReady left depth s marks.old }
    ensures { (result ≡ (record_by block.now.frame block.now.words.now block.now.keys.now left reference depth marks.old s).visit) × (marks.new ≡ (record_by block.now.frame block.now.words.now block.now.keys.now left reference depth marks.old s).marks) }
{
    match turn_at(marks, block, left, reference, depth, s) {
        ControlFlow::Continue(row) => {
            let v = check_row(marks, block, left - 1, row, s);
            record_end(block, row, depth, v)
        }
        ControlFlow::Break(v) => v,
    }
}

// A row, child by child in byte order: each turn of the loop leaves the places past its child, so fewer. It is a loop, so that no child takes stack of
// its own; each goes by `check_record`.
#[cycle(check_record_check_row)]
fn check_row(marks: &mut [u8], block: &Block, left: u32, row: Row, s: Seen) -> Visit
    requires { RowReady block.now.frame block.now.words.now block.now.keys.now left row 256 0 s marks.old }
    ensures { (result ≡ (row_way block.now.frame block.now.words.now block.now.keys.now left row 256 0 marks.old s).visit) × (marks.new ≡ (row_way block.now.frame block.now.words.now block.now.keys.now left row 256 0 marks.old s).marks) }
{
    let mut places_left: usize = BYTES;
    let mut w: u32 = 0;
    let mut seen = s;
    while places_left > 0 {
        let c = row_child(block.words, block.frame.form, row, BYTES - places_left);
        let Some((b, r)) = c else {
            return row_end(w, seen);
        };
        let v = check_record(marks, block, left, r, row.depth + 1, seen);
        (w, seen) = child_end(block, row.depth, b, w, v)?;
        places_left = BYTES - 1 - b as usize;
    }
    row_end(w, seen)
}
