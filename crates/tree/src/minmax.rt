// Minimum and maximum: down by the lowest or the highest child, each record tested as the walk does.
ghost use Rattle.std.specs.Prelude.{◌≡◌, ◌≤◌, ◌+◌, length};
ghost use Rattle.lists.specs.Part.{between};
ghost use Rattle.frames.specs.Kind.{leaf_size};
ghost use Rattle.frames.specs.Form.{record_words};
ghost use Rattle.records.specs.Own.{InnerFits};
ghost use Rattle.records.specs.Row.{row_at};
ghost use Rattle.tree.specs.Answer.{leaf_found};
ghost use Rattle.tree.specs.Arrive.{InnerFitsFrom};
ghost use Rattle.tree.specs.Edge.{edge_entry, edge_ref, edge_step, edge_of, edge_leaf, minimum_of, maximum_of};

use super::answer::{Found, Leaf};
use super::arrive;
use super::arrive::Arrival;
use frames::block::Block;
use frames::form::Form;
use frames::kind::LEAF_WORDS;
use frames::{form, frame};
use records::representation::Entry;
use records::{leaf_node, representation};
use refusals::Refusal;
use std::ops::ControlFlow;

// Which end of a row. An enum and no closure, since the definitions name the two ends.
#[derive(Clone, Copy)]
pub enum Edge {
    Low,
    High,
}

// The next reference, or the answer.
pub type EdgeStep = ControlFlow<Found, u32>;

// The lowest or the highest child of a row.
fn edge_entry(rec: &[u32], form: Form, kind: u32, edge: Edge) -> Entry
    requires { InnerFits form kind rec.now }
    ensures { result ≡ edge_entry edge (row_at form kind rec.now) }
{
    match edge {
        Edge::Low => representation::nth_child(form, rec, kind, 0),
        Edge::High => representation::last_child(form, rec, kind),
    }
}

// Its reference; 0 for an empty row, which obeys no rule.
fn edge_child(words: &[u32], form: Form, kind: u32, start: usize, edge: Edge) -> u32
    requires { InnerFitsFrom form words.now kind start }
    ensures { result ≡ edge_ref edge form kind (between words.now start (start + record_words form kind)) }
{
    let e = start + form::record_words(form, kind);
    match edge_entry(&words[start..e], form, kind, edge) {
        Some((_, reference)) => reference,
        None => 0,
    }
}

// A leaf as it stands.
pub fn leaf_found(words: &[u32], number: u32, start: usize) -> Found
    requires { start + leaf_size ≤ length words.now }
    ensures { result ≡ leaf_found number (between words.now start (start + leaf_size)) }
{
    let e = start + LEAF_WORDS;
    Ok(Leaf {
        number,
        total: leaf_node::total_of(&words[start..e]),
    })
}

// One step down, with so many inner records left on the path.
fn edge_step(block: &Block, edge: Edge, left: u32, reference: u32) -> EdgeStep
    ensures { result ≡ edge_step block.now.frame block.now.words.now block.now.keys.now edge left reference }
{
    let here = arrive::arrive(block, left, reference);
    match here {
        Arrival::Leaf(number, start) => ControlFlow::Break(leaf_found(block.words, number, start)),
        Arrival::Inner(kind, start) => ControlFlow::Continue(edge_child(
            block.words,
            block.frame.form,
            kind,
            start,
            edge,
        )),
        Arrival::Broken => ControlFlow::Break(Err(Refusal::Damaged)),
    }
}

// The way down from a record: past the last inner record that a path may have there is damage, as in the walk.
pub fn edge_walk(block: &Block, edge: Edge, root: u32) -> Found
    ensures { result ≡ edge_of block.now.frame block.now.words.now block.now.keys.now edge block.now.frame.form.limit root }
{
    let mut reference = root;
    for left in (0..=block.frame.form.limit).rev() {
        match edge_step(block, edge, left, reference) {
            ControlFlow::Continue(next) => reference = next,
            ControlFlow::Break(found) => return found,
        }
    }
    Err(Refusal::Damaged)
}

// Minimum and maximum: the frame, then no root, then the way down.
fn edge_leaf(words: &[u32], keys: &[u8], edge: Edge) -> Found
    ensures { result ≡ edge_leaf words.now keys.now edge }
{
    let block = Block::try_new(words, keys)?;
    let root = block.trailer_word(frame::ROOT);
    if root == 0 {
        return Err(Refusal::Missing);
    }
    edge_walk(&block, edge, root)
}

// The leaf with the lowest tag.
pub fn minimum(words: &[u32], keys: &[u8]) -> Found
    ensures { result ≡ minimum_of words.now keys.now }
{
    edge_leaf(words, keys, Edge::Low)
}

// The leaf with the highest tag.
pub fn maximum(words: &[u32], keys: &[u8]) -> Found
    ensures { result ≡ maximum_of words.now keys.now }
{
    edge_leaf(words, keys, Edge::High)
}
