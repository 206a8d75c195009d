// The way of a tag down the tree, to its point. Every record on it is tested as the walk does; of a run over eight bytes, those that are not stored
// are read from the first leaf below.
ghost use Rattle.std.specs.Prelude.{◌≡◌, ◌≤◌, ◌+◌, length, drop};
ghost use Rattle.lists.specs.Compare.{shared};
ghost use Rattle.lists.specs.Part.{between};
ghost use Rattle.frames.specs.Form.{record_words};
ghost use Rattle.records.specs.Own.{child_at, InnerFits};
ghost use Rattle.tree.specs.Arrive.{InnerFitsFrom};
ghost use Rattle.points.specs.Point.{leaf_point, leaf_ref_of, lowest_of, run_below, run_of, fork_point, child_step, inner_step, step_of, point_of};

use frames::block::Block;
use frames::form::Form;
use frames::{form, frame};
use lists::compare;
use prefix::Prefix;
use records::{header, representation};
use std::ops::ControlFlow;
use tree::arrive::Arrival;
use tree::minmax::Edge;
use tree::{arrive, minmax, seen};

// The record above, by its reference, with the byte that leads down from it; or none at the root.
pub type Up = Option<(u32, u8)>;

// Where the way of a tag ends. Records and leaves go by their references.
#[derive(Clone, Copy)]
pub enum Point {
    Holds(Up, Up, u32), // at the leaf that holds it, with the record above the record above, and the record above
    Clash, // it begins a held tag, or a held tag begins it
    Into(Up, u32, u8), // at a record that has no child for its next byte
    Fork(Up, u32, u32, usize, usize), // above a record or leaf, with the first leaf at or below it, the depth, and how many bytes agree from there
    Broken, // the block is damaged
}

// The next reference with its depth, and the byte that leads to it; or the point.
pub type Step = ControlFlow<Point, (u32, usize, u8)>;

// The reference of the first leaf at or below a record; 0 where the way to it is broken.
fn lowest_leaf(block: &Block, reference: u32) -> u32
    ensures { result ≡ leaf_ref_of (lowest_of block.now.frame block.now.words.now block.now.keys.now reference) }
{
    match minmax::edge_walk(block, Edge::Low, reference) {
        Ok(leaf) => frame::reference_to(frame::LEAF, leaf.number as usize),
        Err(_) => 0,
    }
}

// How many bytes of the two tags agree from this depth on, which may be past the end of the second.
fn agreed_from(tag: &[u8], t: &[u8], depth: usize) -> usize
    requires { depth ≤ length tag.now }
    ensures { result ≡ shared (drop depth tag.now) (drop depth t.now) }
{
    if t.len() < depth {
        return 0;
    }
    compare::shared_bytes(&tag[depth..], &t[depth..])
}

// The point at a leaf whose tag is `t`.
fn at_leaf(tag: &[u8], t: &[u8], reference: u32, depth: usize, upper: Up, up: Up) -> Point
    requires { depth ≤ length tag.now }
    ensures { result ≡ leaf_point tag.now t.now reference depth upper up }
{
    let c = agreed_from(tag, t, depth);
    let e = depth + c;
    if tag.len() <= e {
        if t.len() <= e {
            return Point::Holds(upper, up, reference);
        }
        return Point::Clash;
    }
    if t.len() <= e {
        return Point::Clash;
    }
    Point::Fork(up, reference, reference, depth, c)
}

// How many bytes of a run over eight bytes agree, by the first leaf below; none where the way to it is broken.
fn run_below(block: &Block, tag: &[u8], reference: u32, depth: usize, full: usize) -> Option<usize>
    requires { depth ≤ length tag.now }
    ensures { result ≡ run_below block.now.frame block.now.words.now block.now.keys.now tag.now depth full (lowest_of block.now.frame block.now.words.now block.now.keys.now reference) }
{
    let leaf = lowest_leaf(block, reference);
    if leaf == 0 {
        return None;
    }
    let t = seen::tag_at(block, leaf);
    Some(agreed_from(tag, t, depth).min(full))
}

// How many bytes of a run agree, where it can be read.
#[tactic(auto, using(crate::proofs::Steps::run_long, crate::proofs::Steps::run_short))]
fn run_of(block: &Block, tag: &[u8], reference: u32, depth: usize, p: Prefix) -> Option<usize>
    requires { depth ≤ length tag.now }
    ensures { result ≡ run_of block.now.frame block.now.words.now block.now.keys.now tag.now reference depth p }
{
    let full = p.full.0 as usize;
    if 8 < full {
        return run_below(block, tag, reference, depth, full);
    }
    let n = prefix::stored_len(p.full);
    let k = n.0 as usize;
    let stored = p.stored;
    Some(compare::shared_words(&stored[0..k], &tag[depth..]))
}

// The point above a record from whose run the tag parts.
fn fork_at(block: &Block, up: Up, reference: u32, depth: usize, c: usize) -> Point
    ensures { result ≡ fork_point up reference depth c (lowest_of block.now.frame block.now.words.now block.now.keys.now reference) }
{
    let leaf = lowest_leaf(block, reference);
    if leaf == 0 {
        return Point::Broken;
    }
    Point::Fork(up, reference, leaf, depth, c)
}

// The step past a run, by the next byte.
fn child_step(
    rec: &[u32],
    form: Form,
    kind: u32,
    up: Up,
    reference: u32,
    byte: u8,
    depth: usize,
) -> Step
    requires { InnerFits form kind rec.now }
    ensures { result ≡ child_step up reference byte (child_at form kind rec.now byte) depth }
{
    let child = representation::lookup_child(form, rec, kind, byte);
    if child == 0 {
        return ControlFlow::Break(Point::Into(up, reference, byte));
    }
    ControlFlow::Continue((child, depth, byte))
}

// The step at an inner record that obeys its own rule.
fn at_inner(
    block: &Block,
    tag: &[u8],
    kind: u32,
    rec: &[u32],
    reference: u32,
    depth: usize,
    up: Up,
) -> Step
    requires { (depth ≤ length tag.now) × InnerFits block.now.frame.form kind rec.now }
    ensures { result ≡ inner_step block.now.frame block.now.words.now block.now.keys.now tag.now kind rec.now reference depth up }
{
    let p = header::prefix_at(block.frame.form, rec);
    let Some(c) = run_of(block, tag, reference, depth, p) else {
        return ControlFlow::Break(Point::Broken);
    };
    if tag.len() <= depth + c {
        return ControlFlow::Break(Point::Clash);
    }
    let full = p.full.0 as usize;
    if full <= c {
        let d = depth + full;
        return child_step(rec, block.frame.form, kind, up, reference, tag[d], d + 1);
    }
    ControlFlow::Break(fork_at(block, up, reference, depth, c))
}

// The same, by its kind and first word.
fn inner_at(
    block: &Block,
    tag: &[u8],
    kind: u32,
    start: usize,
    reference: u32,
    depth: usize,
    up: Up,
) -> Step
    requires { (depth ≤ length tag.now) × InnerFitsFrom block.now.frame.form block.now.words.now kind start }
    ensures { result ≡ inner_step block.now.frame block.now.words.now block.now.keys.now tag.now kind (between block.now.words.now start (start + record_words block.now.frame.form kind)) reference depth up }
{
    let e = start + form::record_words(block.frame.form, kind);
    at_inner(
        block,
        tag,
        kind,
        &block.words[start..e],
        reference,
        depth,
        up,
    )
}

// One step of the way, with so many inner records left on the path.
fn step_at(
    block: &Block,
    tag: &[u8],
    left: u32,
    reference: u32,
    depth: usize,
    upper: Up,
    up: Up,
) -> Step
    requires { depth ≤ length tag.now }
    ensures { result ≡ step_of block.now.frame block.now.words.now block.now.keys.now tag.now left reference depth upper up }
{
    let here = arrive::arrive(block, left, reference);
    match here {
        Arrival::Leaf(_, _) => {
            let t = seen::tag_at(block, reference);
            ControlFlow::Break(at_leaf(tag, t, reference, depth, upper, up))
        }
        Arrival::Inner(kind, start) => { inner_at(block, tag, kind, start, reference, depth, up) }
        Arrival::Broken => ControlFlow::Break(Point::Broken),
    }
}

// The way from the root: past the last inner record that a path may have there is damage, as in the walk.
pub fn search_for_insert_point(block: &Block, tag: &[u8], root: u32) -> Point
    ensures { result ≡ point_of block.now.frame block.now.words.now block.now.keys.now tag.now root }
{
    let mut reference = root;
    let mut depth = 0;
    let mut upper = None;
    let mut up = None;
    for left in (0..=block.frame.form.limit).rev() {
        match step_at(block, tag, left, reference, depth, upper, up) {
            ControlFlow::Continue((child, next, byte)) => {
                upper = up;
                up = Some((reference, byte));
                reference = child;
                depth = next;
            }
            ControlFlow::Break(point) => return point,
        }
    }
    Point::Broken
}
