// The walk, and the two searches that it serves.
ghost use Rattle.std.specs.Prelude.{◌≡◌, ◌≤◌, ◌+◌, ◌*◌, min, length};
ghost use Rattle.lists.specs.Part.{between};
ghost use Rattle.frames.specs.Kind.{leaf_size};
ghost use Rattle.frames.specs.Form.{record_words};
ghost use Rattle.records.specs.Own.{InnerFits};
ghost use Rattle.tree.specs.Arrive.{LeafFits, LeafThere, InnerFitsFrom};
ghost use Rattle.tree.specs.Walk.{compare_from, fits, leaf_answer, inner_step, step_of, ended_of, walk_of, find_of, search_of, prefix_search_of};

use super::answer::{Found, Leaf};
use super::arrive;
use super::arrive::Arrival;
use frames::block::Block;
use frames::form::Form;
use frames::kind::LEAF_WORDS;
use frames::{form, frame};
use lists::compare;
use prefix::lookup;
use prefix::lookup::{PrefixMatch, PrefixMatchBehavior};
use records::{header, leaf_node, representation};
use refusals::Refusal;
use std::ops::ControlFlow;

// What the held tag must be: the given bytes, or a beginning of them. An enum and no closure, since the definitions name the two aims.
#[derive(Clone, Copy)]
pub enum Aim {
    Exact,
    Begin,
}

// The next reference with its depth, and whether bytes were skipped; or the answer.
pub type Step = ControlFlow<Found, (u32, usize, PrefixMatchBehavior)>;

// Where comparing with a leaf's tag of `len` bytes begins: within both.
fn compare_from(tag: &[u8], len: usize, depth: usize, behavior: PrefixMatchBehavior) -> usize
    ensures { (result ≡ compare_from (length tag.now) len depth behavior) × ((result ≤ length tag.now) × (result ≤ len)) }
{
    if let PrefixMatchBehavior::Optimistic = behavior {
        return 0;
    }
    depth.min(tag.len().min(len))
}

// The given bytes beside a leaf's.
fn fits_aim(given: &[u8], held: &[u8], aim: Aim) -> bool
    ensures { result ≡ fits aim given.now held.now }
{
    match aim {
        Aim::Exact => compare::same_bytes(given, held),
        Aim::Begin => compare::begins_bytes(held, given),
    }
}

// The answer at a leaf that obeys its own rule.
fn at_leaf(
    rec: &[u32],
    key: &[u8],
    tag: &[u8],
    aim: Aim,
    number: u32,
    depth: usize,
    behavior: PrefixMatchBehavior,
) -> Found
    requires { LeafFits (length key.now) rec.now key.now }
    ensures { result ≡ leaf_answer rec.now key.now tag.now aim number depth behavior }
{
    let len = leaf_node::tag_len(rec);
    let from = compare_from(tag, len, depth, behavior);
    let e = tag.len();
    if fits_aim(&tag[from..e], &key[from..len], aim) {
        Ok(Leaf {
            number,
            total: leaf_node::total_of(rec),
        })
    } else {
        Err(Refusal::Missing)
    }
}

// The step at an inner record that obeys its own rule.
fn at_inner(
    rec: &[u32],
    form: Form,
    kind: u32,
    tag: &[u8],
    depth: usize,
    behavior: PrefixMatchBehavior,
) -> Step
    requires { InnerFits form kind rec.now × (depth ≤ length tag.now) }
    ensures { result ≡ inner_step form kind rec.now tag.now depth behavior }
{
    let p = header::prefix_at(form, rec);
    let m = lookup::match_prefix(p, tag, depth, behavior);
    let PrefixMatch::On(d, after) = m else {
        return ControlFlow::Break(Err(Refusal::Missing));
    };
    let child = representation::lookup_child(form, rec, kind, tag[d]);
    if child == 0 {
        return ControlFlow::Break(Err(Refusal::Missing));
    }
    ControlFlow::Continue((child, d + 1, after))
}

// The slices of a leaf, and the answer there.
fn leaf_at(
    words: &[u32],
    keys: &[u8],
    limit: usize,
    tag: &[u8],
    aim: Aim,
    number: u32,
    start: usize,
    depth: usize,
    behavior: PrefixMatchBehavior,
) -> Found
    requires { LeafThere limit words.now keys.now number start }
    ensures { result ≡ leaf_answer (between words.now start (start + leaf_size)) (between keys.now (number * limit) (number * limit + limit)) tag.now aim number depth behavior }
{
    let e = start + LEAF_WORDS;
    let a = number as usize * limit;
    let z = a + limit;
    at_leaf(
        &words[start..e],
        &keys[a..z],
        tag,
        aim,
        number,
        depth,
        behavior,
    )
}

// The slice of an inner record, and the step there.
fn inner_at(
    words: &[u32],
    form: Form,
    kind: u32,
    start: usize,
    tag: &[u8],
    depth: usize,
    behavior: PrefixMatchBehavior,
) -> Step
    requires { InnerFitsFrom form words.now kind start × (depth ≤ length tag.now) }
    ensures { result ≡ inner_step form kind (between words.now start (start + record_words form kind)) tag.now depth behavior }
{
    let e = start + form::record_words(form, kind);
    at_inner(&words[start..e], form, kind, tag, depth, behavior)
}

// One step of the walk, with so many inner records left on the path.
fn step_at(
    block: &Block,
    tag: &[u8],
    aim: Aim,
    left: u32,
    reference: u32,
    depth: usize,
    behavior: PrefixMatchBehavior,
) -> Step
    requires { depth ≤ length tag.now }
    ensures { result ≡ step_of block.now.frame block.now.words.now block.now.keys.now tag.now aim left reference depth behavior }
{
    let here = arrive::arrive(block, left, reference);
    match here {
        Arrival::Leaf(number, start) => ControlFlow::Break(leaf_at(
            block.words,
            block.keys,
            block.frame.form.limit as usize,
            tag,
            aim,
            number,
            start,
            depth,
            behavior,
        )),
        Arrival::Inner(kind, start) => inner_at(
            block.words,
            block.frame.form,
            kind,
            start,
            tag,
            depth,
            behavior,
        ),
        Arrival::Broken => ControlFlow::Break(Err(Refusal::Damaged)),
    }
}

// The answer of a step that goes no further; past the last record that a path may have there is damage.
fn ended(step: Step) -> Found
    ensures { result ≡ ended_of step }
{
    match step {
        ControlFlow::Break(found) => found,
        ControlFlow::Continue(_) => Err(Refusal::Damaged),
    }
}

// The walk from the root: as many inner records as a tag may have bytes, and the leaf. Past the last of them there is damage. One call of `step_at` stands for all
// steps, so that it is compiled into the loop.
fn walk(block: &Block, tag: &[u8], aim: Aim, root: u32) -> Found
    ensures { result ≡ walk_of block.now.frame block.now.words.now block.now.keys.now tag.now aim block.now.frame.form.limit root 0 PrefixMatchBehavior.Pessimistic }
{
    let mut reference = root;
    let mut depth = 0;
    let mut behavior = PrefixMatchBehavior::Pessimistic;
    for left in (0..=block.frame.form.limit).rev() {
        let step = step_at(block, tag, aim, left, reference, depth, behavior);
        let ControlFlow::Continue(next) = step else {
            return ended(step);
        };
        (reference, depth, behavior) = next;
    }
    Err(Refusal::Damaged)
}

// Frame, root, then the walk.
fn find(words: &[u32], keys: &[u8], tag: &[u8], aim: Aim) -> Found
    ensures { result ≡ find_of words.now keys.now tag.now aim }
{
    let block = Block::try_new(words, keys)?;
    let root = block.trailer_word(frame::ROOT);
    if root == 0 {
        return Err(Refusal::Missing);
    }
    walk(&block, tag, aim, root)
}

// The leaf that holds the tag.
pub fn search(words: &[u32], keys: &[u8], tag: &[u8]) -> Found
    ensures { result ≡ search_of words.now keys.now tag.now }
{
    find(words, keys, tag, Aim::Exact)
}

// The leaf whose tag begins the given bytes.
pub fn prefix_search(words: &[u32], keys: &[u8], tag: &[u8]) -> Found
    ensures { result ≡ prefix_search_of words.now keys.now tag.now }
{
    find(words, keys, tag, Aim::Begin)
}
