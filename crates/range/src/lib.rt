// First-at-or-after: the first held tag that does not come before the given bytes, in unsigned byte order. The whole check comes first, so that the leaf
// list is all leaves in the order of their tags, and the first that is not below is found along it.
#![tactic(auto)]

ghost use Rattle.std.specs.Prelude.{◌≡◌, ◌≤◌, ◌+◌, ◌*◌, length};
ghost use Rattle.lists.specs.Part.{between};
ghost use Rattle.frames.specs.Kind.{leaf_size};
ghost use Rattle.records.specs.Words.{tag_length};
ghost use Rattle.range.specs.Range.{below, leaf_step, step_of, after_first, answer, after_of};

use frames::block::Block;
use frames::frame;
use frames::kind::LEAF_WORDS;
use lists::compare;
use records::leaf_node;
use refusals::Refusal;
use std::ops::ControlFlow;
use tree::answer::{Found, Leaf};
use whole::check;

// The next reference along the leaf list, or the answer.
pub type Step = ControlFlow<Found, u32>;

// Whether a leaf's tag comes before the given bytes.
fn tag_below(rec: &[u32], key: &[u8], tag: &[u8]) -> bool
    requires { (length rec.now ≡ leaf_size) × (tag_length rec.now ≤ length key.now) }
    ensures { result ≡ below rec.now key.now tag.now }
{
    let n = leaf_node::tag_len(rec);
    compare::less_bytes(&key[0..n], tag)
}

// The step at a leaf, by its words and its key bytes.
fn leaf_step(rec: &[u32], key: &[u8], tag: &[u8], number: u32) -> Step
    requires { length rec.now ≡ leaf_size }
    ensures { result ≡ leaf_step rec.now key.now tag.now number }
{
    if key.len() < leaf_node::tag_len(rec) {
        return ControlFlow::Break(Err(Refusal::Damaged));
    }
    if tag_below(rec, key, tag) {
        return ControlFlow::Continue(leaf_node::next(rec));
    }
    ControlFlow::Break(Ok(Leaf {
        number,
        total: leaf_node::total_of(rec),
    }))
}

// The same, by its number and first word.
fn leaf_at(words: &[u32], keys: &[u8], limit: usize, tag: &[u8], number: u32, start: usize) -> Step
    requires { (start + leaf_size ≤ length words.now) × (number * limit + limit ≤ length keys.now) }
    ensures { result ≡ leaf_step (between words.now start (start + leaf_size)) (between keys.now (number * limit) (number * limit + limit)) tag.now number }
{
    let e = start + LEAF_WORDS;
    let a = number as usize * limit;
    let z = a + limit;
    leaf_step(&words[start..e], &keys[a..z], tag, number)
}

// The step at a reference of the leaf list.
fn step_at(block: &Block, tag: &[u8], reference: u32) -> Step
    ensures { result ≡ step_of block.now.frame block.now.words.now block.now.keys.now tag.now reference }
{
    if reference == 0 {
        return ControlFlow::Break(Err(Refusal::Missing));
    }
    if reference % 8 != frame::LEAF {
        return ControlFlow::Break(Err(Refusal::Damaged));
    }
    if !block.has(reference) {
        return ControlFlow::Break(Err(Refusal::Damaged));
    }
    let start = block.start_at(reference);
    leaf_at(
        block.words,
        block.keys,
        block.frame.form.limit as usize,
        tag,
        reference / 8,
        start,
    )
}

// Along the leaf list from its first: no more steps than leaves, and one for the end.
pub fn after_first(block: &Block, tag: &[u8]) -> Found
    ensures { result ≡ after_first block.now.frame block.now.words.now block.now.keys.now tag.now }
{
    let mut reference = block.trailer_word(frame::FIRST);
    for _ in 0..=block.frame.caps[frame::LEAVES] {
        match step_at(block, tag, reference) {
            ControlFlow::Continue(next) => reference = next,
            ControlFlow::Break(found) => return found,
        }
    }
    Err(Refusal::Damaged)
}

// The call.
pub fn first_at_or_after(words: &[u32], keys: &[u8], scratch: &mut [u8], tag: &[u8]) -> Found
    ensures { answer result scratch.new ≡ after_of words.now keys.now scratch.old tag.now }
{
    match check::check(words, keys, scratch) {
        Ok(()) => after_first(&Block::new(words, keys), tag),
        Err(refusal) => Err(refusal),
    }
}
