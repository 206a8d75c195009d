// The calls on a leaf number: the next leaf, a leaf's length and total, and its tag.
#![tactic(auto)]

ghost use Rattle.std.specs.Prelude.{◌≡◌, ◌≤◌, ◌+◌, length};
ghost use Rattle.frames.specs.Kind.{leaf_size};
ghost use Rattle.lists.specs.Part.{between};
ghost use Rattle.tree.specs.Answer.{facts_here};
ghost use Rattle.leaves.specs.Leaf.{leaf_state, next_of, next_leaf_of, facts_of, tag_len, tag_of};

use frames::block::Block;
use frames::frame;
use frames::kind::LEAF_WORDS;
use records::leaf_node;
use refusals::Refusal;
use tree::answer::{Facts, Found};
use tree::{arrive, minmax};

// The six words of a leaf, by its first.
fn leaf_words<'a>(words: &'a [u32], start: usize) -> &'a [u32]
    requires { start + leaf_size ≤ length words.now }
    ensures { (result.now ≡ between words.now start (start + leaf_size)) × (length result.now ≡ leaf_size) }
{
    let e = start + LEAF_WORDS;
    &words[start..e]
}

// The first word of a leaf. A number of no leaf in use is told from a leaf whose words are damaged: the two are refused by different numbers.
fn leaf_state(block: &Block, number: u32) -> Result<usize, Refusal>
    ensures { result ≡ leaf_state block.now.frame block.now.words.now block.now.keys.now number }
{
    if block.frame.caps[frame::LEAVES] <= number as usize {
        return Err(Refusal::NotInUse);
    }
    let reference = frame::reference_to(frame::LEAF, number as usize);
    let start = block.start_at(reference);
    if leaf_node::used_as(leaf_words(block.words, start)) == 0 {
        return Err(Refusal::NotInUse);
    }
    if !arrive::rule_at(block, reference) {
        return Err(Refusal::Damaged);
    }
    Ok(start)
}

// The leaf that a next reference names: it must be in use, and no more of it is tested.
fn next_of(block: &Block, next: u32) -> Found
    ensures { result ≡ next_of block.now.frame block.now.words.now next }
{
    if next == 0 {
        return Err(Refusal::Missing);
    }
    if next % 8 != frame::LEAF {
        return Err(Refusal::Damaged);
    }
    if !block.has(next) {
        return Err(Refusal::Damaged);
    }
    let start = block.start_at(next);
    if leaf_node::used_as(leaf_words(block.words, start)) != 1 {
        return Err(Refusal::Damaged);
    }
    minmax::leaf_found(block.words, next / 8, start)
}

// The leaf after a leaf.
pub fn next_leaf(words: &[u32], keys: &[u8], number: u32) -> Found
    ensures { result ≡ next_leaf_of words.now keys.now number }
{
    let block = Block::try_new(words, keys)?;
    let start = leaf_state(&block, number)?;
    next_of(&block, leaf_node::next(leaf_words(block.words, start)))
}

// A leaf's tag length and total.
pub fn leaf_facts(words: &[u32], keys: &[u8], number: u32) -> Result<Facts, Refusal>
    ensures { result ≡ facts_of words.now keys.now number }
{
    let block = Block::try_new(words, keys)?;
    let start = leaf_state(&block, number)?;
    Ok(facts_at(block.words, start))
}

// A leaf's length and total as they stand.
fn facts_at(words: &[u32], start: usize) -> Facts
    requires { start + leaf_size ≤ length words.now }
    ensures { result ≡ facts_here (between words.now start (start + leaf_size)) }
{
    let rec = leaf_words(words, start);
    Facts {
        length: leaf_node::tag_len(rec) as u32,
        total: leaf_node::total_of(rec),
    }
}

// How many key bytes the tag of a leaf has: 0 where there is no leaf in use, or it breaks its rule.
fn tag_len(block: &Block, number: u32) -> usize
    ensures { result ≡ tag_len block.now.frame block.now.words.now block.now.keys.now number }
{
    match leaf_state(block, number) {
        Ok(start) => leaf_node::tag_len(leaf_words(block.words, start)),
        Err(_) => 0,
    }
}

// A leaf's tag, as it stands in the key bytes; nothing on a refusal.
pub fn leaf_tag<'a>(words: &[u32], keys: &'a [u8], number: u32) -> &'a [u8]
    ensures { result.now ≡ tag_of words.now keys.now number }
{
    let Ok(block) = Block::try_new(words, keys) else {
        return &keys[0..0];
    };
    let n = tag_len(&block, number);
    if n == 0 {
        return &keys[0..0];
    }
    let a = number as usize * block.frame.form.limit as usize;
    &keys[a..a + n]
}
