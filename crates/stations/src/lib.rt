// Station total: how many held tags begin with given bytes, and the exact sum of their totals. The whole check comes first, so that the leaf list is all leaves,
// each once, and one pass along it adds up those that begin so.
#![tactic(auto)]

ghost use Rattle.std.specs.Prelude.{◌≡◌, ◌≤◌, ◌+◌, ◌*◌, length};
ghost use Rattle.lists.specs.Part.{between};
ghost use Rattle.frames.specs.Kind.{leaf_size};
ghost use Rattle.tally.specs.Tally.{nothing};
ghost use Rattle.stations.specs.Stations.{starts_so, leaf_entry, entry_of, no_entry, tally_from, tally_list, answer, total_of};

use frames::block::Block;
use frames::frame;
use frames::kind::LEAF_WORDS;
use lists::compare;
use records::leaf_node;
use refusals::Refusal;
use tally::Tally;
use whole::check;

// What stands at a reference of the leaf list: whether the leaf's tag begins so, its total, and the reference of the leaf after it.
#[derive(Clone, Copy)]
pub struct Entry {
    pub counts: bool,
    pub total: u64,
    pub next: u32,
}

// Whether a leaf's tag begins with the given bytes.
fn starts_so(rec: &[u32], key: &[u8], beginning: &[u8]) -> bool
    requires { length rec.now ≡ leaf_size }
    ensures { result ≡ starts_so rec.now key.now beginning.now }
{
    let n = leaf_node::tag_len(rec);
    if key.len() < n {
        return false;
    }
    compare::begins_bytes(beginning, &key[0..n])
}

// The entry of a leaf, by its words and its key bytes.
fn leaf_entry(rec: &[u32], key: &[u8], beginning: &[u8]) -> Entry
    requires { length rec.now ≡ leaf_size }
    ensures { result ≡ leaf_entry rec.now key.now beginning.now }
{
    Entry {
        counts: starts_so(rec, key, beginning),
        total: leaf_node::total_of(rec),
        next: leaf_node::next(rec),
    }
}

// The same, by its number and first word.
fn entry_in(
    words: &[u32],
    keys: &[u8],
    limit: usize,
    beginning: &[u8],
    number: u32,
    start: usize,
) -> Entry
    requires { (start + leaf_size ≤ length words.now) × (number * limit + limit ≤ length keys.now) }
    ensures { result ≡ leaf_entry (between words.now start (start + leaf_size)) (between keys.now (number * limit) (number * limit + limit)) beginning.now }
{
    let e = start + LEAF_WORDS;
    let a = number as usize * limit;
    let z = a + limit;
    leaf_entry(&words[start..e], &keys[a..z], beginning)
}

// No leaf: it adds nothing, and nothing comes after it.
fn no_entry() -> Entry
    ensures { result ≡ no_entry }
{
    Entry {
        counts: false,
        total: 0,
        next: 0,
    }
}

// The entry at a reference.
fn entry_at(block: &Block, beginning: &[u8], reference: u32) -> Entry
    ensures { result ≡ entry_of block.now.frame block.now.words.now block.now.keys.now beginning.now reference }
{
    if reference % 8 != frame::LEAF {
        return no_entry();
    }
    if !block.has(reference) {
        return no_entry();
    }
    let start = block.start_at(reference);
    entry_in(
        block.words,
        block.keys,
        block.frame.form.limit as usize,
        beginning,
        reference / 8,
        start,
    )
}

// Along the leaf list from a reference on, so many leaves: the running tally is lent to each step, and changed where it stands.
fn tally_from(block: &Block, beginning: &[u8], leaves: u32, first: u32) -> Tally
    ensures { result ≡ tally_from block.now.frame block.now.words.now block.now.keys.now beginning.now leaves nothing first }
{
    let mut t = tally::nothing();
    let mut reference = first;
    for _ in 0..leaves {
        let e = entry_at(block, beginning, reference);
        if e.counts {
            tally::add(&mut t, e.total);
        }
        reference = e.next;
    }
    t
}

// Along the leaf list from its first, as many leaves as the trailer counts.
pub fn tally_list(block: &Block, beginning: &[u8]) -> Tally
    ensures { result ≡ tally_list block.now.frame block.now.words.now block.now.keys.now beginning.now }
{
    let leaves = block.trailer_word(frame::TAGS);
    let first = block.trailer_word(frame::FIRST);
    tally_from(block, beginning, leaves, first)
}

// The call.
pub fn station_total(
    words: &[u32],
    keys: &[u8],
    scratch: &mut [u8],
    beginning: &[u8],
) -> Result<Tally, Refusal>
    ensures { answer result scratch.new ≡ total_of words.now keys.now scratch.old beginning.now }
{
    check::check(words, keys, scratch)?;
    let block = Block::new(words, keys);
    Ok(tally_list(&block, beginning))
}
