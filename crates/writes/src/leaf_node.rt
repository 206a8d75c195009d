// Leaves put into the pool and the list, and taken out. A leaf goes by its number.
ghost use Rattle.std.specs.Prelude.{◌≡◌, true, ◌≤◌, ◌+◌, ◌*◌, length, replicate};
ghost use Rattle.frames.specs.Kind.{leaf_size};
ghost use Rattle.frames.specs.Frame.{FrameOf};
ghost use Rattle.frames.specs.Place.{in_pool, start_at, put_at};
ghost use Rattle.art.specs.Stores.{leaf_place};
ghost use Rattle.pools.specs.Leaf.{leaf_words};
ghost use Rattle.pools.specs.Link.{LeafOrEnd, set_next, set_previous};
ghost use Rattle.writes.specs.Leaf.{leaf_in, key_in, leaf_out, key_out, total_at};

use frames::frame;
use frames::frame::Frame;
use frames::kind::LEAF_WORDS;
use lists::edit;
use pools::{leaf_node, links};

// The leaves before and after one in the list, 0 at its ends.
#[derive(Clone, Copy)]
pub struct Gap {
    pub previous: u32,
    pub next: u32,
}

// The first word of leaf `n`.
fn leaf_start(words: &[u32], keys: &[u8], f: Frame, n: u32) -> usize
    requires { FrameOf f words.now keys.now × (in_pool f (leaf_place n) ≡ true) }
    ensures { (result ≡ start_at f (leaf_place n)) × (result + leaf_size ≤ length words.now) }
{
    frame::start_at(&f, frame::reference_to(frame::LEAF, n as usize))
}

// The first of its key bytes.
fn key_start(words: &[u32], keys: &[u8], f: Frame, n: u32) -> usize
    requires { FrameOf f words.now keys.now × (in_pool f (leaf_place n) ≡ true) }
    ensures { (result ≡ n * f.form.limit) × (result + f.form.limit ≤ length keys.now) }
{
    n as usize * f.form.limit as usize
}

// The words of leaf `n` between these neighbours.
fn write_at(words: &mut [u32], keys: &[u8], f: Frame, n: u32, len: u32, gap: Gap, total: u64)
    requires { FrameOf f words.old keys.now × (in_pool f (leaf_place n) ≡ true) }
    ensures { words.new ≡ put_at f words.old (leaf_place n) (leaf_words len gap.previous gap.next total) }
{
    let start = leaf_start(words, keys, f, n);
    let end = start + LEAF_WORDS;
    leaf_node::write_leaf(&mut words[start..end], len, gap.previous, gap.next, total);
}

// Its key bytes.
fn key_in(keys: &mut [u8], words: &[u32], f: Frame, n: u32, tag: &[u8])
    requires { FrameOf f words.now keys.old × ((in_pool f (leaf_place n) ≡ true) × (length tag.now ≤ f.form.limit)) }
    ensures { keys.new ≡ key_in f n tag.now keys.old }
{
    let start = key_start(words, keys, f, n);
    let end = start + f.form.limit as usize;
    edit::pad_bytes(&mut keys[start..end], tag);
}

// The leaf before a gap names another after it, and the one after the gap another before it; the frame stays.
fn link_gap(words: &mut [u32], keys: &[u8], f: Frame, gap: Gap, next: u32, previous: u32)
    requires { FrameOf f words.old keys.now × (LeafOrEnd f gap.previous × LeafOrEnd f gap.next) }
    ensures { (words.new ≡ set_previous f gap.next previous (set_next f gap.previous next words.old)) × FrameOf f words.new keys.now }
{
    links::set_next(words, keys, f, gap.previous, next);
    links::set_previous(words, keys, f, gap.next, previous);
}

// Leaf `n` put in between two neighbours, with its tag and its total.
pub fn leaf_in(
    words: &mut [u32],
    keys: &mut [u8],
    f: Frame,
    n: u32,
    tag: &[u8],
    gap: Gap,
    total: u64,
)
    requires { (FrameOf f words.old keys.old × ((in_pool f (leaf_place n) ≡ true) × (length tag.now ≤ f.form.limit))) × (LeafOrEnd f gap.previous × LeafOrEnd f gap.next) }
    ensures { (words.new ≡ leaf_in f n (length tag.now) gap.previous gap.next total words.old) × (keys.new ≡ key_in f n tag.now keys.old) }
{
    let reference = frame::reference_to(frame::LEAF, n as usize);
    key_in(keys, words, f, n, tag);
    link_gap(words, keys, f, gap, reference, reference);
    write_at(words, keys, f, n, tag.len() as u32, gap, total);
}

// The words of leaf `n` all 0.
fn clear_at(words: &mut [u32], keys: &[u8], f: Frame, n: u32)
    requires { FrameOf f words.old keys.now × (in_pool f (leaf_place n) ≡ true) }
    ensures { words.new ≡ put_at f words.old (leaf_place n) (replicate leaf_size 0) }
{
    let start = leaf_start(words, keys, f, n);
    let end = start + LEAF_WORDS;
    words[start..end].fill(0);
}

// Its key bytes all 0.
fn key_out(keys: &mut [u8], words: &[u32], f: Frame, n: u32)
    requires { FrameOf f words.now keys.old × (in_pool f (leaf_place n) ≡ true) }
    ensures { keys.new ≡ key_out f n keys.old }
{
    let start = key_start(words, keys, f, n);
    let end = start + f.form.limit as usize;
    keys[start..end].fill(0);
}

// Leaf `n` taken out from between its neighbours, and cleared.
pub fn leaf_out(words: &mut [u32], keys: &mut [u8], f: Frame, n: u32, gap: Gap)
    requires { (FrameOf f words.old keys.old × (in_pool f (leaf_place n) ≡ true)) × (LeafOrEnd f gap.previous × LeafOrEnd f gap.next) }
    ensures { (words.new ≡ leaf_out f n gap.previous gap.next words.old) × (keys.new ≡ key_out f n keys.old) }
{
    key_out(keys, words, f, n);
    link_gap(words, keys, f, gap, gap.next, gap.previous);
    clear_at(words, keys, f, n);
}

// Another total for leaf `n`.
pub fn set_total_at(words: &mut [u32], keys: &[u8], f: Frame, n: u32, total: u64)
    requires { FrameOf f words.old keys.now × (in_pool f (leaf_place n) ≡ true) }
    ensures { words.new ≡ total_at f n total words.old }
{
    let start = leaf_start(words, keys, f, n);
    let end = start + LEAF_WORDS;
    leaf_node::set_total(&mut words[start..end], total);
}
