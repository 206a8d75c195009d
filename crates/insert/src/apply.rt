// The plan applied. Every record, leaf and reference that a write needs is in the plan, so that nothing is refused here.
ghost use Rattle.std.specs.Prelude.{◌≡◌, ◌<◌};
ghost use Rattle.frames.specs.Frame.{FrameOf};
ghost use Rattle.frames.specs.Place.{place_at};
ghost use Rattle.tree.specs.Seen.{tag_at};
ghost use Rattle.writes.specs.Leaf.{key_in};
ghost use Rattle.writes.specs.Above.{link_up};
ghost use Rattle.insert.specs.Apply.{cut_at, CutOrLeaf, grown, GrowReady, forked, ForkReady, hung, SiteReady, new_words, NewReady};

use super::plan::Site;
use edits::representation::Change;
use frames::block::Block;
use frames::frame;
use frames::frame::Frame;
use points::insert_point::Up;
use pools::links;
use prefix::header;
use tree::seen;
use writes::leaf_node::Gap;
use writes::{above, leaf_node, representation};

// What is below a new branching keeps what is left of its prefix, past `c` bytes and one more; `t` is a tag below it.
fn cut_at(words: &mut [u32], keys: &[u8], f: Frame, below: u32, c: usize, t: &[u8], d: usize)
    requires { FrameOf f words.old keys.now × CutOrLeaf f words.old (place_at below) c t.now d }
    ensures { (words.new ≡ cut_at f (place_at below) c t.now d words.old) × FrameOf f words.new keys.now }
{
    if below % 8 == frame::LEAF {
        return;
    }
    let p = representation::prefix_of(words, keys, f, below);
    let q = header::split(p, c as u32 + 1, t, d);
    representation::set_prefix_at(words, keys, f, below, q);
}

// A branching over what is below, where the tag and a leaf's tag below part; then the record above names it.
fn fork(
    words: &mut [u32],
    keys: &[u8],
    f: Frame,
    tag: &[u8],
    up: Up,
    below: u32,
    new: u32,
    witness: u32,
    d: usize,
    c: usize,
    leaf: u32,
)
    requires { FrameOf f words.old keys.now × (ForkReady f words.old keys.now tag.now up below new witness d c leaf × (0 < leaf)) }
    ensures { (words.new ≡ link_up f up new (forked f below new tag.now (tag_at f words.old keys.now witness) d c leaf words.old)) × FrameOf f words.new keys.now }
{
    let block = Block {
        words,
        keys,
        frame: f,
    };
    let t = seen::tag_at(&block, witness);
    let e = d + c;
    let b = tag[e];
    let o = t[e];
    let p = header::prefix_of(&tag[d..e]);
    cut_at(words, keys, f, below, c, t, d);
    representation::branch_at(words, keys, f, new, p, b, leaf, o, below);
    above::link_up(words, keys, f, up, new);
}

// A full record moved into a larger one, with one child more; then the record above names it.
fn grow(words: &mut [u32], keys: &[u8], f: Frame, up: Up, old: u32, new: u32, byte: u8, leaf: u32)
    requires { FrameOf f words.old keys.now × GrowReady f words.old up old new byte leaf }
    ensures { (words.new ≡ link_up f up new (grown f (place_at old) (place_at new) byte leaf words.old)) × FrameOf f words.new keys.now }
{
    representation::move_at(words, keys, f, old, new);
    representation::change_at(words, keys, f, new, byte, Change::Add(leaf));
    representation::clear_at(words, keys, f, old);
    above::link_up(words, keys, f, up, new);
}

// The tree with the new leaf, by its reference.
fn hang(words: &mut [u32], keys: &[u8], f: Frame, tag: &[u8], site: Site, leaf: u32)
    requires { FrameOf f words.old keys.now × (SiteReady f words.old keys.now tag.now site leaf × (0 < leaf)) }
    ensures { (words.new ≡ hung f keys.now tag.now site leaf words.old) × FrameOf f words.new keys.now }
{
    match site {
        Site::Root => {
            links::set_trailer(words, frame::ROOT, leaf);
            return;
        }
        Site::Add(reference, byte) => {
            representation::change_at(words, keys, f, reference, byte, Change::Add(leaf));
            return;
        }
        Site::Grow(up, old, new, byte) => {
            grow(words, keys, f, up, old, new, byte, leaf);
            return;
        }
        Site::Fork(up, below, new, witness, d, c) => {
            fork(words, keys, f, tag, up, below, new, witness, d, c, leaf);
            return;
        }
    }
}

// All of it: the tree, the leaf with its key bytes and the list, the tag count.
pub fn apply_new(
    words: &mut [u32],
    keys: &mut [u8],
    f: Frame,
    tag: &[u8],
    total: u64,
    site: Site,
    n: u32,
    gap: Gap,
)
    requires { FrameOf f words.old keys.old × NewReady f words.old keys.old tag.now site n gap }
    ensures { (words.new ≡ new_words f keys.old tag.now total site n gap words.old) × (keys.new ≡ key_in f n tag.now keys.old) }
{
    let count = frame::trailer_word(words, frame::TAGS) + 1;
    let leaf = frame::reference_to(frame::LEAF, n as usize);
    hang(words, keys, f, tag, site, leaf);
    leaf_node::leaf_in(words, keys, f, n, tag, gap, total);
    links::set_trailer(words, frame::TAGS, count);
}
