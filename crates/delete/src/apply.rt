// The plan applied. Every record, leaf and reference that a write needs is in the plan, so that nothing is refused here.
ghost use Rattle.std.specs.Prelude.{◌≡◌, ◌<◌};
ghost use Rattle.frames.specs.Frame.{FrameOf};
ghost use Rattle.frames.specs.Place.{place_at};
ghost use Rattle.points.specs.There.{InnerFitsAt};
ghost use Rattle.writes.specs.Leaf.{key_out};
ghost use Rattle.writes.specs.Above.{link_up};
ghost use Rattle.delete.specs.Apply.{joined_at, JoinReady, merged, MergeReady, shrunk, ShrinkReady, pruned, CutReady, gone_words, TakeReady};

use super::plan::Cut;
use edits::representation::Change;
use frames::frame;
use frames::frame::Frame;
use points::insert_point::Up;
use pools::links;
use prefix::header;
use writes::leaf_node::Gap;
use writes::{above, leaf_node, representation};

// The one child left takes over the record's prefix and the byte to it; a leaf has no prefix.
fn join_at(words: &mut [u32], keys: &[u8], f: Frame, reference: u32, child: u32, byte: u32)
    requires { FrameOf f words.old keys.now × (InnerFitsAt f words.old (place_at reference) × (JoinReady f words.old (place_at child) × (byte < 256))) }
    ensures { (words.new ≡ joined_at f (place_at reference) (place_at child) byte words.old) × FrameOf f words.new keys.now }
{
    if child % 8 == frame::LEAF {
        return;
    }
    let p = representation::prefix_of(words, keys, f, reference);
    let q = representation::prefix_of(words, keys, f, child);
    let joined = header::merge(p, byte as u8, q);
    representation::set_prefix_at(words, keys, f, child, joined);
}

// A record with one child left gives way to it; then the record above names the child.
fn merge(words: &mut [u32], keys: &[u8], f: Frame, upper: Up, reference: u32, child: u32, byte: u32)
    requires { FrameOf f words.old keys.now × MergeReady f words.old upper reference child byte }
    ensures { (words.new ≡ link_up f upper child (merged f (place_at reference) (place_at child) byte words.old)) × FrameOf f words.new keys.now }
{
    join_at(words, keys, f, reference, child, byte);
    representation::clear_at(words, keys, f, reference);
    above::link_up(words, keys, f, upper, child);
}

// A record moved into a smaller one, without a child; then the record above names it.
fn shrink(words: &mut [u32], keys: &[u8], f: Frame, upper: Up, old: u32, new: u32, byte: u8)
    requires { FrameOf f words.old keys.now × ShrinkReady f words.old upper old new byte }
    ensures { (words.new ≡ link_up f upper new (shrunk f (place_at old) (place_at new) byte words.old)) × FrameOf f words.new keys.now }
{
    representation::drop_at(words, keys, f, old, new, byte);
    representation::clear_at(words, keys, f, old);
    above::link_up(words, keys, f, upper, new);
}

// The tree without the leaf.
fn prune(words: &mut [u32], keys: &[u8], f: Frame, cut: Cut)
    requires { FrameOf f words.old keys.now × CutReady f words.old cut }
    ensures { (words.new ≡ pruned f cut words.old) × FrameOf f words.new keys.now }
{
    match cut {
        Cut::Root => {
            links::set_trailer(words, frame::ROOT, 0);
            return;
        }
        Cut::Stay(reference, byte) => {
            representation::change_at(words, keys, f, reference, byte, Change::Remove);
            return;
        }
        Cut::Shrink(upper, old, new, byte) => {
            shrink(words, keys, f, upper, old, new, byte);
            return;
        }
        Cut::Merge(upper, reference, child, byte) => {
            merge(words, keys, f, upper, reference, child, byte);
            return;
        }
    }
}

// All of it: the tree, the list and the leaf with its key bytes, the tag count.
pub fn apply_out(words: &mut [u32], keys: &mut [u8], f: Frame, cut: Cut, n: u32, gap: Gap)
    requires { FrameOf f words.old keys.old × TakeReady f words.old cut n gap }
    ensures { (words.new ≡ gone_words f cut n gap words.old) × (keys.new ≡ key_out f n keys.old) }
{
    let count = frame::trailer_word(words, frame::TAGS) - 1;
    prune(words, keys, f, cut);
    leaf_node::leaf_out(words, keys, f, n, gap);
    links::set_trailer(words, frame::TAGS, count);
}
