// The call.
ghost use Rattle.std.specs.Prelude.{◌≡◌, true, false, List, ℕ};
ghost use Rattle.frames.specs.Frame.{FrameOf};
ghost use Rattle.frames.specs.Place.{in_pool, record_at};
ghost use Rattle.records.specs.Own.{total_of};
ghost use Rattle.art.specs.Stores.{leaf_place};
ghost use Rattle.whole.specs.Sound.{Sound};
ghost use Rattle.writes.specs.Leaf.{total_at};
ghost use Rattle.insert.specs.Insert.{out, planned, PlanReady, insert_sound, too_long, insert_of};

use super::answer::Inserted;
use super::plan::Plan;
use super::{apply, plan};
use frames::block::Block;
use frames::form;
use frames::frame::Frame;
use points::places;
use refusals::Refusal;
use whole::check;
use writes::leaf_node;

// Another total for a leaf, by its number; gives the one that it had.
fn overwrite(words: &mut [u32], keys: &[u8], f: Frame, n: u32, total: u64) -> u64
    requires { FrameOf f words.old keys.now × (in_pool f (leaf_place n) ≡ true) }
    ensures { (result ≡ total_of (record_at f words.old (leaf_place n))) × (words.new ≡ total_at f n total words.old) }
{
    let old = places::total_at(
        &Block {
            words,
            keys,
            frame: f,
        },
        n,
    );
    leaf_node::set_total_at(words, keys, f, n, total);
    old
}

// What the plan says. Scratch, whatever it is, stays as it is.
fn carry_out(
    words: &mut [u32],
    keys: &mut [u8],
    f: Frame,
    tag: &[u8],
    total: u64,
    p: Result<Plan, Refusal>,
) -> Inserted
    requires { FrameOf f words.old keys.old × PlanReady f words.old keys.old tag.now p }
    ensures { (s : List ℕ) → out result words.new keys.new s ≡ planned f words.old keys.old s tag.now total p }
{
    match p? {
        Plan::Over(leaf) => Ok(Some(overwrite(words, keys, f, leaf / 8, total))),
        Plan::New(site, n, gap) => {
            apply::apply_new(words, keys, f, tag, total, site, n, gap);
            Ok(None)
        }
    }
}

// On a sound block.
fn insert_sound(words: &mut [u32], keys: &mut [u8], tag: &[u8], total: u64) -> Inserted
    requires { Sound words.old keys.old × (too_long words.old keys.old tag.now ≡ false) }
    ensures { (s : List ℕ) → out result words.new keys.new s ≡ insert_sound words.old keys.old s tag.now total }
{
    let block = Block::new(words, keys);
    let f = block.frame;
    let p = plan::plan_insert(&block, tag);
    carry_out(words, keys, f, tag, total, p)
}

// A tag of more bytes than form 1 allows. Every form that is known allows as many, so the block need not be looked at.
fn too_long(words: &[u32], keys: &[u8], tag: &[u8]) -> bool
    ensures { result ≡ too_long words.now keys.now tag.now }
{
    let form = form::form_of(1);
    (form.limit as usize) < tag.len()
}

// Sets the total of a tag.
pub fn insert(
    words: &mut [u32],
    keys: &mut [u8],
    scratch: &mut [u8],
    tag: &[u8],
    total: u64,
) -> Inserted
    ensures { out result words.new keys.new scratch.new ≡ insert_of words.old keys.old scratch.old tag.now total }
{
    if too_long(words, keys, tag) {
        return Err(Refusal::TooLong);
    }
    check::check(words, keys, scratch)?;
    insert_sound(words, keys, tag, total)
}
