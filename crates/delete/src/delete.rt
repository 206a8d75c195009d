// The call.
ghost use Rattle.std.specs.Prelude.{◌≡◌, List, ℕ};
ghost use Rattle.frames.specs.Frame.{FrameOf};
ghost use Rattle.whole.specs.Sound.{Sound};
ghost use Rattle.delete.specs.Delete.{out, planned, PlanReady, delete_sound, delete_of};

use super::answer::Deleted;
use super::plan::Plan;
use super::{apply, plan};
use frames::block::Block;
use frames::frame::Frame;
use points::places;
use refusals::Refusal;
use whole::check;

// What the plan says. Scratch, whatever it is, stays as it is.
fn carry_out(words: &mut [u32], keys: &mut [u8], f: Frame, p: Result<Plan, Refusal>) -> Deleted
    requires { FrameOf f words.old keys.old × PlanReady f words.old p }
    ensures { (s : List ℕ) → out result words.new keys.new s ≡ planned f words.old keys.old s p }
{
    let Plan { cut, leaf, gap } = p?;
    let old = places::total_at(
        &Block {
            words,
            keys,
            frame: f,
        },
        leaf,
    );
    apply::apply_out(words, keys, f, cut, leaf, gap);
    Ok(old)
}

// On a sound block.
fn delete_sound(words: &mut [u32], keys: &mut [u8], tag: &[u8]) -> Deleted
    requires { Sound words.old keys.old }
    ensures { (s : List ℕ) → out result words.new keys.new s ≡ delete_sound words.old keys.old s tag.now }
{
    let block = Block::new(words, keys);
    let f = block.frame;
    let p = plan::plan_delete(&block, tag);
    carry_out(words, keys, f, p)
}

// Takes a tag out.
pub fn delete(words: &mut [u32], keys: &mut [u8], scratch: &mut [u8], tag: &[u8]) -> Deleted
    ensures { out result words.new keys.new scratch.new ≡ delete_of words.old keys.old scratch.old tag.now }
{
    check::check(words, keys, scratch)?;
    delete_sound(words, keys, tag)
}
