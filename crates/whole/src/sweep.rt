// Every record of the pools in turn: one that was not reached must be blank.
ghost use Rattle.std.specs.Prelude.{◌≡◌, true, ◌≤◌, ◌+◌, ◌*◌};
ghost use Rattle.frames.specs.Place.{place_at, in_pool};
ghost use Rattle.records.specs.View.{blank_at};
ghost use Rattle.whole.specs.Sweep.{swept_at, swept_pool, swept};

use super::marks;
use frames::block::Block;
use frames::kind::LEAF_WORDS;
use frames::{form, frame};
use lists::scan;

// All words of a record, and a leaf's key bytes, are 0.
fn blank_at(block: &Block, reference: u32) -> bool
    requires { in_pool block.now.frame (place_at reference) ≡ true }
    ensures { result ≡ blank_at block.now.frame block.now.words.now block.now.keys.now (place_at reference) }
{
    let start = block.start_at(reference);
    if reference % 8 == frame::LEAF {
        let a = (reference / 8) as usize * block.frame.form.limit as usize;
        let e = a + block.frame.form.limit as usize;
        let z = start + LEAF_WORDS;
        let bytes = scan::bytes_zero(&block.keys[a..e]);
        return scan::all_at_most(&block.words[start..z], 0) & bytes;
    }
    let z = start + form::record_words(block.frame.form, reference % 8);
    scan::all_at_most(&block.words[start..z], 0)
}

// A record was reached, or is blank.
fn swept_at(marks: &[u8], block: &Block, reference: u32) -> bool
    requires { in_pool block.now.frame (place_at reference) ≡ true }
    ensures { result ≡ swept_at block.now.frame block.now.words.now block.now.keys.now marks.now (place_at reference) }
{
    let at = marks::mark_at(&block.frame, reference);
    if marks::is_new(marks, at) {
        return blank_at(block, reference);
    }
    true
}

// So each record of a kind's pool.
fn sweep_pool(marks: &[u8], block: &Block, kind: u32) -> bool
    requires { kind ≤ 5 }
    ensures { result ≡ swept_pool block.now.frame block.now.words.now block.now.keys.now marks.now kind }
{
    for i in 0..block.frame.caps[kind as usize] {
        let reference = frame::reference_to(kind, i);
        if !swept_at(marks, block, reference) {
            return false;
        }
    }
    true
}

// And so each record.
pub fn sweep(marks: &[u8], block: &Block) -> bool
    ensures { result ≡ swept block.now.frame block.now.words.now block.now.keys.now marks.now }
{
    let a = sweep_pool(marks, block, 1);
    let b = sweep_pool(marks, block, 2);
    let c = sweep_pool(marks, block, 3);
    let d = sweep_pool(marks, block, 4);
    let e = sweep_pool(marks, block, frame::LEAF);
    a & b & c & d & e
}
