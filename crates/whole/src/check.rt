// The call: whether a block is sound.
ghost use Rattle.std.specs.Prelude.{◌≡◌, ◌≤◌, length};
ghost use Rattle.whole.specs.Marks.{places_in};
ghost use Rattle.whole.specs.Visit.{way};
ghost use Rattle.whole.specs.Check.{root_way, ended_well, way_well, whole_by, answer, check_of};

use super::well_formed::{Seen, Visit};
use super::{marks, sweep, well_formed};
use frames::block::Block;
use frames::frame;
use refusals::Refusal;

// The way from the root. A path has no more inner records than the longest tag has bytes.
fn from_root(marks: &mut [u8], block: &Block) -> Visit
    ensures { way result marks.new ≡ root_way block.now.frame block.now.words.now block.now.keys.now marks.old }
{
    let root = block.trailer_word(frame::ROOT);
    let s = Seen {
        prev: 0,
        next: block.trailer_word(frame::FIRST),
        count: 0,
    };
    if root == 0 {
        return Some((0, s));
    }
    well_formed::check_record(marks, block, block.frame.form.limit, root, 0, s)
}

// Nothing follows the leaf seen last, which is the list's last, and the count is right.
fn ended_well(words: &[u32], v: Visit) -> bool
    requires { 16 ≤ length words.now }
    ensures { result ≡ ended_well words.now v }
{
    let Some((_, s)) = v else {
        return false;
    };
    let last = frame::trailer_word(words, frame::LAST);
    let tags = frame::trailer_word(words, frame::TAGS);
    (s.next == 0) & (last == s.prev) & (tags as usize == s.count)
}

// Whether the block is sound, with a mark of 0 for each record.
fn whole(marks: &mut [u8], block: &Block) -> bool
    ensures { (result ≡ way_well block.now.frame block.now.words.now block.now.keys.now (root_way block.now.frame block.now.words.now block.now.keys.now marks.old)) × (length marks.new ≡ length marks.old) }
{
    let v = from_root(marks, block);
    let ended = ended_well(block.words, v);
    let swept = sweep::sweep(marks, block);
    ended & swept
}

// Whether the block is sound, whatever the marks were.
fn whole_anew(marks: &mut [u8], block: &Block) -> bool
    requires { length marks.old ≡ places_in block.now.frame }
    ensures { (result ≡ whole_by block.now.frame block.now.words.now block.now.keys.now) × (length marks.new ≡ places_in block.now.frame) }
{
    marks.fill(0);
    whole(marks, block)
}

// The check of a block.
pub fn check(words: &[u32], keys: &[u8], scratch: &mut [u8]) -> Result<(), Refusal>
    ensures { answer result scratch.new ≡ check_of words.now keys.now scratch.old }
{
    let block = Block::try_new(words, keys)?;
    let n = marks::places_in(&block.frame);
    if scratch.len() < n {
        return Err(Refusal::ShortScratch);
    }
    let sound = whole_anew(&mut scratch[0..n], &block);
    scratch[0..n].fill(0);
    if sound {
        return Ok(());
    }
    Err(Refusal::Damaged)
}
