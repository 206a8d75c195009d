// Records by their references: the words of an inner record and its child count, those of a leaf and its total.
ghost use Rattle.std.specs.Prelude.{◌≡◌, true, ◌%◌, length};
ghost use Rattle.frames.specs.Kind.{leaf_size};
ghost use Rattle.frames.specs.Place.{place_at, in_pool, record_at};
ghost use Rattle.records.specs.Words.{child_count};
ghost use Rattle.records.specs.Own.{InnerFits, total_of};
ghost use Rattle.art.specs.Stores.{leaf_place};
ghost use Rattle.points.specs.There.{InnerFitsAt};

use frames::block::Block;
use frames::kind::LEAF_WORDS;
use frames::{form, frame};
use records::{header, leaf_node};

// The words of an inner record.
pub fn inner_at<'w>(block: &Block<'w, '_>, reference: u32) -> &'w [u32]
    requires { InnerFitsAt block.now.frame block.now.words.now (place_at reference) }
    ensures { (result.now ≡ record_at block.now.frame block.now.words.now (place_at reference)) × InnerFits block.now.frame.form (reference % 8) result.now }
{
    let start = block.start_at(reference);
    let e = start + form::record_words(block.frame.form, reference % 8);
    &block.words[start..e]
}

// How many children it has.
pub fn children_at(block: &Block, reference: u32) -> u32
    requires { InnerFitsAt block.now.frame block.now.words.now (place_at reference) }
    ensures { result ≡ child_count (record_at block.now.frame block.now.words.now (place_at reference)) }
{
    header::child_count(inner_at(block, reference))
}

// The words of a leaf, by its number.
pub fn leaf_at<'w>(block: &Block<'w, '_>, n: u32) -> &'w [u32]
    requires { in_pool block.now.frame (leaf_place n) ≡ true }
    ensures { (result.now ≡ record_at block.now.frame block.now.words.now (leaf_place n)) × (length result.now ≡ leaf_size) }
{
    let start = block.start_at(frame::reference_to(frame::LEAF, n as usize));
    let e = start + LEAF_WORDS;
    &block.words[start..e]
}

// Its total.
pub fn total_at(block: &Block, n: u32) -> u64
    requires { in_pool block.now.frame (leaf_place n) ≡ true }
    ensures { result ≡ total_of (record_at block.now.frame block.now.words.now (leaf_place n)) }
{
    leaf_node::total_of(leaf_at(block, n))
}
