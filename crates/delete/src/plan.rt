// What becomes of the leaf and of the record above it; all of it found by reading.
ghost use Rattle.std.specs.Prelude.{◌≡◌, true, ◌≤◌, ◌%◌};
ghost use Rattle.frames.specs.Place.{place_at, in_pool, record_at};
ghost use Rattle.records.specs.Own.{InnerFits};
ghost use Rattle.records.specs.Row.{row_at};
ghost use Rattle.art.specs.Stores.{leaf_place};
ghost use Rattle.points.specs.There.{InnerFitsAt, UpThere, PointThere};
ghost use Rattle.delete.specs.Plan.{other_entry, merge_cut, shrink_cut, cut_under, cut_of, gap_of, point_plan, plan_of};

use frames::block::Block;
use frames::form::Form;
use frames::{frame, kind};
use points::insert_point::{Point, Up};
use points::{insert_point, places};
use pools::pools::lowest_free;
use records::representation::Entry;
use records::{leaf_node, representation};
use refusals::Refusal;
use writes::leaf_node::Gap;

// What becomes of the tree. Records go by their references.
#[derive(Clone, Copy)]
pub enum Cut {
    Root, // the leaf was the root
    Stay(u32, u8), // the record above loses a child
    Shrink(Up, u32, u32, u8), // it moves into a smaller one, without the child
    Merge(Up, u32, u32, u32), // one child is left, for this byte: it takes the record's place
}

// What delete does: what becomes of the tree, the leaf by its number, and its neighbours.
#[derive(Clone, Copy)]
pub struct Plan {
    pub cut: Cut,
    pub leaf: u32,
    pub gap: Gap,
}

// Of a record's two children the one that is not for the byte.
fn other_entry(form: Form, rec: &[u32], kind: u32, byte: u8) -> Entry
    requires { InnerFits form kind rec.now }
    ensures { result ≡ other_entry byte (row_at form kind rec.now) }
{
    let low = representation::nth_child(form, rec, kind, 0);
    let (b, _) = low?;
    if b == byte as u32 {
        return representation::last_child(form, rec, kind);
    }
    low
}

// One child left: it takes the record's place.
fn merge_cut(block: &Block, upper: Up, reference: u32, byte: u8) -> Cut
    requires { InnerFitsAt block.now.frame block.now.words.now (place_at reference) }
    ensures { result ≡ merge_cut upper reference byte (other_entry byte (row_at block.now.frame.form (reference % 8) (record_at block.now.frame block.now.words.now (place_at reference)))) }
{
    let rec = places::inner_at(block, reference);
    let entry = other_entry(block.frame.form, rec, reference % 8, byte);
    let Some((b, child)) = entry else {
        return Cut::Stay(reference, byte);
    };
    Cut::Merge(upper, reference, child, b)
}

// A record at or below its mark moves to the next smaller kind, where that has a free record.
fn shrink_cut(block: &Block, upper: Up, reference: u32, byte: u8) -> Cut
    requires { (2 ≤ reference % 8) × (reference % 8 ≤ 4) }
    ensures { result ≡ shrink_cut block.now.frame block.now.words.now upper reference byte }
{
    let k = reference % 8 - 1;
    let i = k as usize;
    let n = lowest_free(block, i);
    if n < block.frame.caps[i] {
        return Cut::Shrink(upper, reference, frame::reference_to(k, n), byte);
    }
    Cut::Stay(reference, byte)
}

// The record above the leaf, by how many children it has.
fn cut_under(block: &Block, upper: Up, reference: u32, byte: u8) -> Cut
    requires { InnerFitsAt block.now.frame block.now.words.now (place_at reference) }
    ensures { result ≡ cut_under block.now.frame block.now.words.now upper reference byte }
{
    let n = places::children_at(block, reference);
    if n <= 2 {
        return merge_cut(block, upper, reference, byte);
    }
    let row = kind::row_of(reference % 8);
    if n <= row.mark + 1 {
        return shrink_cut(block, upper, reference, byte);
    }
    Cut::Stay(reference, byte)
}

// What becomes of the record above the leaf: with none above, the tree is empty.
fn cut_of(block: &Block, upper: Up, up: Up) -> Cut
    requires { UpThere block.now.frame block.now.words.now up }
    ensures { result ≡ cut_of block.now.frame block.now.words.now upper up }
{
    match up {
        None => Cut::Root,
        Some((reference, byte)) => cut_under(block, upper, reference, byte),
    }
}

// A leaf's neighbours in the list.
fn gap_of(block: &Block, n: u32) -> Gap
    requires { in_pool block.now.frame (leaf_place n) ≡ true }
    ensures { result ≡ gap_of block.now.frame block.now.words.now n }
{
    let rec = places::leaf_at(block, n);
    Gap {
        previous: leaf_node::previous(rec),
        next: leaf_node::next(rec),
    }
}

// The plan at the point of a tag.
fn point_plan(block: &Block, tag: &[u8], p: Point) -> Result<Plan, Refusal>
    requires { PointThere block.now.frame block.now.words.now block.now.keys.now tag.now p }
    ensures { result ≡ point_plan block.now.frame block.now.words.now p }
{
    match p {
        Point::Holds(upper, up, reference) => {
            let leaf = reference / 8;
            let cut = cut_of(block, upper, up);
            let gap = gap_of(block, leaf);
            Ok(Plan { cut, leaf, gap })
        }
        Point::Clash | Point::Into(_, _, _) | Point::Fork(_, _, _, _, _) => Err(Refusal::Missing),
        Point::Broken => Err(Refusal::Damaged),
    }
}

// The plan of a delete.
pub fn plan_delete(block: &Block, tag: &[u8]) -> Result<Plan, Refusal>
    ensures { result ≡ plan_of block.now.frame block.now.words.now block.now.keys.now tag.now }
{
    let root = block.trailer_word(frame::ROOT);
    if root == 0 {
        return Err(Refusal::Missing);
    }
    let p = insert_point::search_for_insert_point(block, tag, root);
    point_plan(block, tag, p)
}
