// Where the new leaf goes, or why it cannot; all of it found by reading.
ghost use Rattle.std.specs.Prelude.{◌≡◌, true, ◌<◌, ◌+◌, ◌%◌, ltb};
ghost use Rattle.frames.specs.Kind.{children_of};
ghost use Rattle.frames.specs.Place.{place_at, in_pool, record_at};
ghost use Rattle.records.specs.Words.{child_count};
ghost use Rattle.art.specs.Stores.{leaf_place};
ghost use Rattle.range.specs.Range.{after_first};
ghost use Rattle.points.specs.There.{InnerFitsAt, PointThere};
ghost use Rattle.insert.specs.Plan.{into_choice, fork_choice, gap_at, gap_end, new_plan, site_plan, leaf_plan, point_plan, plan_of};

use frames::block::Block;
use frames::{frame, kind};
use points::insert_point::{Point, Up};
use points::{insert_point, places};
use pools::pools::{lowest_free, smallest_free};
use records::leaf_node;
use refusals::Refusal;
use writes::leaf_node::Gap;

// What becomes of the tree. Records go by their references.
#[derive(Clone, Copy)]
pub enum Site {
    Root, // the first tag
    Add(u32, u8), // a child more, in a record that has room
    Grow(Up, u32, u32, u8), // a full record moved into a larger one, with a child more
    Fork(Up, u32, u32, u32, usize, usize), // a new branching over a record or leaf: below, new, a leaf below, depth, bytes that agree
}

// What insert does.
#[derive(Clone, Copy)]
pub enum Plan {
    Over(u32), // another total for the leaf
    New(Site, u32, Gap), // a new leaf, by its number
}

// Whether a record has room for a child.
fn has_room(block: &Block, reference: u32) -> bool
    requires { InnerFitsAt block.now.frame block.now.words.now (place_at reference) }
    ensures { result ≡ ltb (child_count (record_at block.now.frame block.now.words.now (place_at reference))) (children_of (reference % 8)) }
{
    let row = kind::row_of(reference % 8);
    places::children_at(block, reference) < row.children
}

// A child more for a record: in place, or in a larger record, if one is free.
fn into_choice(block: &Block, up: Up, reference: u32, byte: u8) -> Option<Site>
    requires { InnerFitsAt block.now.frame block.now.words.now (place_at reference) }
    ensures { result ≡ into_choice block.now.frame block.now.words.now up reference byte }
{
    if has_room(block, reference) {
        return Some(Site::Add(reference, byte));
    }
    let (k, n) = smallest_free(block, reference % 8 + 1)?;
    Some(Site::Grow(up, reference, frame::reference_to(k, n), byte))
}

// A branching over a record or leaf, if a record is free for it.
fn fork_choice(block: &Block, up: Up, reference: u32, leaf: u32, d: usize, c: usize) -> Option<Site>
    ensures { result ≡ fork_choice block.now.frame block.now.words.now up reference leaf d c }
{
    let (k, n) = smallest_free(block, 1)?;
    Some(Site::Fork(up, reference, frame::reference_to(k, n), leaf, d, c))
}

// The place in the list before a leaf.
fn gap_at(block: &Block, n: u32) -> Gap
    requires { in_pool block.now.frame (leaf_place n) ≡ true }
    ensures { result ≡ gap_at block.now.frame block.now.words.now n }
{
    let next = frame::reference_to(frame::LEAF, n as usize);
    Gap {
        previous: leaf_node::previous(places::leaf_at(block, n)),
        next: next,
    }
}

// The place after the last.
fn gap_end(block: &Block) -> Gap
    ensures { result ≡ gap_end block.now.words.now }
{
    Gap {
        previous: block.trailer_word(frame::LAST),
        next: 0,
    }
}

// A new leaf at a site, in the list before the first leaf whose tag is not below.
fn new_plan(block: &Block, tag: &[u8], site: Site, leaf: u32) -> Result<Plan, Refusal>
    ensures { result ≡ new_plan block.now.frame block.now.words.now site leaf (after_first block.now.frame block.now.words.now block.now.keys.now tag.now) }
{
    match range::after_first(block, tag) {
        Ok(next) => Ok(Plan::New(site, leaf, gap_at(block, next.number))),
        Err(Refusal::Missing) => Ok(Plan::New(site, leaf, gap_end(block))),
        Err(_) => Err(Refusal::Damaged),
    }
}

// The same where there is a site.
fn site_plan(block: &Block, tag: &[u8], leaf: u32, choice: Option<Site>) -> Result<Plan, Refusal>
    ensures { result ≡ site_plan block.now.frame block.now.words.now block.now.keys.now tag.now leaf choice }
{
    let site = choice.ok_or(Refusal::NoRecord)?;
    new_plan(block, tag, site, leaf)
}

// The same where there is a free leaf.
fn leaf_plan(block: &Block, tag: &[u8], choice: Option<Site>) -> Result<Plan, Refusal>
    ensures { result ≡ leaf_plan block.now.frame block.now.words.now block.now.keys.now tag.now choice }
{
    let n = lowest_free(block, frame::LEAVES);
    if n < block.frame.caps[frame::LEAVES] {
        return site_plan(block, tag, n as u32, choice);
    }
    Err(Refusal::NoLeaf)
}

// The plan at a point.
fn point_plan(block: &Block, tag: &[u8], p: Point) -> Result<Plan, Refusal>
    requires { PointThere block.now.frame block.now.words.now block.now.keys.now tag.now p }
    ensures { result ≡ point_plan block.now.frame block.now.words.now block.now.keys.now tag.now p }
{
    match p {
        Point::Holds(_, _, leaf) => Ok(Plan::Over(leaf)),
        Point::Clash => Err(Refusal::Clash),
        Point::Into(up, reference, byte) => {
            let choice = into_choice(block, up, reference, byte);
            leaf_plan(block, tag, choice)
        }
        Point::Fork(up, reference, leaf, d, c) => {
            let choice = fork_choice(block, up, reference, leaf, d, c);
            leaf_plan(block, tag, choice)
        }
        Point::Broken => Err(Refusal::Damaged),
    }
}

// The plan of an insert.
pub fn plan_insert(block: &Block, tag: &[u8]) -> Result<Plan, Refusal>
    ensures { result ≡ plan_of block.now.frame block.now.words.now block.now.keys.now tag.now }
{
    let root = block.trailer_word(frame::ROOT);
    if root == 0 {
        return leaf_plan(block, tag, Some(Site::Root));
    }
    let p = insert_point::search_for_insert_point(block, tag, root);
    point_plan(block, tag, p)
}
