// The functions for C. Slices pass as a pointer and a count; include/directory.h says what each call is for.
#![tactic(auto)]

ghost use Rattle.std.specs.Prelude.{[], ◌≡◌};
ghost use Rattle.demands.specs.Calls as calls;
ghost use Rattle.demands.specs.Told.{told_by};
ghost use Rattle.directory_c.specs.Numbers.{lent, lent_two, caps_of, number_as, found_as, leaf_as, station_as, changed, changed_as, tag_start, part_as, Does, Replies};

use delete::answer::Deleted;
use frames::block::Block;
use frames::frame::Caps;
use insert::answer::Inserted;
use refusals::{Refusal, number_in};
use tally::Tally;
use tree::answer::{Facts, Found};

// A leaf's number and total, and the number given back.
#[repr(C)]
#[derive(Clone, Copy)]
pub struct DirectoryFound {
    pub number: u32,
    pub leaf: u32,
    pub total: u64,
}

// The total that a tag had, and the number given back.
#[repr(C)]
#[derive(Clone, Copy)]
pub struct DirectoryChanged {
    pub number: u32,
    pub total: u64,
}

// A leaf's tag length and total, and the number given back.
#[repr(C)]
#[derive(Clone, Copy)]
pub struct DirectoryLeaf {
    pub number: u32,
    pub length: u32,
    pub total: u64,
}

// How many tags begin so, the sum of their totals by its low 64 bits and its carries, and the number given back.
#[repr(C)]
#[derive(Clone, Copy)]
pub struct DirectoryStation {
    pub number: u32,
    pub count: u32,
    pub low: u64,
    pub carries: u64,
}

// A tag as a part of the key bytes; 0 and 0 where it is empty.
#[repr(C)]
#[derive(Clone, Copy)]
pub struct DirectoryPart {
    pub start: u64,
    pub length: u64,
}

fn found(a: Found) -> DirectoryFound
    ensures { result ≡ found_as (told_by (calls.found a)) }
{
    match a {
        Ok(leaf) => DirectoryFound {
            number: 0,
            leaf: leaf.number,
            total: leaf.total,
        },
        Err(refusal) => DirectoryFound {
            number: refusal.number(),
            leaf: 0,
            total: 0,
        },
    }
}

fn facts(a: Result<Facts, Refusal>) -> DirectoryLeaf
    ensures { result ≡ leaf_as (told_by (calls.facts a)) }
{
    match a {
        Ok(facts) => DirectoryLeaf {
            number: 0,
            length: facts.length,
            total: facts.total,
        },
        Err(refusal) => DirectoryLeaf {
            number: refusal.number(),
            length: 0,
            total: 0,
        },
    }
}

#[unsafe(no_mangle)]
pub extern "C" fn directory_start(
    words: &mut [u32],
    keys: &mut [u8],
    c1: u32,
    c2: u32,
    c3: u32,
    c4: u32,
    c5: u32,
) -> u32
    ensures { Does number_as (calls.start 1 (caps_of c1 c2 c3 c4 c5)) (lent_two words.old keys.old) result (lent words.new keys.new []) }
{
    let caps = Caps { c1, c2, c3, c4, c5 };
    number_in(pools::start::start(words, keys, 1, caps))
}

#[unsafe(no_mangle)]
pub extern "C" fn directory_search(words: &[u32], keys: &[u8], tag: &[u8]) -> DirectoryFound
    ensures { Replies found_as (calls.query (calls.search tag.now)) words.now keys.now result }
{
    found(tree::lookup::search(words, keys, tag))
}

#[unsafe(no_mangle)]
pub extern "C" fn directory_prefix_search(words: &[u32], keys: &[u8], tag: &[u8]) -> DirectoryFound
    ensures { Replies found_as (calls.query (calls.prefix_search tag.now)) words.now keys.now result }
{
    found(tree::lookup::prefix_search(words, keys, tag))
}

#[unsafe(no_mangle)]
pub extern "C" fn directory_minimum(words: &[u32], keys: &[u8]) -> DirectoryFound
    ensures { Replies found_as (calls.query calls.minimum) words.now keys.now result }
{
    found(tree::minmax::minimum(words, keys))
}

#[unsafe(no_mangle)]
pub extern "C" fn directory_maximum(words: &[u32], keys: &[u8]) -> DirectoryFound
    ensures { Replies found_as (calls.query calls.maximum) words.now keys.now result }
{
    found(tree::minmax::maximum(words, keys))
}

#[unsafe(no_mangle)]
pub extern "C" fn directory_next_leaf(words: &[u32], keys: &[u8], leaf: u32) -> DirectoryFound
    ensures { Replies found_as (calls.query (calls.next_leaf leaf)) words.now keys.now result }
{
    found(leaves::next_leaf(words, keys, leaf))
}

#[unsafe(no_mangle)]
pub extern "C" fn directory_leaf_facts(words: &[u32], keys: &[u8], leaf: u32) -> DirectoryLeaf
    ensures { Replies leaf_as (calls.query (calls.leaf_facts leaf)) words.now keys.now result }
{
    facts(leaves::leaf_facts(words, keys, leaf))
}

// Where the key bytes of a leaf begin.
fn tag_start(words: &[u32], keys: &[u8], leaf: u32) -> u64
    ensures { result ≡ tag_start words.now keys.now leaf }
{
    match Block::try_new(words, keys) {
        Ok(block) => leaf as u64 * block.frame.form.limit as u64,
        Err(_) => 0,
    }
}

#[unsafe(no_mangle)]
pub extern "C" fn directory_leaf_tag(words: &[u32], keys: &[u8], leaf: u32) -> DirectoryPart
    ensures { Replies (part_as words.now keys.now leaf) (calls.query (calls.leaf_tag leaf)) words.now keys.now result }
{
    let tag = leaves::leaf_tag(words, keys, leaf);
    let n = tag.len();
    if n == 0 {
        return DirectoryPart {
            start: 0,
            length: 0,
        };
    }
    DirectoryPart {
        start: tag_start(words, keys, leaf),
        length: n as u64,
    }
}

#[unsafe(no_mangle)]
pub extern "C" fn directory_check(words: &[u32], keys: &[u8], scratch: &mut [u8]) -> u32
    ensures { Does number_as (calls.ask calls.check) (lent words.now keys.now scratch.old) result (lent words.now keys.now scratch.new) }
{
    number_in(whole::check::check(words, keys, scratch))
}

#[unsafe(no_mangle)]
pub extern "C" fn directory_first_at_or_after(
    words: &[u32],
    keys: &[u8],
    scratch: &mut [u8],
    tag: &[u8],
) -> DirectoryFound
    ensures { Does found_as (calls.ask (calls.first_at_or_after tag.now)) (lent words.now keys.now scratch.old) result (lent words.now keys.now scratch.new) }
{
    found(range::first_at_or_after(words, keys, scratch, tag))
}

fn station(a: Result<Tally, Refusal>) -> DirectoryStation
    ensures { result ≡ station_as (told_by (calls.totalled a)) }
{
    match a {
        Ok(t) => DirectoryStation {
            number: 0,
            count: t.count,
            low: t.low,
            carries: t.carries as u64,
        },
        Err(refusal) => DirectoryStation {
            number: refusal.number(),
            count: 0,
            low: 0,
            carries: 0,
        },
    }
}

#[unsafe(no_mangle)]
pub extern "C" fn directory_station_total(
    words: &[u32],
    keys: &[u8],
    scratch: &mut [u8],
    tag: &[u8],
) -> DirectoryStation
    ensures { Does station_as (calls.ask (calls.station_total tag.now)) (lent words.now keys.now scratch.old) result (lent words.now keys.now scratch.new) }
{
    station(stations::station_total(words, keys, scratch, tag))
}

fn changed(number: u32, total: u64) -> DirectoryChanged
    ensures { result ≡ changed number total }
{
    DirectoryChanged {
        number: number,
        total: total,
    }
}

fn insert_change(a: Inserted) -> DirectoryChanged
    ensures { result ≡ changed_as (told_by (calls.inserted a)) }
{
    match a {
        Ok(old) => changed(0, old.unwrap_or(0)),
        Err(refusal) => changed(refusal.number(), 0),
    }
}

#[unsafe(no_mangle)]
pub extern "C" fn directory_insert(
    words: &mut [u32],
    keys: &mut [u8],
    scratch: &mut [u8],
    tag: &[u8],
    total: u64,
) -> DirectoryChanged
    ensures { Does changed_as (calls.edit (calls.insert tag.now total)) (lent words.old keys.old scratch.old) result (lent words.new keys.new scratch.new) }
{
    insert_change(insert::insert::insert(words, keys, scratch, tag, total))
}

fn delete_change(a: Deleted) -> DirectoryChanged
    ensures { result ≡ changed_as (told_by (calls.deleted a)) }
{
    match a {
        Ok(total) => changed(0, total),
        Err(refusal) => changed(refusal.number(), 0),
    }
}

#[unsafe(no_mangle)]
pub extern "C" fn directory_delete(
    words: &mut [u32],
    keys: &mut [u8],
    scratch: &mut [u8],
    tag: &[u8],
) -> DirectoryChanged
    ensures { Does changed_as (calls.edit (calls.delete tag.now)) (lent words.old keys.old scratch.old) result (lent words.new keys.new scratch.new) }
{
    delete_change(delete::delete::delete(words, keys, scratch, tag))
}
