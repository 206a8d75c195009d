// The archive that C callers link: each function of `directory_c` under its own name, with its own contract. include/directory.h says what each call is for.
#![tactic(auto)]

ghost use Rattle.std.specs.Prelude.{[]};
ghost use Rattle.demands.specs.Calls as calls;
ghost use Rattle.directory_c.specs.Numbers.{lent, lent_two, caps_of, number_as, found_as, leaf_as, station_as, changed_as, part_as, Does, Replies};

use directory_c::{
    DirectoryChanged, DirectoryFound, DirectoryLeaf, DirectoryPart, DirectoryStation,
};

#[unsafe(no_mangle)]
pub extern "C" fn directory_start(
    words: &mut [u32],
    keys: &mut [u8],
    c1: u32,
    c2: u32,
    c3: u32,
    c4: u32,
    c5: u32,
) -> u32
    ensures { Does number_as (calls.start 1 (caps_of c1 c2 c3 c4 c5)) (lent_two words.old keys.old) result (lent words.new keys.new []) }
{
    directory_c::directory_start(words, keys, c1, c2, c3, c4, c5)
}

#[unsafe(no_mangle)]
pub extern "C" fn directory_search(words: &[u32], keys: &[u8], tag: &[u8]) -> DirectoryFound
    ensures { Replies found_as (calls.query (calls.search tag.now)) words.now keys.now result }
{
    directory_c::directory_search(words, keys, tag)
}

#[unsafe(no_mangle)]
pub extern "C" fn directory_prefix_search(words: &[u32], keys: &[u8], tag: &[u8]) -> DirectoryFound
    ensures { Replies found_as (calls.query (calls.prefix_search tag.now)) words.now keys.now result }
{
    directory_c::directory_prefix_search(words, keys, tag)
}

#[unsafe(no_mangle)]
pub extern "C" fn directory_minimum(words: &[u32], keys: &[u8]) -> DirectoryFound
    ensures { Replies found_as (calls.query calls.minimum) words.now keys.now result }
{
    directory_c::directory_minimum(words, keys)
}

#[unsafe(no_mangle)]
pub extern "C" fn directory_maximum(words: &[u32], keys: &[u8]) -> DirectoryFound
    ensures { Replies found_as (calls.query calls.maximum) words.now keys.now result }
{
    directory_c::directory_maximum(words, keys)
}

#[unsafe(no_mangle)]
pub extern "C" fn directory_next_leaf(words: &[u32], keys: &[u8], leaf: u32) -> DirectoryFound
    ensures { Replies found_as (calls.query (calls.next_leaf leaf)) words.now keys.now result }
{
    directory_c::directory_next_leaf(words, keys, leaf)
}

#[unsafe(no_mangle)]
pub extern "C" fn directory_leaf_facts(words: &[u32], keys: &[u8], leaf: u32) -> DirectoryLeaf
    ensures { Replies leaf_as (calls.query (calls.leaf_facts leaf)) words.now keys.now result }
{
    directory_c::directory_leaf_facts(words, keys, leaf)
}

#[unsafe(no_mangle)]
pub extern "C" fn directory_leaf_tag(words: &[u32], keys: &[u8], leaf: u32) -> DirectoryPart
    ensures { Replies (part_as words.now keys.now leaf) (calls.query (calls.leaf_tag leaf)) words.now keys.now result }
{
    directory_c::directory_leaf_tag(words, keys, leaf)
}

#[unsafe(no_mangle)]
pub extern "C" fn directory_check(words: &[u32], keys: &[u8], scratch: &mut [u8]) -> u32
    ensures { Does number_as (calls.ask calls.check) (lent words.now keys.now scratch.old) result (lent words.now keys.now scratch.new) }
{
    directory_c::directory_check(words, keys, scratch)
}

#[unsafe(no_mangle)]
pub extern "C" fn directory_first_at_or_after(
    words: &[u32],
    keys: &[u8],
    scratch: &mut [u8],
    tag: &[u8],
) -> DirectoryFound
    ensures { Does found_as (calls.ask (calls.first_at_or_after tag.now)) (lent words.now keys.now scratch.old) result (lent words.now keys.now scratch.new) }
{
    directory_c::directory_first_at_or_after(words, keys, scratch, tag)
}

#[unsafe(no_mangle)]
pub extern "C" fn directory_station_total(
    words: &[u32],
    keys: &[u8],
    scratch: &mut [u8],
    tag: &[u8],
) -> DirectoryStation
    ensures { Does station_as (calls.ask (calls.station_total tag.now)) (lent words.now keys.now scratch.old) result (lent words.now keys.now scratch.new) }
{
    directory_c::directory_station_total(words, keys, scratch, tag)
}

#[unsafe(no_mangle)]
pub extern "C" fn directory_insert(
    words: &mut [u32],
    keys: &mut [u8],
    scratch: &mut [u8],
    tag: &[u8],
    total: u64,
) -> DirectoryChanged
    ensures { Does changed_as (calls.edit (calls.insert tag.now total)) (lent words.old keys.old scratch.old) result (lent words.new keys.new scratch.new) }
{
    directory_c::directory_insert(words, keys, scratch, tag, total)
}

#[unsafe(no_mangle)]
pub extern "C" fn directory_delete(
    words: &mut [u32],
    keys: &mut [u8],
    scratch: &mut [u8],
    tag: &[u8],
) -> DirectoryChanged
    ensures { Does changed_as (calls.edit (calls.delete tag.now)) (lent words.old keys.old scratch.old) result (lent words.new keys.new scratch.new) }
{
    directory_c::directory_delete(words, keys, scratch, tag)
}
