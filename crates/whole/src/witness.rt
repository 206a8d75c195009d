// What is compared of a leaf below a record, its witness: two leaves' tags, and a record's stored bytes with a tag.
ghost use Rattle.std.specs.Prelude.{◌≡◌};
ghost use Rattle.records.specs.Own.{prefix_at};
ghost use Rattle.tree.specs.Arrive.{InnerFitsFrom};
ghost use Rattle.whole.specs.Arrive.{inner_rec};
ghost use Rattle.tree.specs.Seen.{LeafSeen, tag_at};
ghost use Rattle.whole.specs.Witness.{goes_on, stored_agrees};

use frames::block::Block;
use frames::form;
use lists::compare;
use prefix::Prefix;
use records::header;
use tree::seen;

// The tag `t` has the first `e` bytes of `w`, then `byte`.
fn goes_on(w: &[u8], t: &[u8], e: usize, byte: u32) -> bool
    ensures { result ≡ goes_on e w.now byte t.now }
{
    let n = compare::shared_bytes(w, t);
    if e < t.len() {
        return (e <= n) & (t[e] as u32 == byte);
    }
    false
}

// The same of two leaves' tags.
pub fn leaf_goes_on(block: &Block, e: usize, w: u32, byte: u32, t: u32) -> bool
    requires { LeafSeen block.now.frame block.now.words.now block.now.keys.now w × LeafSeen block.now.frame block.now.words.now block.now.keys.now t }
    ensures { result ≡ goes_on e (tag_at block.now.frame block.now.words.now block.now.keys.now w) byte (tag_at block.now.frame block.now.words.now block.now.keys.now t) }
{
    let x = seen::tag_at(block, w);
    let y = seen::tag_at(block, t);
    goes_on(x, y, e, byte)
}

// The tag has the prefix's stored bytes at this depth.
fn stored_agrees(p: Prefix, w: &[u8], depth: usize) -> bool
    ensures { result ≡ stored_agrees depth p w.now }
{
    let n = prefix::stored_len(p.full);
    let k = n.0 as usize;
    if w.len() < depth {
        return 0 == k;
    }
    let stored = p.stored;
    let m = compare::shared_words(&stored[0..k], &w[depth..]);
    m == k
}

// The same of an inner record's prefix and a leaf's tag.
pub fn leaf_agrees(block: &Block, kind: u32, start: usize, depth: usize, leaf: u32) -> bool
    requires { InnerFitsFrom block.now.frame.form block.now.words.now kind start × LeafSeen block.now.frame block.now.words.now block.now.keys.now leaf }
    ensures { result ≡ stored_agrees depth (prefix_at block.now.frame.form (inner_rec block.now.frame.form block.now.words.now kind start)) (tag_at block.now.frame block.now.words.now block.now.keys.now leaf) }
{
    let e = start + form::record_words(block.frame.form, kind);
    let p = header::prefix_at(block.frame.form, &block.words[start..e]);
    let w = seen::tag_at(block, leaf);
    stored_agrees(p, w, depth)
}
