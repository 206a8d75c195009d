// A leaf that was arrived at, read: its tag, as a part of the key bytes.
ghost use Rattle.std.specs.Prelude.{◌≡◌, ◌≤◌};
ghost use Rattle.tree.specs.Seen.{LeafSeen, tag_at, length_at};

use frames::block::Block;
use frames::kind::LEAF_WORDS;
use records::leaf_node;

// How many bytes a leaf's tag has.
fn tag_len(block: &Block, leaf: u32) -> usize
    requires { LeafSeen block.now.frame block.now.words.now block.now.keys.now leaf }
    ensures { (result ≡ length_at block.now.frame block.now.words.now leaf) × (result ≤ block.now.frame.form.limit) }
{
    let start = block.start_at(leaf);
    let e = start + LEAF_WORDS;
    leaf_node::tag_len(&block.words[start..e])
}

// A leaf's tag, as a part of the key bytes.
pub fn tag_at<'k>(block: &Block<'_, 'k>, leaf: u32) -> &'k [u8]
    requires { LeafSeen block.now.frame block.now.words.now block.now.keys.now leaf }
    ensures { result.now ≡ tag_at block.now.frame block.now.words.now block.now.keys.now leaf }
{
    let a = (leaf / 8) as usize * block.frame.form.limit as usize;
    let e = a + tag_len(block, leaf);
    &block.keys[a..e]
}
