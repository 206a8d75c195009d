// Free records: the lowest of a pool, and the smallest kind that has one.
ghost use Rattle.std.specs.Prelude.{◌≡◌, ◌≤◌, ◌<◌};
ghost use Rattle.pools.specs.Pool.{lowest_free, free_kind};

use frames::block::Block;

// The lowest number of a pool whose record's word 0 is 0; the capacity where none is.
pub fn lowest_free(block: &Block, kind: usize) -> usize
    requires { (1 ≤ kind) × (kind ≤ 5) }
    ensures { result ≡ lowest_free block.now.frame block.now.words.now kind }
{
    let mut at = block.frame.starts[kind];
    for n in 0..block.frame.caps[kind] {
        if block.words[at] == 0 {
            return n;
        }
        at += block.frame.sizes[kind];
    }
    block.frame.caps[kind]
}

// The lowest free record of the smallest kind from `kind` on that has one, by kind and number.
pub fn smallest_free(block: &Block, kind: u32) -> Option<(u32, usize)>
    requires { 1 ≤ kind }
    ensures { result ≡ free_kind block.now.frame block.now.words.now kind }
{
    for k in kind..=4 {
        let n = lowest_free(block, k as usize);
        if n < block.frame.caps[k as usize] {
            return Some((k, n));
        }
    }
    None
}
