// The directory that the commands are put to: its words, its key bytes and the calls on them.
ghost use Rattle.std.specs.Iterator.{at_most};

use super::say::Leaf;
use directory_c::{DirectoryChanged, DirectoryFound};
use frames::frame;

// Room for 256 tags, whatever they are: capacities 256, 64, 16, 5 and 256, so 19 × 256 + 43 × 64 + 315 × 16 + 267 × 5 + 6 × 256 + 16 words, 64 key bytes a leaf,
// and a scratch byte a record.
const TAGS: u32 = 256;

const WORDS: usize = 15543;

const KEYS: usize = 16384;

const SCRATCH: usize = 597;

// The memory of a directory. Scratch is lent for one call, so each that wants it has its own.
#[derive(Drop)]
pub struct Directory {
    pub words: [u32; WORDS],
    pub keys: [u8; KEYS],
}

impl Directory {
    // An empty directory.
    pub fn new() -> Self {
        let mut directory = Directory {
            words: [0; WORDS],
            keys: [0; KEYS],
        };
        directory.reset();
        directory
    }

    // The number of tags.
    pub fn tags(&self) -> u32 {
        frame::trailer_word(&self.words, frame::TAGS)
    }

    // Empty again; the number given back.
    pub fn reset(&mut self) -> u32 {
        directory_c::directory_start(&mut self.words, &mut self.keys, 256, 64, 16, 5, TAGS)
    }

    pub fn insert(&mut self, tag: &[u8], total: u64) -> DirectoryChanged {
        let mut scratch = [0; SCRATCH];
        directory_c::directory_insert(&mut self.words, &mut self.keys, &mut scratch, tag, total)
    }

    pub fn delete(&mut self, tag: &[u8]) -> DirectoryChanged {
        let mut scratch = [0; SCRATCH];
        directory_c::directory_delete(&mut self.words, &mut self.keys, &mut scratch, tag)
    }

    pub fn at_or_after(&self, tag: &[u8]) -> DirectoryFound {
        let mut scratch = [0; SCRATCH];
        directory_c::directory_first_at_or_after(&self.words, &self.keys, &mut scratch, tag)
    }

    pub fn search(&self, tag: &[u8]) -> DirectoryFound {
        directory_c::directory_search(&self.words, &self.keys, tag)
    }

    pub fn prefix_search(&self, tag: &[u8]) -> DirectoryFound {
        directory_c::directory_prefix_search(&self.words, &self.keys, tag)
    }

    pub fn minimum(&self) -> DirectoryFound {
        directory_c::directory_minimum(&self.words, &self.keys)
    }

    pub fn maximum(&self) -> DirectoryFound {
        directory_c::directory_maximum(&self.words, &self.keys)
    }

    pub fn next_leaf(&self, leaf: u32) -> DirectoryFound {
        directory_c::directory_next_leaf(&self.words, &self.keys, leaf)
    }

    // 0 for a sound block.
    pub fn check(&self) -> u32 {
        let mut scratch = [0; SCRATCH];
        directory_c::directory_check(&self.words, &self.keys, &mut scratch)
    }

    // The tag of a leaf; no bytes where there is none.
    pub fn tag(&self, leaf: u32) -> &[u8] {
        let part = directory_c::directory_leaf_tag(&self.words, &self.keys, leaf);
        let from = self.keys.get(part.start as usize..).unwrap_or(&[]);
        from.get(..part.length as usize).unwrap_or(&[])
    }

    pub fn leaf(&self, leaf: u32) -> Leaf<'_> {
        Leaf {
            tag: self.tag(leaf),
            total: directory_c::directory_leaf_facts(&self.words, &self.keys, leaf).total,
        }
    }

    // The leaves from the minimum on along the list, up to as many as there is room for.
    pub fn leaves(&self) -> Leaves<'_> {
        Leaves {
            directory: self,
            at: self.minimum(),
            left: TAGS,
        }
    }
}

// The leaves by their numbers, from the one that was found on.
#[derive(Clone, Copy)]
pub struct Leaves<'a> {
    directory: &'a Directory,
    at: DirectoryFound,
    left: u32,
}

impl Iterator for Leaves<'_> {
    type Item = u32;

    ghost remaining = { λ leaves. at_most leaves.left };

    fn next(&mut self) -> Option<u32> {
        if self.left == 0 || self.at.number != 0 {
            return None;
        }
        let leaf = self.at.leaf;
        self.left -= 1;
        self.at = self.directory.next_leaf(leaf);
        Some(leaf)
    }
}
