// The memory that is lent, and the calls on it. Scratch is lent for one call, so each call that wants it has its own.
use directory_c::{DirectoryChanged, DirectoryFound};
use frames::frame;

// Room for 256 leaves and one record of each kind: 19 + 43 + 315 + 267 + 256 × 6 + 16 words, 64 key bytes a leaf, a scratch byte a record.
const WORDS: usize = 2196;

const KEYS: usize = 16384;

const SCRATCH: usize = 260;

#[derive(Drop)]
pub struct Bench {
    words: [u32; WORDS],
    keys: [u8; KEYS],
}

impl Bench {
    // Memory with no directory in it.
    pub fn new() -> Self {
        Bench {
            words: [0; WORDS],
            keys: [0; KEYS],
        }
    }

    // An empty directory with that room.
    pub fn start(&mut self) -> u32 {
        directory_c::directory_start(&mut self.words, &mut self.keys, 1, 1, 1, 1, 256)
    }

    pub fn insert(&mut self, tag: &[u8], total: u64) -> DirectoryChanged {
        let mut scratch = [0; SCRATCH];
        directory_c::directory_insert(&mut self.words, &mut self.keys, &mut scratch, tag, total)
    }

    pub fn delete(&mut self, tag: &[u8]) -> DirectoryChanged {
        let mut scratch = [0; SCRATCH];
        directory_c::directory_delete(&mut self.words, &mut self.keys, &mut scratch, tag)
    }

    pub fn search(&self, tag: &[u8]) -> DirectoryFound {
        directory_c::directory_search(&self.words, &self.keys, tag)
    }

    pub fn check(&self) -> u32 {
        let mut scratch = [0; SCRATCH];
        directory_c::directory_check(&self.words, &self.keys, &mut scratch)
    }

    pub fn minimum(&self) -> DirectoryFound {
        directory_c::directory_minimum(&self.words, &self.keys)
    }

    pub fn next_leaf(&self, leaf: u32) -> DirectoryFound {
        directory_c::directory_next_leaf(&self.words, &self.keys, leaf)
    }

    // The kind of the root, 5 for a leaf, 0 for none.
    pub fn root_kind(&self) -> u32 {
        frame::trailer_word(&self.words, frame::ROOT) % 8
    }
}
