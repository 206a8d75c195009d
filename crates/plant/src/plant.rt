// The memory that is lent, and the calls on it. Scratch is lent for one call, so each call that wants it has its own.
ghost use Rattle.plant.specs.Noted.{Noted};

use super::refusal::{Refusal, done};
use directory_c::{DirectoryChanged, DirectoryStation};

// Memory for 8 tags, whatever they are: capacities 8, 2, 0, 0 and 8, so 8 × 19 + 2 × 43 + 8 × 6 + 16 words, 64 key bytes a tag, and a scratch byte a record.
pub const TAGS: u32 = 8;

pub const WORDS: usize = 302;

pub const KEYS: usize = 512;

pub const SCRATCH: usize = 18;

// Puts a total in, or over the one that is held: once that is done a search gives it, and what is held for other tags is as it was. So it is in any memory, and not
// in a plant's alone.
fn note(words: &mut [u32], keys: &mut [u8], tag: &[u8], total: u64) -> DirectoryChanged
    ensures { Noted words.old keys.old tag.now total result words.new keys.new }
{
    let mut scratch = [0; SCRATCH];
    directory_c::directory_insert(words, keys, &mut scratch, tag, total)
}

#[derive(Drop)]
pub struct Plant {
    words: [u32; WORDS],
    keys: [u8; KEYS],
}

impl Plant {
    // Memory with no directory in it.
    pub fn new() -> Self {
        Plant {
            words: [0; WORDS],
            keys: [0; KEYS],
        }
    }

    pub fn start(&mut self) -> Result<(), Refusal> {
        let number = directory_c::directory_start(
            &mut self.words,
            &mut self.keys,
            8,
            2,
            0,
            0,
            TAGS,
        );
        done(number, ())
    }

    // Answers the total that the tag had.
    pub fn insert(&mut self, tag: &str, total: u64) -> Result<u64, Refusal> {
        let a = note(&mut self.words, &mut self.keys, tag.as_bytes(), total);
        done(a.number, a.total)
    }

    pub fn delete(&mut self, tag: &str) -> Result<u64, Refusal> {
        let mut scratch = [0; SCRATCH];
        let a = directory_c::directory_delete(
            &mut self.words,
            &mut self.keys,
            &mut scratch,
            tag.as_bytes(),
        );
        done(a.number, a.total)
    }

    pub fn search(&self, tag: &str) -> Result<u64, Refusal> {
        let a = directory_c::directory_search(&self.words, &self.keys, tag.as_bytes());
        done(a.number, a.total)
    }

    pub fn check(&self) -> Result<(), Refusal> {
        let mut scratch = [0; SCRATCH];
        let number = directory_c::directory_check(&self.words, &self.keys, &mut scratch);
        done(number, ())
    }

    // What the tags of a station add up to.
    pub fn station(&self, name: &str) -> Result<DirectoryStation, Refusal> {
        let mut scratch = [0; SCRATCH];
        let a = directory_c::directory_station_total(
            &self.words,
            &self.keys,
            &mut scratch,
            name.as_bytes(),
        );
        done(a.number, a)
    }
}
