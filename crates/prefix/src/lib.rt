// The prefix of an inner record: the run of bytes that every tag below it shares from the record's depth on. A record stores its full length and
// its first eight bytes. The two lengths are two measures, counted apart: `stored_len` is the only way from the one to the other.
#![tactic(auto)]

pub mod lookup; // comparing a prefix with a tag in a walk
pub mod header; // the prefix of a run, split and merged

ghost use Rattle.std.specs.Prelude.{◌≡◌};
ghost use Rattle.prefix.specs.Run.{capped};

// How many bytes the whole prefix has.
#[derive(Clone, Copy)]
pub struct FullLen(pub u32);

// How many of them are stored.
#[derive(Clone, Copy)]
pub struct StoredLen(pub u32);

// The stored bytes stand at the front, one a number, and 0 stands after them.
#[derive(Clone, Copy)]
pub struct Prefix {
    pub full: FullLen,
    pub stored: [u32; 8],
}

// The capping rule.
pub fn stored_len(full: FullLen) -> StoredLen
    ensures { result.0 ≡ capped full.0 }
{
    let n = full.0;
    if n <= 8 { StoredLen(n) } else { StoredLen(8) }
}
