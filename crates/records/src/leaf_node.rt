// Leaves: six words, and the key bytes of the tag.
ghost use Rattle.std.specs.Prelude.{◌≡◌, ◌<◌, ◌^◌, length};
ghost use Rattle.frames.specs.Kind.{leaf_size};
ghost use Rattle.records.specs.Words.{used_as, tag_length, previous_leaf, next_leaf_word};
ghost use Rattle.records.specs.Own.{leaf_ok, total_of};

use frames::frame::num;
use lists::scan;

// The words of a leaf by their numbers: 1, or 0 where it is free; its tag's length; the leaf before it and the leaf after it; its total's halves.
const USED: usize = 0;

const LENGTH: usize = 1;

const PREVIOUS: usize = 2;

const NEXT: usize = 3;

const LOW: usize = 4;

const HIGH: usize = 5;

// Whether it is in use: 1, and 0 where it is free. In damaged words it may be any number.
pub fn used_as(rec: &[u32]) -> u32
    requires { length rec.now ≡ leaf_size }
    ensures { result ≡ used_as rec.now }
{
    rec[USED]
}

// How many bytes its tag has.
pub fn tag_len(rec: &[u32]) -> usize
    requires { length rec.now ≡ leaf_size }
    ensures { (result ≡ tag_length rec.now) × (result < 2 ^ 32) }
{
    num(rec, LENGTH)
}

// The reference of the leaf before it, 0 for the first.
pub fn previous(rec: &[u32]) -> u32
    requires { length rec.now ≡ leaf_size }
    ensures { result ≡ previous_leaf rec.now }
{
    rec[PREVIOUS]
}

// The reference of the leaf after it, 0 for the last.
pub fn next(rec: &[u32]) -> u32
    requires { length rec.now ≡ leaf_size }
    ensures { result ≡ next_leaf_word rec.now }
{
    rec[NEXT]
}

// A leaf's own rule, with its key bytes, as many as the form's limit.
pub fn leaf_ok(limit: usize, rec: &[u32], key: &[u8]) -> bool
    requires { (length rec.now ≡ leaf_size) × (length key.now ≡ limit) }
    ensures { result ≡ leaf_ok limit rec.now key.now }
{
    let n = tag_len(rec);
    if n <= limit {
        let rest = scan::bytes_zero(&key[n..limit]);
        (rec[USED] == 1) & rest
    } else {
        false
    }
}

// The total, from its low and high half.
pub fn total_of(rec: &[u32]) -> u64
    requires { length rec.now ≡ leaf_size }
    ensures { result ≡ total_of rec.now }
{
    let low = num(rec, LOW);
    let high = num(rec, HIGH);
    low as u64 + high as u64 * 4294967296
}
