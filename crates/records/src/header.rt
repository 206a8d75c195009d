// The head of an inner record: kind, child count, full length, stored prefix.
ghost use Rattle.std.specs.Prelude.{◌≡◌, ◌≤◌, ◌<◌, ◌+◌, ◌^◌, length, get_or};
ghost use Rattle.frames.specs.Form.{eight_from, eight_in, stored_of};
ghost use Rattle.records.specs.Words.{child_count, full_length};
ghost use Rattle.records.specs.Own.{head_ok, prefix_at};

use frames::form::Form;
use lists::scan;
use prefix::{FullLen, Prefix};
use std::array;

// The words of a head by their numbers: the kind, or 0 where the record is free; the child count; the full length.
pub const KIND: usize = 0;

pub const CHILDREN: usize = 1;

pub const FULL: usize = 2;

// How many children there are.
pub fn child_count(rec: &[u32]) -> u32
    requires { 3 ≤ length rec.now }
    ensures { result ≡ child_count rec.now }
{
    rec[CHILDREN]
}

// How many bytes the whole prefix has.
pub fn full_len(rec: &[u32]) -> FullLen
    requires { 3 ≤ length rec.now }
    ensures { result.0 ≡ full_length rec.now }
{
    FullLen(rec[FULL])
}

// A word, or 0 past the end.
fn word(s: &[u32], i: usize) -> u32
    ensures { result ≡ get_or s.now i 0 }
{
    s.get(i).copied().unwrap_or(0)
}

// Eight words from `a` on, 0 for those past the end.
fn eight_or_none(s: &[u32], a: usize) -> [u32; 8]
    requires { a < 2 ^ 34 }
    ensures { result ≡ eight_from s.now a }
{
    array::from_fn(|i| word(s, a + i))
}

// The same where all eight are there, in one go.
fn eight(s: &[u32], a: usize) -> [u32; 8]
    requires { a + 8 ≤ length s.now }
    ensures { result ≡ eight_from s.now a }
{
    let mut eight = [0; 8];
    eight.copy_from_slice(&s[a..a + 8]);
    eight
}

// The eight bytes of two words, lowest first.
fn eight_in(w: u32, v: u32) -> [u32; 8]
    ensures { result ≡ eight_in w v }
{
    [
        w % 256,
        w / 256 % 256,
        w / 65536 % 256,
        w / 16777216,
        v % 256,
        v / 256 % 256,
        v / 65536 % 256,
        v / 16777216,
    ]
}

// The eight stored prefix bytes, one a word or four, after the count below.
fn stored_of(form: Form, rec: &[u32]) -> [u32; 8]
    ensures { result ≡ stored_of form rec.now }
{
    let a = 3 + form.counts as usize;
    if form.prefix != 8 {
        let w = word(rec, a);
        let v = word(rec, a + 1);
        return eight_in(w, v);
    }
    if a + 8 <= rec.len() {
        return eight(rec, a);
    }
    eight_or_none(rec, a)
}

// The record's prefix.
pub fn prefix_at(form: Form, rec: &[u32]) -> Prefix
    requires { 3 ≤ length rec.now }
    ensures { result ≡ prefix_at form rec.now }
{
    Prefix {
        full: FullLen(rec[FULL]),
        stored: stored_of(form, rec),
    }
}

// The kind, two children or more, the length, and the stored prefix.
pub fn head_ok(form: Form, rec: &[u32], kind: u32) -> bool
    requires { 3 ≤ length rec.now }
    ensures { result ≡ head_ok form kind rec.now }
{
    let full = FullLen(rec[FULL]);
    let s = prefix::stored_len(full);
    let k = s.0 as usize;
    let stored = stored_of(form, rec);
    let bytes = scan::all_at_most(&stored, 255);
    let rest = scan::all_at_most(&stored[k..8], 0);
    (rec[KIND] == kind) & (2 <= rec[CHILDREN]) & (rec[FULL] <= form.limit) & bytes & rest
}
