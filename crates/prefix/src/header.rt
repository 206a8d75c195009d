// The prefix that a run of bytes has, a prefix cut at its front, and two prefixes with a byte between them made one.
ghost use Rattle.std.specs.Prelude.{◌≡◌, ◌++◌, ◌+◌, ◌≤◌, ◌<◌, ◌^◌, get_or, length};
ghost use Rattle.prefix.specs.Run.{eight, prefix_of, ltrim_of, split_of, push_of, merge_of};

use super::{FullLen, Prefix};
use lists::scan;
use std::array;

// The first eight bytes of a run, and 0 after them.
fn first_eight(run: &[u8]) -> [u32; 8]
    ensures { result ≡ eight run.now }
{
    array::from_fn(|i| u32::from(scan::byte_at(run, i)))
}

// The prefix of a run.
pub fn prefix_of(run: &[u8]) -> Prefix
    requires { length run.now < 2 ^ 32 }
    ensures { result ≡ prefix_of run.now }
{
    let n = run.len() as u32;
    Prefix {
        full: FullLen(n),
        stored: first_eight(run),
    }
}

// The number at `i` of the two runs, one after the other, or 0 past the end.
fn joined_at(s: &[u32], t: &[u32], i: usize) -> u32
    ensures { result ≡ get_or (s.now ++ t.now) i 0 }
{
    if i < s.len() {
        s[i]
    } else {
        t.get(i - s.len()).copied().unwrap_or(0)
    }
}

// The first eight numbers of the two runs, one after the other, and 0 after them.
fn joined(s: &[u32], t: &[u32]) -> [u32; 8]
    ensures { result ≡ eight (s.now ++ t.now) }
{
    array::from_fn(|i| joined_at(s, t, i))
}

// The prefix without its first `n` bytes, where all of it is stored.
fn ltrim_by(p: Prefix, n: u32) -> Prefix
    requires { (n ≤ p.full.0) × (p.full.0 ≤ 8) }
    ensures { result ≡ ltrim_of p n }
{
    let s = super::stored_len(p.full);
    let k = s.0 as usize;
    let a = n as usize;
    let stored = p.stored;
    Prefix {
        full: FullLen(p.full.0 - n),
        stored: joined(&[], &stored[a..k]),
    }
}

// The prefix without its first `n` bytes. One of over eight bytes is filled again from a leaf below, whose tag has it at `depth`.
pub fn split(p: Prefix, n: u32, leaf: &[u8], depth: usize) -> Prefix
    requires { (n ≤ p.full.0) × (depth + p.full.0 ≤ length leaf.now) }
    ensures { result ≡ split_of p n leaf.now depth }
{
    let full = p.full.0;
    if full <= 8 {
        return ltrim_by(p, n);
    }
    let a = depth + n as usize;
    let e = depth + full as usize;
    prefix_of(&leaf[a..e])
}

// The prefix with `len` more bytes, of which these are the first; the stored ones go on after the stored ones.
fn push_prefix(p: Prefix, new: &[u32], len: u32) -> Prefix
    requires { p.full.0 + len < 2 ^ 32 }
    ensures { result ≡ push_of p new.now len }
{
    let held = super::stored_len(p.full);
    let at = held.0 as usize;
    let stored = p.stored;
    Prefix {
        full: FullLen(p.full.0 + len),
        stored: joined(&stored[0..at], new),
    }
}

// The parent's prefix, the child's byte, the child's prefix.
pub fn merge(parent: Prefix, byte: u8, child: Prefix) -> Prefix
    requires { parent.full.0 + child.full.0 < 2 ^ 31 }
    ensures { result ≡ merge_of parent byte child }
{
    let b = [u32::from(byte)];
    let front = push_prefix(parent, &b, 1);
    let s = super::stored_len(child.full);
    let k = s.0 as usize;
    let stored = child.stored;
    push_prefix(front, &stored[0..k], child.full.0)
}
