// The body of kinds 1 and 2, with k places of which n are used: the bytes in ascending order, and after all places for bytes the references, each in its byte's place.
ghost use Rattle.std.specs.Prelude.{◌≡◌, ◌≤◌, ◌+◌, length};
ghost use Rattle.records.specs.Own.{sorted_ok, sorted_child};
ghost use Rattle.records.specs.Row.{sorted_row, entry_at, entry_from};

use super::representation::Entry;
use lists::scan;

// The body's part of the own rule.
pub fn sorted_ok(body: &[u32], k: usize, n: usize) -> bool
    requires { (n ≤ k) × (length body.now ≡ k + k) }
    ensures { result ≡ sorted_ok k body.now n }
{
    let d = k + n;
    let e = k + k;
    let keys = scan::rising(&body[0..n]);
    let rest = scan::all_at_most(&body[n..k], 0);
    let refs = scan::none_zero(&body[k..d]);
    let last = scan::all_at_most(&body[d..e], 0);
    keys & rest & refs & last
}

// The reference for a byte, 0 where there is none.
pub fn sorted_child(body: &[u32], k: usize, n: usize, byte: u32) -> u32
    requires { (n ≤ k) × (length body.now ≡ k + k) }
    ensures { result ≡ sorted_child k body.now n byte }
{
    let i = scan::first_equal(&body[0..n], byte);
    if i < n {
        let at = k + i;
        body[at]
    } else {
        0
    }
}

// The child at place i of the row.
pub fn sorted_entry(body: &[u32], k: usize, n: usize, i: usize) -> Entry
    requires { (n ≤ k) × (length body.now ≡ k + k) }
    ensures { result ≡ entry_at i (sorted_row k body.now n) }
{
    if i < n {
        let at = k + i;
        Some((body[i], body[at]))
    } else {
        None
    }
}

// The first child at or after a byte.
pub fn sorted_from(body: &[u32], k: usize, n: usize, byte: u32) -> Entry
    requires { (n ≤ k) × (length body.now ≡ k + k) }
    ensures { result ≡ entry_from byte (sorted_row k body.now n) }
{
    let i = scan::first_at_least(&body[0..n], byte);
    sorted_entry(body, k, n, i)
}
