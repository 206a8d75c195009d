// The body of kinds 1 and 2, written: k places for key bytes, k for references, n of each used.
ghost use Rattle.std.specs.Prelude.{◌≡◌, true, ◌≤◌, ◌<◌, ◌+◌, length, replicate};
ghost use Rattle.lists.specs.Scan.{is, first, how_many, nonzero};
ghost use Rattle.lists.specs.Part.{between};
ghost use Rattle.records.specs.Own.{sorted_ok};
ghost use Rattle.records.specs.Row.{direct_row};
ghost use Rattle.edits.specs.Change.{Needs};
ghost use Rattle.edits.specs.Body.{sorted_add, sorted_remove, sorted_replace, sorted_change, sorted_spread, sorted_body};

use super::representation::Change;
use frames::kind::BYTES;
use lists::{edit, scan};

// A child put in before the first whose byte is higher.
fn sorted_add(body: &mut [u32], k: usize, n: usize, byte: u32, reference: u32)
    requires { (n < k) × (length body.old ≡ k + k) }
    ensures { body.new ≡ sorted_add k body.old n byte reference }
{
    let i = scan::first_at_least(&body[0..n], byte);
    let e = k + k;
    edit::shift_in(&mut body[0..k], i, byte);
    edit::shift_in(&mut body[k..e], i, reference);
}

// The child for a byte taken out.
fn sorted_remove(body: &mut [u32], k: usize, n: usize, byte: u32)
    requires { ((n ≤ k) × (length body.old ≡ k + k)) × (first (is byte) (between body.old 0 n) < n) }
    ensures { body.new ≡ sorted_remove k body.old n byte }
{
    let i = scan::first_equal(&body[0..n], byte);
    let e = k + k;
    edit::shift_out(&mut body[0..k], i);
    edit::shift_out(&mut body[k..e], i);
}

// Another reference for the child of a byte.
fn sorted_replace(body: &mut [u32], k: usize, n: usize, byte: u32, reference: u32)
    requires { ((n ≤ k) × (length body.old ≡ k + k)) × (first (is byte) (between body.old 0 n) < n) }
    ensures { body.new ≡ sorted_replace k body.old n byte reference }
{
    let i = scan::first_equal(&body[0..n], byte);
    let at = k + i;
    body[at] = reference;
}

// A change of the children, by its cases.
pub fn sorted_change(body: &mut [u32], k: usize, n: usize, byte: u32, change: Change)
    requires { ((n ≤ k) × (length body.old ≡ k + k)) × Needs change (n < k) (first (is byte) (between body.old 0 n) < n) }
    ensures { body.new ≡ sorted_change k body.old n byte change }
{
    match change {
        Change::Add(reference) => sorted_add(body, k, n, byte, reference),
        Change::Remove => sorted_remove(body, k, n, byte),
        Change::Replace(reference) => sorted_replace(body, k, n, byte, reference),
    }
}

// The references by their bytes: a place for each, those of the children filled.
pub fn sorted_spread(body: &[u32], k: usize, n: usize) -> [u32; BYTES]
    requires { ((n ≤ k) × (length body.now ≡ k + k)) × (sorted_ok k body.now n ≡ true) }
    ensures { result ≡ sorted_spread k body.now n }
{
    let mut places = [0u32; BYTES];
    for (i, &byte) in body[0..n].iter().enumerate() {
        places[byte as usize] = body[k + i];
    }
    places
}

// Keys and references of the places, in byte order, into a body that is all 0.
pub fn sorted_fill(body: &mut [u32], k: usize, places: [u32; BYTES])
    requires { (body.old ≡ replicate (k + k) 0) × (how_many nonzero places ≤ k) }
    ensures { body.new ≡ sorted_body k (direct_row places) }
{
    let mut used = 0;
    for (byte, &reference) in places.iter().enumerate() {
        if reference != 0 {
            body[used] = byte as u32;
            body[k + used] = reference;
            used += 1;
        }
    }
}
