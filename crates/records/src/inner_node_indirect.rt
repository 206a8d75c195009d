// The body of kind 3: a slot number for each byte, then the references that they name.
ghost use Rattle.std.specs.Prelude.{◌≡◌, ◌≤◌, ◌<◌, ◌+◌, min, length};
ghost use Rattle.lists.specs.Scan.{choose, nonzero};
ghost use Rattle.frames.specs.Kind.{byte_values, slot_places, slot_words};
ghost use Rattle.records.specs.Own.{named, Tallied, indirect_ok, indirect_child};

use frames::frame::num;
use frames::kind::{BYTES, SLOT_ZERO, SLOTS, SLOTTED};
use lists::scan;

// The highest slot number, and the first that is none.
const HIGHEST: u32 = SLOTS as u32;

const PAST: u32 = HIGHEST + 1;

// Counts for 0, for the slot numbers, and for all that are past them.
const TALLIES: usize = SLOTS + 2;

// A slot number, with all those past the last place as one.
fn slot_of(s: u32) -> usize
    ensures { (result ≡ min s (slot_places + 1)) × (result ≤ slot_places + 1) }
{
    s.min(PAST) as usize
}

// How many slots name each place, in one pass; the numbers past the last place count together.
fn tally(slots: &[u32]) -> [u32; TALLIES]
    requires { length slots.now ≡ byte_values }
    ensures { Tallied slots.now result }
{
    let mut t = [0u32; TALLIES];
    for &slot in slots {
        t[slot_of(slot)] += 1;
    }
    t
}

// How many slot numbers a place is to be named by.
fn filled(r: u32) -> u32
    ensures { result ≡ choose (nonzero r) 1 0 }
{
    u32::from(r > 0)
}

// Each filled place is named by one slot number, each empty one by none.
fn places_named(slots: &[u32], refs: &[u32]) -> bool
    requires { (length slots.now ≡ byte_values) × (length refs.now ≡ slot_places) }
    ensures { result ≡ named slots.now 0 refs.now }
{
    let t = tally(slots);
    for (place, &reference) in refs.iter().enumerate() {
        if t[place + 1] != filled(reference) {
            return false;
        }
    }
    true
}

// The body's part of the own rule.
pub fn indirect_ok(body: &[u32], n: usize) -> bool
    requires { length body.now ≡ slot_words }
    ensures { result ≡ indirect_ok body.now n }
{
    let low = scan::all_at_most(&body[0..BYTES], HIGHEST);
    let m = scan::count_nonzero(&body[BYTES..SLOTTED]);
    let ok = places_named(&body[0..BYTES], &body[BYTES..SLOTTED]);
    low & (m == n) & ok
}

// The reference that a byte's slot names, 0 for slot 0.
pub fn indirect_child(body: &[u32], byte: usize) -> u32
    requires { (byte < byte_values) × (length body.now ≡ slot_words) }
    ensures { result ≡ indirect_child body.now byte }
{
    let slot = num(body, byte);
    if slot == 0 {
        return 0;
    }
    if slot <= SLOTS {
        let at = SLOT_ZERO + slot;
        return body[at];
    }
    0
}
