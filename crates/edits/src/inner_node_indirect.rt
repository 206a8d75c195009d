// The body of kind 3, written: a slot number for each byte, then the references that they name.
ghost use Rattle.std.specs.Prelude.{◌≡◌, ◌≤◌, ◌<◌, length, get_or, replicate};
ghost use Rattle.lists.specs.Scan.{is, first, how_many, nonzero};
ghost use Rattle.frames.specs.Kind.{byte_values, slot_places, slot_words};
ghost use Rattle.records.specs.Own.{slot_refs};
ghost use Rattle.records.specs.Row.{direct_row};
ghost use Rattle.edits.specs.Change.{Needs};
ghost use Rattle.edits.specs.Body.{slot_add, slot_remove, slot_replace, slot_change, slot_spread, slot_body};

use super::representation::Change;
use frames::frame::num;
use frames::kind::{BYTES, SLOT_ZERO, SLOTTED};
use lists::scan;
use records::inner_node_indirect::indirect_child;

// A child in the lowest place that is not used.
fn indirect_add(body: &mut [u32], byte: usize, reference: u32)
    requires { ((byte < byte_values) × (length body.old ≡ slot_words)) × (first (is 0) (slot_refs body.old) < slot_places) }
    ensures { body.new ≡ slot_add body.old byte reference }
{
    let s = scan::first_equal(&body[BYTES..SLOTTED], 0);
    let at = BYTES + s;
    body[byte] = s as u32 + 1;
    body[at] = reference;
}

// The child for a byte taken out; its place is left a hole.
fn indirect_remove(body: &mut [u32], byte: usize)
    requires { ((byte < byte_values) × (length body.old ≡ slot_words)) × ((1 ≤ get_or body.old byte 0) × (get_or body.old byte 0 ≤ slot_places)) }
    ensures { body.new ≡ slot_remove body.old byte }
{
    let slot = num(body, byte);
    let hole = SLOT_ZERO + slot;
    body[byte] = 0;
    body[hole] = 0;
}

// Another reference for the child of a byte.
fn indirect_replace(body: &mut [u32], byte: usize, reference: u32)
    requires { ((byte < byte_values) × (length body.old ≡ slot_words)) × ((1 ≤ get_or body.old byte 0) × (get_or body.old byte 0 ≤ slot_places)) }
    ensures { body.new ≡ slot_replace body.old byte reference }
{
    let slot = num(body, byte);
    let at = SLOT_ZERO + slot;
    body[at] = reference;
}

// A change of the children, by its cases.
pub fn indirect_change(body: &mut [u32], byte: usize, change: Change)
    requires { ((byte < byte_values) × (length body.old ≡ slot_words)) × Needs change (first (is 0) (slot_refs body.old) < slot_places) ((1 ≤ get_or body.old byte 0) × (get_or body.old byte 0 ≤ slot_places)) }
    ensures { body.new ≡ slot_change body.old byte change }
{
    match change {
        Change::Add(reference) => indirect_add(body, byte, reference),
        Change::Remove => indirect_remove(body, byte),
        Change::Replace(reference) => indirect_replace(body, byte, reference),
    }
}

// The references by their bytes: a place for each, all nothing, filled from the slots.
pub fn indirect_spread(body: &[u32]) -> [u32; BYTES]
    requires { length body.now ≡ slot_words }
    ensures { result ≡ slot_spread body.now }
{
    let mut places = [0u32; BYTES];
    for (byte, place) in places.iter_mut().enumerate() {
        *place = indirect_child(body, byte);
    }
    places
}

// Not one function with that of kinds 1 and 2, since each turn writes other words.
// Slots and references of the places into a body that is all 0; the slots are numbered in byte order.
pub fn indirect_fill(body: &mut [u32], places: [u32; BYTES])
    requires { (body.old ≡ replicate slot_words 0) × (how_many nonzero places ≤ slot_places) }
    ensures { body.new ≡ slot_body (direct_row places) }
{
    let mut used = 0;
    for (byte, &reference) in places.iter().enumerate() {
        if reference != 0 {
            body[byte] = used as u32 + 1;
            body[BYTES + used] = reference;
            used += 1;
        }
    }
}
