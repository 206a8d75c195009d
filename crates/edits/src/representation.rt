// Inner records of any kind, written. A record is a part of the words, and its body is what follows the form's head.
ghost use Rattle.std.specs.Prelude.{◌≡◌, ◌≤◌, ◌<◌, length, replicate};
ghost use Rattle.lists.specs.Scan.{how_many, nonzero};
ghost use Rattle.frames.specs.Kind.{byte_values, children_of, body_words};
ghost use Rattle.frames.specs.Form.{record_words, Stores};
ghost use Rattle.records.specs.Words.{child_count};
ghost use Rattle.records.specs.Own.{BodyFits, InnerFits, child_of, child_at};
ghost use Rattle.records.specs.Row.{direct_row};
ghost use Rattle.edits.specs.Change.{ref_in, count_in, Needs};
ghost use Rattle.edits.specs.Body.{body_change, body_spread, body_of};
ghost use Rattle.edits.specs.Record.{change_of, spread_of, build_rec};

use super::{header, inner_node_direct, inner_node_indirect, inner_node_sorted};
use frames::form::Form;
use frames::frame::num;
use frames::kind::BYTES;
use frames::{form, kind};
use lists::scan;
use prefix::Prefix;
use records::header::CHILDREN;
use records::representation::body_part;

// What is done to the children of a record, for one byte: a child more, the child taken out, another reference for it.
#[derive(Clone, Copy)]
pub enum Change {
    Add(u32),
    Remove,
    Replace(u32),
}

// What stands for the byte afterwards, 0 where nothing does.
fn reference_in(change: Change) -> u32
    ensures { result ≡ ref_in change }
{
    match change {
        Change::Add(reference) => reference,
        Change::Remove => 0,
        Change::Replace(reference) => reference,
    }
}

// How many of n children there are afterwards.
fn count_in(change: Change, n: u32) -> u32
    requires { (0 < n) × (n ≤ byte_values) }
    ensures { result ≡ count_in change n }
{
    match change {
        Change::Add(_) => n + 1,
        Change::Remove => n - 1,
        Change::Replace(_) => n,
    }
}

// The children of a body changed, of which it has n.
fn body_change(body: &mut [u32], kind: u32, n: usize, byte: u8, change: Change)
    requires { BodyFits kind body.old n × Needs change (n < children_of kind) (0 < child_of kind body.old n byte) }
    ensures { body.new ≡ body_change kind body.old n byte change }
{
    match kind {
        ..=2 => inner_node_sorted::sorted_change(
            body,
            kind::children_of(kind),
            n,
            byte as u32,
            change,
        ),
        3 => inner_node_indirect::indirect_change(body, byte as usize, change),
        _ => inner_node_direct::direct_set(body, byte as usize, reference_in(change)),
    }
}

// The children of a record changed: a child more into one that has room, or a child that there is taken out or replaced.
pub fn change_child(rec: &mut [u32], form: Form, kind: u32, byte: u8, change: Change)
    requires { InnerFits form kind rec.old × Needs change (child_count rec.old < children_of kind) (0 < child_at form kind rec.old byte) }
    ensures { rec.new ≡ change_of form kind rec.old byte change }
{
    let n = num(rec, CHILDREN);
    let h = form::header_of(form);
    let e = form::record_words(form, kind);
    body_change(&mut rec[h..e], kind, n, byte, change);
    rec[CHILDREN] = count_in(change, n as u32);
}

// The references of a body with n children by their bytes.
fn body_spread(body: &[u32], kind: u32, n: usize) -> [u32; BYTES]
    requires { BodyFits kind body.now n }
    ensures { result ≡ body_spread kind body.now n }
{
    match kind {
        ..=2 => inner_node_sorted::sorted_spread(body, kind::children_of(kind), n),
        3 => inner_node_indirect::indirect_spread(body),
        _ => inner_node_direct::direct_spread(body),
    }
}

// The references by their bytes, a place for each.
pub fn spread_of(form: Form, rec: &[u32], kind: u32) -> [u32; BYTES]
    requires { InnerFits form kind rec.now }
    ensures { result ≡ spread_of form kind rec.now }
{
    let n = num(rec, CHILDREN);
    body_spread(body_part(form, rec, kind), kind, n)
}

// The references of the places into a body that is all 0.
fn body_fill(body: &mut [u32], kind: u32, places: [u32; BYTES])
    requires { (((1 ≤ kind) × (kind ≤ 4)) × (body.old ≡ replicate (body_words kind) 0)) × (how_many nonzero places ≤ children_of kind) }
    ensures { body.new ≡ body_of kind (direct_row places) }
{
    match kind {
        ..=2 => inner_node_sorted::sorted_fill(body, kind::children_of(kind), places),
        3 => inner_node_indirect::indirect_fill(body, places),
        _ => inner_node_direct::direct_fill(body, places),
    }
}

// The words of a record of this kind with this prefix and these children, whatever stood there: a new branching, a record that has grown or shrunk.
pub fn build(rec: &mut [u32], form: Form, kind: u32, p: Prefix, places: [u32; BYTES])
    requires { (((1 ≤ kind) × (kind ≤ 4)) × (length rec.old ≡ record_words form kind)) × (Stores form × (how_many nonzero places ≤ children_of kind)) }
    ensures { rec.new ≡ build_rec form kind p (direct_row places) }
{
    let n = scan::count_nonzero(&places);
    let h = form::header_of(form);
    let e = form::record_words(form, kind);
    rec.fill(0);
    body_fill(&mut rec[h..e], kind, places);
    header::set_head(rec, form, kind, n as u32, p);
}
