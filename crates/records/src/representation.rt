// Inner records of any kind: a match on the kind, where the crate has a trait. The bodies of kinds 3 and 4 both begin with a word for each byte, which is 0 where the byte has no child; so one
// scan of these words finds a child in either.
ghost use Rattle.std.specs.Prelude.{◌≡◌, ◌≤◌, ltb, length};
ghost use Rattle.lists.specs.Scan.{choose};
ghost use Rattle.frames.specs.Kind.{byte_values, children_of, body_words};
ghost use Rattle.frames.specs.Form.{record_words};
ghost use Rattle.records.specs.Words.{child_count};
ghost use Rattle.records.specs.Own.{body_ok, body_part, inner_ok, BodyFits, InnerFits, child_of, child_at};
ghost use Rattle.records.specs.Row.{body_row, row_at, entry_at, entry_from, last_entry};

use super::{header, inner_node_direct, inner_node_indirect, inner_node_sorted};
use frames::form::Form;
use frames::frame::num;
use frames::kind::BYTES;
use frames::{form, kind};
use lists::scan;

// A child of a row, by its byte and its reference; or none.
pub type Entry = Option<(u32, u32)>;

// A record's body: what follows its head.
pub fn body_part(form: Form, rec: &[u32], kind: u32) -> &[u32]
    requires { ((1 ≤ kind) × (kind ≤ 4)) × (length rec.now ≡ record_words form kind) }
    ensures { result.now ≡ body_part form kind rec.now }
{
    &rec[form::header_of(form)..form::record_words(form, kind)]
}

// The body's part of the own rule.
fn body_ok(body: &[u32], kind: u32, n: usize) -> bool
    requires { ((1 ≤ kind) × (kind ≤ 4)) × ((length body.now ≡ body_words kind) × (n ≤ children_of kind)) }
    ensures { result ≡ body_ok kind body.now n }
{
    match kind {
        ..=2 => inner_node_sorted::sorted_ok(body, kind::children_of(kind), n),
        3 => inner_node_indirect::indirect_ok(body, n),
        _ => inner_node_direct::direct_ok(body, n),
    }
}

// An inner record's own rule.
pub fn inner_ok(form: Form, rec: &[u32], kind: u32) -> bool
    requires { ((1 ≤ kind) × (kind ≤ 4)) × (length rec.now ≡ record_words form kind) }
    ensures { result ≡ inner_ok form kind rec.now }
{
    let n = num(rec, header::CHILDREN);
    if n <= kind::children_of(kind) {
        let head = header::head_ok(form, rec, kind);
        let body = body_ok(body_part(form, rec, kind), kind, n);
        head & body
    } else {
        false
    }
}

// Of a body with n children the reference for a byte.
fn body_child(body: &[u32], kind: u32, n: usize, byte: u8) -> u32
    requires { ((1 ≤ kind) × (kind ≤ 4)) × ((length body.now ≡ body_words kind) × (n ≤ children_of kind)) }
    ensures { result ≡ child_of kind body.now n byte }
{
    match kind {
        ..=2 => inner_node_sorted::sorted_child(body, kind::children_of(kind), n, byte as u32),
        3 => inner_node_indirect::indirect_child(body, byte as usize),
        _ => body[byte as usize],
    }
}

// The reference for a byte, 0 where there is none.
pub fn lookup_child(form: Form, rec: &[u32], kind: u32, byte: u8) -> u32
    requires { ((1 ≤ kind) × (kind ≤ 4)) × ((length rec.now ≡ record_words form kind) × (child_count rec.now ≤ children_of kind)) }
    ensures { result ≡ child_at form kind rec.now byte }
{
    let n = num(rec, header::CHILDREN);
    body_child(body_part(form, rec, kind), kind, n, byte)
}

// Of a body of kind 3 or 4 with n children what stands for a byte, as a child; none past the last byte.
fn body_entry(body: &[u32], kind: u32, n: usize, byte: usize) -> Entry
    requires { (3 ≤ kind) × BodyFits kind body.now n }
    ensures { result ≡ choose (ltb byte byte_values) (Some (byte, child_of kind body.now n byte)) None }
{
    if byte < BYTES {
        Some((byte as u32, body_child(body, kind, n, byte as u8)))
    } else {
        None
    }
}

// Of a body with n children the i-th.
fn body_nth(body: &[u32], kind: u32, n: usize, i: usize) -> Entry
    requires { BodyFits kind body.now n }
    ensures { result ≡ entry_at i (body_row kind body.now n) }
{
    match kind {
        ..=2 => inner_node_sorted::sorted_entry(body, kind::children_of(kind), n, i),
        _ => body_entry(body, kind, n, scan::nth_nonzero(&body[0..BYTES], i)),
    }
}

// The n-th child, from 0; none past the last. The lowest child is number 0.
pub fn nth_child(form: Form, rec: &[u32], kind: u32, i: usize) -> Entry
    requires { InnerFits form kind rec.now }
    ensures { result ≡ entry_at i (row_at form kind rec.now) }
{
    let n = num(rec, header::CHILDREN);
    body_nth(body_part(form, rec, kind), kind, n, i)
}

// Of a body with n children the first at or after a byte.
fn body_from(body: &[u32], kind: u32, n: usize, byte: usize) -> Entry
    requires { (byte ≤ byte_values) × BodyFits kind body.now n }
    ensures { result ≡ entry_from byte (body_row kind body.now n) }
{
    match kind {
        ..=2 => inner_node_sorted::sorted_from(body, kind::children_of(kind), n, byte as u32),
        _ => {
            let i = scan::first_at_least(&body[byte..BYTES], 1);
            body_entry(body, kind, n, byte + i)
        }
    }
}

// The first child at or after a byte; none past the last.
pub fn child_from(form: Form, rec: &[u32], kind: u32, byte: usize) -> Entry
    requires { (byte ≤ byte_values) × InnerFits form kind rec.now }
    ensures { result ≡ entry_from byte (row_at form kind rec.now) }
{
    let n = num(rec, header::CHILDREN);
    body_from(body_part(form, rec, kind), kind, n, byte)
}

// Of a body with n children the last.
fn body_last(body: &[u32], kind: u32, n: usize) -> Entry
    requires { (1 ≤ n) × BodyFits kind body.now n }
    ensures { result ≡ last_entry (body_row kind body.now n) }
{
    if kind <= 2 {
        return inner_node_sorted::sorted_entry(body, kind::children_of(kind), n, n - 1);
    }
    let end = scan::past_nonzero(&body[0..BYTES]);
    if end == 0 {
        return None;
    }
    body_entry(body, kind, n, end - 1)
}

// The highest child.
pub fn last_child(form: Form, rec: &[u32], kind: u32) -> Entry
    requires { InnerFits form kind rec.now }
    ensures { result ≡ last_entry (row_at form kind rec.now) }
{
    let n = num(rec, header::CHILDREN);
    body_last(body_part(form, rec, kind), kind, n)
}
