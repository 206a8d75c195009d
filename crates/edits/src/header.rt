// The head of an inner record, written.
ghost use Rattle.std.specs.Prelude.{◌≡◌, ◌≤◌, ◌+◌, length};
ghost use Rattle.lists.specs.Part.{splice};
ghost use Rattle.frames.specs.Form.{header, word_of, packed, Stores, pack_of};
ghost use Rattle.edits.specs.Head.{set_prefix, set_head};

use frames::form::Form;
use prefix::Prefix;
use records::header;

// Four bytes as a word, lowest first.
fn word_of(a: u32, b: u32, c: u32, d: u32) -> u32
    ensures { result ≡ word_of a b c d }
{
    a % 256 + b % 256 * 256 + c % 256 * 65536 + d % 256 * 16777216
}

// Eight bytes as two words.
fn pack(stored: [u32; 8]) -> [u32; 2]
    ensures { result ≡ packed stored }
{
    [
        word_of(stored[0], stored[1], stored[2], stored[3]),
        word_of(stored[4], stored[5], stored[6], stored[7]),
    ]
}

// The stored bytes in their place.
fn set_stored(rec: &mut [u32], form: Form, stored: [u32; 8])
    requires { Stores form × (header form ≤ length rec.old) }
    ensures { rec.new ≡ splice rec.old (3 + form.counts) (header form) (pack_of form stored) }
{
    let a = 3 + form.counts as usize;
    if form.prefix == 8 {
        let e = a + 8;
        rec[a..e].copy_from_slice(&stored);
    } else {
        let e = a + 2;
        let two = pack(stored);
        rec[a..e].copy_from_slice(&two);
    }
}

// The prefix: its full length, and its stored bytes in their place.
pub fn set_prefix(rec: &mut [u32], form: Form, p: Prefix)
    requires { Stores form × (header form ≤ length rec.old) }
    ensures { rec.new ≡ set_prefix form p rec.old }
{
    rec[header::FULL] = p.full.0;
    let stored = p.stored;
    set_stored(rec, form, stored);
}

// Kind, child count and prefix.
pub fn set_head(rec: &mut [u32], form: Form, kind: u32, n: u32, p: Prefix)
    requires { Stores form × (header form ≤ length rec.old) }
    ensures { rec.new ≡ set_head form kind n p rec.old }
{
    rec[header::KIND] = kind;
    rec[header::CHILDREN] = n;
    set_prefix(rec, form, p);
}
