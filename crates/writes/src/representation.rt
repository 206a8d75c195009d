// Inner records written where they stand. A record goes by its reference, and the frame gives its part of the words.
ghost use Rattle.std.specs.Prelude.{◌≡◌, ◌≢◌, ◌≤◌, ◌<◌, ◌+◌, length};
ghost use Rattle.frames.specs.Frame.{FrameOf};
ghost use Rattle.frames.specs.Place.{place_at, start_at, size_at, record_at, kind_at};
ghost use Rattle.records.specs.Own.{prefix_at};
ghost use Rattle.edits.specs.Record.{spread_of};
ghost use Rattle.points.specs.There.{InnerFitsAt};
ghost use Rattle.writes.specs.At.{change_at, prefixed_at, branch_at, move_at, drop_at, clear_at, Changes, InnerPoolAt, Moves, Drops};

use edits::representation::Change;
use edits::{header, representation};
use frames::frame::Frame;
use frames::kind::BYTES;
use frames::{form, frame};
use prefix::Prefix;
use records::header::prefix_at;

// A part of the words: its first word, and the first after it.
#[derive(Clone, Copy)]
pub struct Part {
    pub start: usize,
    pub end: usize,
}

// The part that an inner record is.
fn part_at(words: &[u32], keys: &[u8], f: Frame, reference: u32) -> Part
    requires { FrameOf f words.now keys.now × InnerPoolAt f (place_at reference) }
    ensures { (result.start ≡ start_at f (place_at reference)) × ((result.end ≡ start_at f (place_at reference) + size_at f (place_at reference)) × (result.end ≤ length words.now)) }
{
    let start = frame::start_at(&f, reference);
    let end = start + form::record_words(f.form, reference % 8);
    Part {
        start: start,
        end: end,
    }
}

// The prefix of a record.
pub fn prefix_of(words: &[u32], keys: &[u8], f: Frame, reference: u32) -> Prefix
    requires { FrameOf f words.now keys.now × InnerPoolAt f (place_at reference) }
    ensures { result ≡ prefix_at f.form (record_at f words.now (place_at reference)) }
{
    let part = part_at(words, keys, f, reference);
    let a = part.start;
    let e = part.end;
    prefix_at(f.form, &words[a..e])
}

// The children changed for a byte.
pub fn change_at(words: &mut [u32], keys: &[u8], f: Frame, reference: u32, byte: u8, change: Change)
    requires { FrameOf f words.old keys.now × Changes f words.old (place_at reference) byte change }
    ensures { words.new ≡ change_at f (place_at reference) byte change words.old }
{
    let part = part_at(words, keys, f, reference);
    let a = part.start;
    let e = part.end;
    representation::change_child(&mut words[a..e], f.form, reference % 8, byte, change);
}

// Another prefix.
pub fn set_prefix_at(words: &mut [u32], keys: &[u8], f: Frame, reference: u32, p: Prefix)
    requires { FrameOf f words.old keys.now × InnerFitsAt f words.old (place_at reference) }
    ensures { words.new ≡ prefixed_at f (place_at reference) p words.old }
{
    let part = part_at(words, keys, f, reference);
    let a = part.start;
    let e = part.end;
    header::set_prefix(&mut words[a..e], f.form, p);
}

// All words 0.
pub fn clear_at(words: &mut [u32], keys: &[u8], f: Frame, reference: u32)
    requires { FrameOf f words.old keys.now × InnerPoolAt f (place_at reference) }
    ensures { words.new ≡ clear_at f (place_at reference) words.old }
{
    let part = part_at(words, keys, f, reference);
    let a = part.start;
    let e = part.end;
    words[a..e].fill(0);
}

// A branching with two children, `r` for the byte `b` and `s` for the byte `c`.
pub fn branch_at(
    words: &mut [u32],
    keys: &[u8],
    f: Frame,
    reference: u32,
    p: Prefix,
    b: u8,
    r: u32,
    c: u8,
    s: u32,
)
    requires { (FrameOf f words.old keys.now × InnerPoolAt f (place_at reference)) × ((b ≢ c) × ((0 < r) × (0 < s))) }
    ensures { words.new ≡ branch_at f (place_at reference) p b r c s words.old }
{
    let part = part_at(words, keys, f, reference);
    let a = part.start;
    let e = part.end;
    let mut places = [0u32; BYTES];
    places[c as usize] = s;
    places[b as usize] = r;
    representation::build(&mut words[a..e], f.form, reference % 8, p, places);
}

// The references of a record by their bytes.
fn spread_at(words: &[u32], keys: &[u8], f: Frame, reference: u32) -> [u32; BYTES]
    requires { FrameOf f words.now keys.now × InnerFitsAt f words.now (place_at reference) }
    ensures { result ≡ spread_of f.form (kind_at (place_at reference)) (record_at f words.now (place_at reference)) }
{
    let part = part_at(words, keys, f, reference);
    let a = part.start;
    let e = part.end;
    representation::spread_of(f.form, &words[a..e], reference % 8)
}

// Prefix and children of the record `old` written anew at `new`, where there is room for them.
pub fn move_at(words: &mut [u32], keys: &[u8], f: Frame, old: u32, new: u32)
    requires { FrameOf f words.old keys.now × Moves f words.old (place_at old) (place_at new) }
    ensures { words.new ≡ move_at f (place_at old) (place_at new) words.old }
{
    let p = prefix_of(words, keys, f, old);
    let places = spread_at(words, keys, f, old);
    let part = part_at(words, keys, f, new);
    let a = part.start;
    let e = part.end;
    representation::build(&mut words[a..e], f.form, new % 8, p, places);
}

// The same without the child for a byte.
pub fn drop_at(words: &mut [u32], keys: &[u8], f: Frame, old: u32, new: u32, byte: u8)
    requires { FrameOf f words.old keys.now × Drops f words.old (place_at old) (place_at new) byte }
    ensures { words.new ≡ drop_at f (place_at old) (place_at new) byte words.old }
{
    let p = prefix_of(words, keys, f, old);
    let mut places = spread_at(words, keys, f, old);
    places[byte as usize] = 0;
    let part = part_at(words, keys, f, new);
    let a = part.start;
    let e = part.end;
    representation::build(&mut words[a..e], f.form, new % 8, p, places);
}
