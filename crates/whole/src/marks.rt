// A byte of scratch for each record of the pools, in the order of the pools: 0 until the record is reached.
ghost use Rattle.std.specs.Prelude.{◌≡◌, ◌≤◌};
ghost use Rattle.frames.specs.Frame.{Framed};
ghost use Rattle.frames.specs.Place.{place_at};
ghost use Rattle.whole.specs.Marks.{sum_to, places_in, mark_at, unmarked, set_mark, fresh, reached};

use frames::frame;
use frames::frame::Frame;

// How many records stand in the pools before this kind's.
fn before_pool(f: &Frame, kind: usize) -> usize
    requires { (kind ≤ 8) × Framed f.now }
    ensures { (result ≡ sum_to kind f.now.caps) × (result ≤ 32768) }
{
    let mut n = 0;
    for k in 0..kind {
        n += f.caps[k];
    }
    n
}

// How many records the pools have: the five capacities added.
pub fn places_in(f: &Frame) -> usize
    requires { Framed f.now }
    ensures { result ≡ places_in f.now }
{
    before_pool(f, 6)
}

// Where a record has its mark.
pub fn mark_at(f: &Frame, reference: u32) -> usize
    requires { Framed f.now }
    ensures { result ≡ mark_at f.now (place_at reference) }
{
    let n = before_pool(f, (reference % 8) as usize);
    n + (reference / 8) as usize
}

// Whether a record is not yet reached.
pub fn is_new(marks: &[u8], at: usize) -> bool
    ensures { result ≡ unmarked at marks.now }
{
    if at < marks.len() {
        return marks[at] == 0;
    }
    false
}

// Marks a record, if it has no mark.
fn mark(marks: &mut [u8], at: usize) -> bool
    ensures { (result ≡ unmarked at marks.old) × (marks.new ≡ set_mark at marks.old) }
{
    if at < marks.len() {
        if marks[at] == 0 {
            marks[at] = 1;
            return true;
        }
    }
    false
}

// Marks the record that a reference names, if it is one of a pool that has no mark.
pub fn reach(marks: &mut [u8], f: &Frame, reference: u32) -> bool
    requires { Framed f.now }
    ensures { (result ≡ fresh f.now reference marks.old) × (marks.new ≡ reached f.now reference marks.old) }
{
    if frame::in_pool(f, reference) {
        let at = mark_at(f, reference);
        return mark(marks, at);
    }
    false
}
