// The frame: what the trailer says of the pools, tested against the slices' lengths, and the places that references name.
ghost use Rattle.std.specs.Prelude.{◌≡◌, true, ◌≤◌, ◌<◌, ◌+◌, ◌*◌, ◌^◌, length, get_or};
ghost use Rattle.frames.specs.Form.{form_known, sizes_of, SmallSizes};
ghost use Rattle.frames.specs.Frame.{caps_of, caps_small, SmallCaps, backs_of, backs_match, form_fits, trailer_fits, trailer_of, frame_fits, frame_with, frame_of, Framed, FrameOf};
ghost use Rattle.frames.specs.Place.{place_at, in_pool, start_at};

use super::form;
use super::form::{Form, Sizes};

// A leaf's kind, in a reference and among the pools.
pub const LEAF: u32 = 5;

// Where the capacity of the leaves stands among the capacities, which go by the kind.
pub const LEAVES: usize = 5;

// The words of the trailer that change: the root's reference, those of the first and the last leaf, the tag count.
pub const ROOT: usize = 11;

pub const FIRST: usize = 12;

pub const LAST: usize = 13;

pub const TAGS: usize = 14;

// The five capacities.
#[derive(Clone, Copy)]
pub struct Caps {
    pub c1: u32,
    pub c2: u32,
    pub c3: u32,
    pub c4: u32,
    pub c5: u32,
}

// The five distances back from the trailer.
#[derive(Clone, Copy)]
pub struct Backs {
    pub b1: usize,
    pub b2: usize,
    pub b3: usize,
    pub b4: usize,
    pub b5: usize,
}

// By the kind of a reference: the size of a record, the capacity and the first word of the pool. Kinds 0, 6 and 7 have no records.
#[derive(Clone, Copy)]
pub struct Frame {
    pub form: Form,
    pub sizes: [usize; 8],
    pub caps: [usize; 8],
    pub starts: [usize; 8],
}

// A word as a size.
pub fn num(s: &[u32], i: usize) -> usize
    requires { i < length s.now }
    ensures { (result ≡ get_or s.now i 0) × (result < 2 ^ 32) }
{
    s[i] as usize
}

// The capacities of a trailer.
fn caps_of(t: &[u32]) -> Caps
    requires { length t.now ≡ 16 }
    ensures { result ≡ caps_of t.now }
{
    Caps {
        c1: t[6],
        c2: t[7],
        c3: t[8],
        c4: t[9],
        c5: t[10],
    }
}

// Each capacity is at most 4,096.
pub fn caps_small(c: Caps) -> bool
    ensures { result ≡ caps_small c }
{
    (c.c1 <= 4096) & (c.c2 <= 4096) & (c.c3 <= 4096) & (c.c4 <= 4096) & (c.c5 <= 4096)
}

// The words of a pool.
fn pool(c: u32, z: usize) -> usize
    requires { (c ≤ 4096) × (z ≤ 512) }
    ensures { (result ≡ c * z) × (result ≤ 2097152) }
{
    c as usize * z
}

// The distances that sizes and capacities give.
pub fn backs_of(z: Sizes, c: Caps) -> Backs
    requires { SmallSizes z × SmallCaps c }
    ensures { (result ≡ backs_of z c) × (result.b1 ≤ 10485760) }
{
    let b5 = pool(c.c5, z.z5);
    let b4 = pool(c.c4, z.z4) + b5;
    let b3 = pool(c.c3, z.z3) + b4;
    let b2 = pool(c.c2, z.z2) + b3;
    let b1 = pool(c.c1, z.z1) + b2;
    Backs {
        b1: b1,
        b2: b2,
        b3: b3,
        b4: b4,
        b5: b5,
    }
}

// The trailer has these distances.
fn backs_match(t: &[u32], b: Backs) -> bool
    requires { length t.now ≡ 16 }
    ensures { result ≡ backs_match t.now b }
{
    let t1 = num(t, 1);
    let t2 = num(t, 2);
    let t3 = num(t, 3);
    let t4 = num(t, 4);
    let t5 = num(t, 5);
    (t1 == b.b1) & (t2 == b.b2) & (t3 == b.b3) & (t4 == b.b4) & (t5 == b.b5)
}

// The trailer has what its form and capacities give, for n words and k key bytes.
fn form_fits(t: &[u32], form: Form, c: Caps, n: usize, k: usize) -> bool
    requires { (length t.now ≡ 16) × (SmallSizes (sizes_of form) × SmallCaps c) }
    ensures { result ≡ form_fits form t.now c n k }
{
    let z = form::sizes_of(form);
    let b = backs_of(z, c);
    let same = backs_match(t, b);
    let total = num(t, 15);
    same & (total == b.b1 + 16) & (n == total) & (k == c.c5 as usize * form.limit as usize)
}

// The trailer fits n words and k key bytes.
fn trailer_fits(t: &[u32], n: usize, k: usize) -> bool
    requires { length t.now ≡ 16 }
    ensures { result ≡ trailer_fits t.now n k }
{
    let known = form::form_known(t[0]);
    let c = caps_of(t);
    let small = caps_small(c);
    if known & small {
        let form = form::form_of(t[0]);
        form_fits(t, form, c, n, k)
    } else {
        false
    }
}

// The frame of a form, sizes and capacities.
#[inline(always)]
fn frame_with(form: Form, z: Sizes, c: Caps) -> Frame
    requires { SmallSizes z × SmallCaps c }
    ensures { result ≡ frame_with form z c }
{
    let s2 = pool(c.c1, z.z1);
    let s3 = s2 + pool(c.c2, z.z2);
    let s4 = s3 + pool(c.c3, z.z3);
    let s5 = s4 + pool(c.c4, z.z4);
    Frame {
        form: form,
        sizes: [0, z.z1, z.z2, z.z3, z.z4, z.z5, 0, 0],
        caps: [
            0,
            c.c1 as usize,
            c.c2 as usize,
            c.c3 as usize,
            c.c4 as usize,
            c.c5 as usize,
            0,
            0,
        ],
        starts: [0, 0, s2, s3, s4, s5, 0, 0],
    }
}

// The frame that a trailer gives.
#[inline(always)]
fn frame_of(t: &[u32]) -> Frame
    requires { (length t.now ≡ 16) × ((form_known (get_or t.now 0 0) ≡ true) × (caps_small (caps_of t.now) ≡ true)) }
    ensures { result ≡ frame_of t.now }
{
    let form = form::form_of(t[0]);
    let z = form::sizes_of(form);
    let c = caps_of(t);
    frame_with(form, z, c)
}

// Whether the frame fits the slices.
pub fn frame_fits(words: &[u32], keys: &[u8]) -> bool
    ensures { result ≡ frame_fits words.now keys.now }
{
    let n = words.len();
    if 16 <= n {
        let a = n - 16;
        trailer_fits(&words[a..n], n, keys.len())
    } else {
        false
    }
}

// The frame of slices that it fits.
#[inline(always)]
pub fn frame_at(words: &[u32], keys: &[u8]) -> Frame
    requires { frame_fits words.now keys.now ≡ true }
    ensures { FrameOf result words.now keys.now }
{
    let n = words.len();
    let a = n - 16;
    frame_of(&words[a..n])
}

// A word of the trailer.
pub fn trailer_word(words: &[u32], i: usize) -> u32
    requires { (16 ≤ length words.now) × (i < 16) }
    ensures { result ≡ get_or (trailer_of words.now) i 0 }
{
    let n = words.len();
    words[n - 16 + i]
}

// The reference to a record of a pool, by its kind and number.
pub fn reference_to(kind: u32, number: usize) -> u32
    requires { (kind ≤ 5) × (number ≤ 4096) }
    ensures { result ≡ number * 8 + kind }
{
    number as u32 * 8 + kind
}

// Whether the reference names a record of a pool.
pub fn in_pool(f: &Frame, reference: u32) -> bool
    requires { Framed f.now }
    ensures { result ≡ in_pool f.now (place_at reference) }
{
    let k = (reference % 8) as usize;
    let n = (reference / 8) as usize;
    n < f.caps[k]
}

// The first word of the record that the reference names.
pub fn start_at(f: &Frame, reference: u32) -> usize
    requires { Framed f.now × (in_pool f.now (place_at reference) ≡ true) }
    ensures { result ≡ start_at f.now (place_at reference) }
{
    let k = (reference % 8) as usize;
    let n = (reference / 8) as usize;
    f.starts[k] + n * f.sizes[k]
}
