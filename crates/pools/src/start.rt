// Start: a fresh directory in the lent slices.
ghost use Rattle.std.specs.Prelude.{◌≡◌};
ghost use Rattle.frames.specs.Form.{sizes_of, SmallSizes};
ghost use Rattle.frames.specs.Frame.{SmallCaps};
ghost use Rattle.pools.specs.Start.{start_fits, trailer_words, out, start_in, start_of};

use frames::form::Form;
use frames::frame::Caps;
use frames::{form, frame};
use refusals::Refusal;

// Whether the slices have just the lengths that the capacities need.
fn start_fits(form: Form, c: Caps, n: usize, k: usize) -> bool
    requires { SmallSizes (sizes_of form) }
    ensures { result ≡ start_fits form c n k }
{
    if frame::caps_small(c) {
        let b = frame::backs_of(form::sizes_of(form), c);
        (n == b.b1 + 16) & (k == c.c5 as usize * form.limit as usize)
    } else {
        false
    }
}

// The trailer of an empty directory.
fn trailer_words(form: Form, c: Caps) -> [u32; 16]
    requires { SmallSizes (sizes_of form) × SmallCaps c }
    ensures { result ≡ trailer_words form c }
{
    let b = frame::backs_of(form::sizes_of(form), c);
    [
        form.number,
        b.b1 as u32,
        b.b2 as u32,
        b.b3 as u32,
        b.b4 as u32,
        b.b5 as u32,
        c.c1,
        c.c2,
        c.c3,
        c.c4,
        c.c5,
        0,
        0,
        0,
        0,
        b.b1 as u32 + 16,
    ]
}

// An empty directory of a form.
fn start_in(words: &mut [u32], keys: &mut [u8], form: Form, c: Caps) -> Result<(), Refusal>
    requires { SmallSizes (sizes_of form) }
    ensures { out result words.new keys.new ≡ start_in words.old keys.old form c }
{
    let n = words.len();
    if start_fits(form, c, n, keys.len()) {
        let t = trailer_words(form, c);
        let a = n - 16;
        words.fill(0);
        keys.fill(0);
        words[a..n].copy_from_slice(&t);
        Ok(())
    } else {
        Err(Refusal::Unfit)
    }
}

// An empty directory of the form of that number with these capacities; 8 where there is no such form, a capacity is over 4,096 or a slice has another length.
pub fn start(words: &mut [u32], keys: &mut [u8], number: u32, c: Caps) -> Result<(), Refusal>
    ensures { out result words.new keys.new ≡ start_of words.old keys.old number c }
{
    if form::form_known(number) {
        let form = form::form_of(number);
        start_in(words, keys, form, c)
    } else {
        Err(Refusal::Unfit)
    }
}
