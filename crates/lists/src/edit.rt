// Changes of a slice where it stands: one copied in and filled up, one element shifted in or out. Plain copies and clears are std's `copy_from_slice` and `fill`.
ghost use Rattle.std.specs.Prelude.{◌≡◌, ◌≤◌, ◌<◌, length};
ghost use Rattle.lists.specs.Edit.{shift_in, shift_out, padded};

use super::scan;

// The bytes of `from`, and 0 after them. Not by `copy_from_slice`, which becomes a call of memmove here, and that would be a name more that the archive for C wants from outside.
pub fn pad_bytes(to: &mut [u8], from: &[u8])
    requires { length from.now ≤ length to.old }
    ensures { to.new ≡ padded (length to.old) from.now }
{
    for j in 0..to.len() {
        to[j] = scan::byte_at(from, j);
    }
}

// `x` put in at `at`: the words from there on move up by one, and the last is lost.
pub fn shift_in(s: &mut [u32], at: usize, x: u32)
    requires { at ≤ length s.old }
    ensures { s.new ≡ shift_in at x s.old }
{
    if at < s.len() {
        let last = s.len() - 1;
        s.copy_within(at..last, at + 1);
        s[at] = x;
    }
}

// The word at `at` taken out: those behind it move down by one, and the last becomes 0.
pub fn shift_out(s: &mut [u32], at: usize)
    requires { at < length s.old }
    ensures { s.new ≡ shift_out at s.old }
{
    let last = s.len() - 1;
    s.copy_within(at + 1.., at);
    s[last] = 0;
}
