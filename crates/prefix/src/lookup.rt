// Comparing a prefix with a tag in a walk.
ghost use Rattle.std.specs.Prelude.{◌≡◌, ◌≤◌, ◌<◌, ◌^◌, length};
ghost use Rattle.prefix.specs.Match.{length_match, match_of};

use super::Prefix;
use lists::compare;

// Whether each prefix so far was compared whole, or bytes of one were skipped.
#[derive(Clone, Copy)]
pub enum PrefixMatchBehavior {
    Pessimistic,
    Optimistic,
}

// Past the prefix, at the place of the byte after it; or off it, with the number of bytes that agreed. Not a Result: off it is no error, and the crate has these names.
#[derive(Clone, Copy)]
pub enum PrefixMatch {
    On(usize, PrefixMatchBehavior),
    Off(usize),
}

// Only the length is compared, once bytes were skipped.
fn match_length(full: usize, len: usize, depth: usize) -> PrefixMatch
    requires { (depth ≤ len) × (full < 2 ^ 32) }
    ensures { result ≡ length_match full len depth }
{
    if len - depth <= full {
        PrefixMatch::Off(0)
    } else {
        PrefixMatch::On(depth + full, PrefixMatchBehavior::Optimistic)
    }
}

// The prefix beside the bytes of `tag` from `depth` on.
pub fn match_prefix(
    p: Prefix,
    tag: &[u8],
    depth: usize,
    behavior: PrefixMatchBehavior,
) -> PrefixMatch
    requires { depth ≤ length tag.now }
    ensures { result ≡ match_of p tag.now depth behavior }
{
    let n = p.full.0 as usize;
    if let PrefixMatchBehavior::Optimistic = behavior {
        return match_length(n, tag.len(), depth);
    }
    let s = super::stored_len(p.full);
    let k = s.0 as usize;
    let stored = p.stored;
    let agreed = compare::shared_words(&stored[0..k], &tag[depth..]);
    if agreed < k {
        return PrefixMatch::Off(agreed);
    }
    if tag.len() - depth <= n {
        return PrefixMatch::Off(agreed);
    }
    if 8 < n {
        return PrefixMatch::On(depth + n, PrefixMatchBehavior::Optimistic);
    }
    PrefixMatch::On(depth + n, PrefixMatchBehavior::Pessimistic)
}
