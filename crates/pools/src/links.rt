// The list of the leaves in the order of their tags: each names the one before and the one after, 0 at the ends, and the trailer names the first and
// the last. Its other words that change are the root and the tag count.
ghost use Rattle.std.specs.Prelude.{◌≡◌, ◌≤◌, ◌<◌, length};
ghost use Rattle.frames.specs.Kind.{leaf_size};
ghost use Rattle.frames.specs.Frame.{FrameOf};
ghost use Rattle.pools.specs.Link.{LeafOrEnd, set_trailer, set_link, set_next, set_previous};

use frames::frame;
use frames::frame::Frame;

// Another value for a word of the trailer.
pub fn set_trailer(words: &mut [u32], i: usize, value: u32)
    requires { (16 ≤ length words.old) × (i < 16) }
    ensures { words.new ≡ set_trailer i value words.old }
{
    let n = words.len();
    let at = n - 16 + i;
    words[at] = value;
}

// A link: the word `side` of the leaf that a reference names, or the word `edge` of the trailer where it is 0.
fn set_link(
    words: &mut [u32],
    keys: &[u8],
    f: Frame,
    reference: u32,
    edge: usize,
    side: usize,
    value: u32,
)
    requires { (FrameOf f words.old keys.now × LeafOrEnd f reference) × ((edge < 16) × (side < leaf_size)) }
    ensures { words.new ≡ set_link edge side f reference value words.old }
{
    if reference == 0 {
        set_trailer(words, edge, value);
    } else {
        let at = frame::start_at(&f, reference) + side;
        words[at] = value;
    }
}

// What comes after the leaf that `before` names, or first of all where that is 0.
pub fn set_next(words: &mut [u32], keys: &[u8], f: Frame, before: u32, value: u32)
    requires { FrameOf f words.old keys.now × LeafOrEnd f before }
    ensures { words.new ≡ set_next f before value words.old }
{
    set_link(words, keys, f, before, frame::FIRST, 3, value);
}

// What comes before the leaf that `after` names, or last of all where that is 0.
pub fn set_previous(words: &mut [u32], keys: &[u8], f: Frame, after: u32, value: u32)
    requires { FrameOf f words.old keys.now × LeafOrEnd f after }
    ensures { words.new ≡ set_previous f after value words.old }
{
    set_link(words, keys, f, after, frame::LAST, 2, value);
}
