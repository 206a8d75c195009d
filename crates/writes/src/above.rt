// The reference to a record changed in the record above it, or in the trailer where it is the root.
ghost use Rattle.std.specs.Prelude.{◌≡◌};
ghost use Rattle.frames.specs.Frame.{FrameOf};
ghost use Rattle.points.specs.There.{UpThere};
ghost use Rattle.writes.specs.Above.{link_up};

use super::representation;
use edits::representation::Change;
use frames::frame;
use frames::frame::Frame;
use points::insert_point::Up;
use pools::links;

// The record above names `reference` from now on.
pub fn link_up(words: &mut [u32], keys: &[u8], f: Frame, up: Up, reference: u32)
    requires { FrameOf f words.old keys.now × UpThere f words.old up }
    ensures { words.new ≡ link_up f up reference words.old }
{
    match up {
        Some((above, byte)) => {
            representation::change_at(words, keys, f, above, byte, Change::Replace(reference));
        }
        None => links::set_trailer(words, frame::ROOT, reference),
    }
}
