// A block that is lent for reading: its words and key bytes, and the frame that its trailer gives, which is known to fit them.
ghost use Rattle.std.specs.Prelude.{◌≡◌, true, ◌<◌, get_or, is_ok, IfOk, IfErr};
ghost use Rattle.refusals.specs.declared.Refusal.TheVariants.{Damaged};
ghost use Rattle.frames.specs.Frame.{FrameOf, frame_fits, trailer_of};
ghost use Rattle.frames.specs.Fits.{FrameOf-prop};
ghost use Rattle.frames.specs.Place.{place_at, in_pool, start_at};

use super::frame;
use super::frame::Frame;
use refusals::Refusal;

#[derive(Clone, Copy)]
pub struct Block<'w, 'k> {
    pub words: &'w [u32],
    pub keys: &'k [u8],
    pub frame: Frame,
    pub ghost framed: { FrameOf frame words.now keys.now } by { FrameOf-prop frame-code frame words.now keys.now },
}

impl<'w, 'k> Block<'w, 'k> {
    // The block of slices that their frame fits. Inlined, and what it calls too, so that a caller has what it reads of the block, and no copy of all of it.
    #[inline(always)]
    pub fn new(words: &'w [u32], keys: &'k [u8]) -> Block<'w, 'k>
        requires { frame_fits words.now keys.now ≡ true }
        ensures { (result.words.now ≡ words.now) × (result.keys.now ≡ keys.now) }
    {
        let frame = frame::frame_at(words, keys);
        Block { words, keys, frame }
    }

    // The same of any slices: those that their frame does not fit are refused.
    #[inline(always)]
    pub fn try_new(words: &'w [u32], keys: &'k [u8]) -> Result<Block<'w, 'k>, Refusal>
        ensures fits { is_ok result ≡ frame_fits words.now keys.now }
        ensures lent { IfOk result (λ block. (block.words.now ≡ words.now) × (block.keys.now ≡ keys.now)) }
        ensures refused { IfErr result (λ refusal. refusal ≡ Damaged) }
    {
        if frame::frame_fits(words, keys) {
            Ok(Block::new(words, keys))
        } else {
            Err(Refusal::Damaged)
        }
    }

    // A word of the trailer.
    pub fn trailer_word(&self, i: usize) -> u32
        requires { i < 16 }
        ensures { result ≡ get_or (trailer_of self.now.words.now) i 0 }
    {
        frame::trailer_word(self.words, i)
    }

    // Whether a reference names a record of a pool.
    pub fn has(&self, reference: u32) -> bool
        ensures { result ≡ in_pool self.now.frame (place_at reference) }
    {
        frame::in_pool(&self.frame, reference)
    }

    // The first word of the record that a reference names.
    pub fn start_at(&self, reference: u32) -> usize
        requires { in_pool self.now.frame (place_at reference) ≡ true }
        ensures { result ≡ start_at self.now.frame (place_at reference) }
    {
        frame::start_at(&self.frame, reference)
    }
}
