// What the programs read alike: words, tags and numbers out of a line, and the front of an input.
#![tactic(auto)]

pub mod read; // words, tags and numbers out of a line

ghost use Rattle.std.specs.Prelude.{◌≤◌, length};

use std::io::Read;

// The front of an input, up to the length of the space: the bytes before its end, or before a read that fails. Answers how many.
// A `while`, since how far a turn goes is what the read gave.
pub fn front<R: Read>(input: &mut R, space: &mut [u8]) -> usize
    ensures { result ≤ length space.new }
{
    let mut done = 0;
    while done < space.len() {
        match input.read(&mut space[done..]) {
            Ok(0) => return done,
            Ok(n) => done += n,
            Err(_) => return done,
        }
    }
    done
}
