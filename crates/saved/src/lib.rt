// A block that was saved to a file: the word count as four bytes, the words, and then the key bytes, all numbers lowest byte first. Any other file is no block, and so is
// one of more than 60,000 bytes.
#![tactic(auto)]

ghost use Rattle.std.specs.Prelude.{◌≡◌, ◌≤◌, ◌<◌, ◌+◌, ◌*◌, length};
ghost use Rattle.saved.specs.Saved.{number_at, words_of, block_of, opened, open_of};

// The longest file that is a block.
pub const MOST: usize = 60000;

// As many words as such a file can have.
pub const WORDS: usize = 14999;

// A byte as a word.
fn wide(b: u8) -> u32
    ensures { (result ≡ b) × (result < 256) }
{
    b as u32
}

// The number whose lowest byte stands at a place.
fn number_at(file: &[u8], at: usize) -> u32
    requires { at + 4 ≤ length file.now }
    ensures { result ≡ number_at file.now at }
{
    wide(file[at])
        + wide(file[at + 1]) * 256
        + wide(file[at + 2]) * 65536
        + wide(file[at + 3]) * 16777216
}

// How many words a file has, where it is a block: all that follows them is its key bytes. What it says is a word, so that four times as much is no product that wraps.
fn block_of(file: &[u8]) -> Option<usize>
    ensures { result ≡ block_of file.now }
{
    if file.len() < 4 {
        return None;
    }
    if MOST < file.len() {
        return None;
    }
    let n = number_at(file, 0) as usize;
    if file.len() < 4 + 4 * n {
        return None;
    }
    Some(n)
}

// As many words as are lent, from those that follow the count.
fn take_words(words: &mut [u32], file: &[u8])
    requires { 4 + 4 * length words.old ≤ length file.now }
    ensures { words.new ≡ words_of file.now (length words.old) }
{
    for i in 0..words.len() {
        words[i] = number_at(file, 4 + 4 * i);
    }
}

// What a file is: how many words the block has, or none. Its words are taken out, and its key bytes stay where they are.
pub fn open(words: &mut [u32], file: &[u8]) -> Option<usize>
    requires { 14999 ≤ length words.old }
    ensures { opened result words.new ≡ open_of words.old file.now }
{
    let n = block_of(file)?;
    take_words(&mut words[0..n], file);
    Some(n)
}
