// A line taken apart: its words, which a mark parts, and a word read as a tag or as a number.
ghost use Rattle.std.specs.Prelude.{◌≤◌, ◌<◌, length, IfSome};

use std::str;

// The line up to the mark.
pub fn before(line: &[u8], mark: u8) -> &[u8] {
    line.split(|&b| b == mark).next().unwrap_or(line)
}

// The value of a hexadecimal digit. A capital is none, which `to_digit` would take.
fn digit(b: u8) -> Option<u8>
    ensures { IfSome result (λ d. d < 16) }
{
    match b {
        b'0'..=b'9' => Some(b - b'0'),
        b'a'..=b'f' => Some(b - b'a' + 10),
        _ => None,
    }
}

// The tag that a word is, laid at the front of the space: - is the empty one, else each byte is two hexadecimal digits. None where the word is no tag, or the
// space is too short for it, and then what the space holds is left open.
pub fn tag<'a>(word: &[u8], space: &'a mut [u8]) -> Option<&'a [u8]>
    ensures { IfSome result (λ tag. length tag.now ≤ length space.old) }
{
    if let b"-" = word {
        return Some(&[]);
    }
    let (pairs, []) = word.as_chunks::<2>() else {
        return None;
    };
    if pairs.is_empty() {
        return None;
    }
    let tag = space.get_mut(..pairs.len())?;
    for (byte, &[high, low]) in tag.iter_mut().zip(pairs) {
        *byte = digit(high)? * 16 + digit(low)?;
    }
    Some(tag)
}

// A number, where a word is one that fits: digits alone, so no + before them, which `parse` would take.
pub fn number(word: &[u8]) -> Option<u64> {
    if !word.iter().all(u8::is_ascii_digit) {
        return None;
    }
    str::from_utf8(word).ok()?.parse().ok()
}
