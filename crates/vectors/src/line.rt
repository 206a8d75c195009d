// A line of the input, taken apart.
use super::draw::Told;
use text::read;

// What is asked: three that change, four about a tag, and those on the whole block. A tag lies in the space that was lent for it.
#[derive(Clone, Copy)]
pub enum Command<'a> {
    Reset,
    Insert(&'a [u8], u64),
    Delete(&'a [u8]),
    AtOrAfter(&'a [u8]),
    Search(&'a [u8]),
    Prefix(&'a [u8]),
    Next(&'a [u8]),
    Check,
    Draw(Told),
    Minimum,
    Maximum,
    List,
    Count,
}

// The most tags that a reset may ask room for: as many as there is.
const MOST: u64 = 256;

impl<'a> Command<'a> {
    // The command that a line without its comment is, with its tag laid in the space; None where it is none. Words past those that the command takes are passed over.
    pub fn parse(line: &[u8], space: &'a mut [u8; 128]) -> Option<Command<'a>> {
        let mut words = line.split(|&b| b == b' ').filter(|word| !word.is_empty());
        let name = words.next()?;
        let first = words.next().unwrap_or(&[]);
        let second = words.next().unwrap_or(&[]);
        match name {
            b"reset" if matches!(read::number(first), Some(0..=MOST)) => Some(Command::Reset),
            b"i" => Some(Command::Insert(read::tag(first, space)?, read::number(second)?)),
            b"d" => Some(Command::Delete(read::tag(first, space)?)),
            b"ge" => Some(Command::AtOrAfter(read::tag(first, space)?)),
            b"s" => Some(Command::Search(read::tag(first, space)?)),
            b"p" => Some(Command::Prefix(read::tag(first, space)?)),
            b"next" => Some(Command::Next(read::tag(first, space)?)),
            b"check" => Some(Command::Check),
            b"draw" | b"canon" => Some(Command::Draw(Told::Prefixes)),
            b"kinds" => Some(Command::Draw(Told::Kinds)),
            b"slots" => Some(Command::Draw(Told::Slots)),
            b"min" => Some(Command::Minimum),
            b"max" => Some(Command::Maximum),
            b"list" => Some(Command::List),
            b"count" => Some(Command::Count),
            _ => None,
        }
    }
}
