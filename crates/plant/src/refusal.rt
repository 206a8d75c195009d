// What the functions for C give back beside 0, in words.
use std::fmt;

// A number that was given back; 0 is none.
#[derive(Clone, Copy)]
pub struct Refusal(pub u32);

impl fmt::Display for Refusal {
    fn fmt<W: fmt::Write>(&self, f: &mut fmt::Formatter<W>) -> fmt::Result {
        f.write_str(match self.0 {
            1 => "no such tag is held",
            2 => "refused, the tag is over 64 bytes long",
            3 => "refused, the tag begins a held tag, or a held tag begins it",
            4 => "refused, there is room for no more tags",
            5 => "refused, no record is free for a branching",
            6 => "the memory is damaged",
            7 => "scratch is too short",
            8 => "the memory is not of the size that the capacities need",
            9 => "no leaf in use has this number",
            _ => "a number that this program does not know",
        })
    }
}

// What was asked for, where 0 was given back.
pub fn done<T: Drop>(number: u32, value: T) -> Result<T, Refusal> {
    match number {
        0 => Ok(value),
        _ => Err(Refusal(number)),
    }
}
