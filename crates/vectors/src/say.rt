// Answers: numbers in decimal, tags in hexadecimal.
use super::memory::Directory;
use directory_c::{DirectoryChanged, DirectoryFound};
use std::io::Write;
use std::{fmt, io};

// Bytes in hexadecimal, - for none.
#[derive(Clone, Copy)]
pub struct Hex<'a>(pub &'a [u8]);

impl fmt::Display for Hex<'_> {
    fn fmt<W: fmt::Write>(&self, f: &mut fmt::Formatter<W>) -> fmt::Result {
        if self.0.is_empty() {
            return write!(f, "-");
        }
        for byte in self.0 {
            write!(f, "{byte:02x}")?;
        }
        Ok(())
    }
}

// A leaf, as lists and drawings have it.
#[derive(Clone, Copy)]
pub struct Leaf<'a> {
    pub tag: &'a [u8],
    pub total: u64,
}

impl fmt::Display for Leaf<'_> {
    fn fmt<W: fmt::Write>(&self, f: &mut fmt::Formatter<W>) -> fmt::Result {
        write!(f, "{}={}", Hex(self.tag), self.total)
    }
}

// The number given back, and the leaf that was found.
pub fn found<W: Write>(out: &mut W, directory: &Directory, a: DirectoryFound) -> io::Result<()> {
    if a.number != 0 {
        return write!(out, "{}", a.number);
    }
    write!(out, "0 {} {}", Hex(directory.tag(a.leaf)), a.total)
}

// The number given back, and the total that the tag had.
pub fn deleted<W: Write>(out: &mut W, a: DirectoryChanged) -> io::Result<()> {
    if a.number != 0 {
        return write!(out, "{}", a.number);
    }
    write!(out, "0 {}", a.total)
}

// The same, and whether the tag is new.
pub fn inserted<W: Write>(out: &mut W, a: DirectoryChanged, is_new: bool) -> io::Result<()> {
    deleted(out, a)?;
    match (a.number, is_new) {
        (0, true) => write!(out, " new"),
        (0, false) => write!(out, " over"),
        _ => Ok(()),
    }
}
