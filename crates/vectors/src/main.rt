// Answers commands, one a line, as bench/blart/src/bin/driver and bench/port.c do; bench/README.md lists them. `stdin` is a sample of the lists that are put to
// the crate, and `stdout` what the crate itself answered, so the port is compared with the crate's answers where there is no Rust.
#![tactic(auto)]

mod draw; // the tree on one line
mod line; // a line taken apart
mod memory; // the directory and the calls on it
mod say; // answers

use draw::Told;
use line::Command;
use memory::Directory;
use std::io;
use std::io::Write;

// Room for the input.
const INPUT: usize = 65536;

fn insert<W: Write>(
    out: &mut W,
    directory: &mut Directory,
    tag: &[u8],
    total: u64,
) -> io::Result<()> {
    let before = directory.tags();
    let a = directory.insert(tag, total);
    say::inserted(out, a, directory.tags() != before)
}

// The leaf after a held tag.
fn next<W: Write>(out: &mut W, directory: &Directory, tag: &[u8]) -> io::Result<()> {
    let held = directory.search(tag);
    if held.number == 1 {
        return write!(out, "9");
    }
    say::found(out, directory, directory.next_leaf(held.leaf))
}

// The leaves along the list, after their number.
fn list<W: Write>(out: &mut W, directory: &Directory) -> io::Result<()> {
    write!(out, "{}", directory.leaves().count())?;
    for leaf in directory.leaves() {
        write!(out, " {}", directory.leaf(leaf))?;
    }
    Ok(())
}

// The calls that look at the whole block: the check, or a drawing. One that is not sound is not drawn.
fn look<W: Write>(out: &mut W, directory: &Directory, drawing: Option<Told>) -> io::Result<()> {
    let number = directory.check();
    if number != 0 {
        return write!(out, "{number}");
    }
    match drawing {
        Some(told) => draw::tree(out, directory, told),
        None => draw::used(out, directory),
    }
}

fn answer<W: Write>(
    out: &mut W,
    directory: &mut Directory,
    command: Command<'_>,
) -> io::Result<()> {
    match command {
        Command::Reset => write!(out, "{}", directory.reset()),
        Command::Insert(tag, total) => insert(out, directory, tag, total),
        Command::Delete(tag) => say::deleted(out, directory.delete(tag)),
        Command::AtOrAfter(tag) => say::found(out, directory, directory.at_or_after(tag)),
        Command::Search(tag) => say::found(out, directory, directory.search(tag)),
        Command::Prefix(tag) => say::found(out, directory, directory.prefix_search(tag)),
        Command::Next(tag) => next(out, directory, tag),
        Command::Check => look(out, directory, None),
        Command::Draw(told) => look(out, directory, Some(told)),
        Command::Minimum => say::found(out, directory, directory.minimum()),
        Command::Maximum => say::found(out, directory, directory.maximum()),
        Command::List => list(out, directory),
        Command::Count => write!(out, "{}", directory.tags()),
    }
}

// One line answered: a line with no word asks for nothing.
fn turn<W: Write>(out: &mut W, directory: &mut Directory, line: &[u8]) -> io::Result<()> {
    let asked = text::read::before(line, b'#');
    if asked.iter().all(|&b| b == b' ') {
        return Ok(());
    }
    let mut space = [0; 128];
    let Some(command) = Command::parse(asked, &mut space) else {
        return writeln!(out, "? no such command");
    };
    answer(out, directory, command)?;
    writeln!(out)
}

fn run<W: Write>(out: &mut W, directory: &mut Directory, input: &[u8]) -> io::Result<()> {
    for line in input.split(|&b| b == b'\n') {
        turn(out, directory, line)?;
    }
    Ok(())
}

// The input is read at once, up to 65,536 bytes; the sample has some 34,000.
fn main(rt: HostRuntime) -> io::Result<()> {
    let mut input = [0; INPUT];
    let n = text::front(&mut rt.stdin(), &mut input);
    run(&mut rt.stdout(), &mut Directory::new(), &input[..n])
}
