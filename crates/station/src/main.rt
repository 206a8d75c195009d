// A station's line for the shift clerk: how many tags of a saved block begin with given bytes, and the exact sum of their totals. The first argument names the file, and the
// beginning is all of standard input. Prints number, count, low sum and carries. A file that cannot be read is an empty one, which is no block.
#![tactic(auto)]

ghost use Rattle.std.specs.Prelude.{◌≡◌, ◌≤◌, length};
ghost use Rattle.station.specs.Line.{line_as, block_line, line_of};

use refusals::Refusal;
use saved::WORDS;
use std::env::Env;
use std::fs::Files;
use std::io::Write;
use std::{fs, io, str};
use tally::Tally;

// A byte for each record of a block that fits a file: none takes fewer than 52 bytes of it, in any form to come, and count and trailer take 68.
const SCRATCH: usize = 1152;

// One byte more than a block may have, so that a longer file is seen to be one.
const FILE: usize = saved::MOST + 1;

// No path is longer.
const NAME: usize = 4096;

// More bytes than any tag has.
const BEGINNING: usize = 4096;

// What is printed.
#[derive(Clone, Copy)]
struct Line {
    pub number: u32,
    pub count: u32,
    pub low: u64,
    pub carries: u32,
}

// The line of what a station total finds; zeros beside the number of a refusal.
fn line_as(a: Result<Tally, Refusal>) -> Line
    ensures { result ≡ line_as a }
{
    match a {
        Ok(t) => Line {
            number: 0,
            count: t.count,
            low: t.low,
            carries: t.carries,
        },
        Err(refusal) => Line {
            number: refusal.number(),
            count: 0,
            low: 0,
            carries: 0,
        },
    }
}

// The line of a block.
fn block_line(words: &[u32], keys: &[u8], beginning: &[u8]) -> Line
    ensures { result ≡ block_line words.now keys.now beginning.now }
{
    let mut scratch = [0u8; SCRATCH];
    let a = stations::station_total(words, keys, &mut scratch, beginning);
    line_as(a)
}

// The line of a file.
fn line_of(file: &[u8], beginning: &[u8]) -> Line
    ensures { result ≡ line_of file.now beginning.now }
{
    let mut words = [0u32; WORDS];
    let Some(n) = saved::open(&mut words, file) else {
        return line_as(Err(Refusal::Damaged));
    };
    let a = 4 + 4 * n;
    block_line(&words[0..n], &file[a..], beginning)
}

fn print<W: Write>(out: &mut W, line: Line) -> io::Result<()> {
    let Line {
        number,
        count,
        low,
        carries,
    } = line;
    writeln!(out, "{number} {count} {low} {carries}")
}

// The name that the first argument is; empty, which names no file, where there is none, or it is longer than its buffer or no text.
fn name_in<'a, R: Env>(rt: &R, space: &'a mut [u8]) -> &'a str {
    let Ok(n) = rt.arg(1, space) else {
        return "";
    };
    let Ok(name) = str::from_utf8(&space[..n]) else {
        return "";
    };
    name
}

// The front of the file of that name; nothing where it cannot be read.
fn front_of<R: Files>(rt: &R, name: &str, space: &mut [u8]) -> usize
    ensures { result ≤ length space.new }
{
    match fs::open(rt, name) {
        Ok(mut file) => text::front(&mut file, space),
        Err(_) => 0,
    }
}

// A file or a beginning may be longer than its buffer: the first bytes then have the same line (proofs/Cuts).
fn main(rt: HostRuntime) -> io::Result<()> {
    let mut name = [0u8; NAME];
    let mut file = [0u8; FILE];
    let got = front_of(&rt, name_in(&rt, &mut name), &mut file);
    let mut beginning = [0u8; BEGINNING];
    let k = text::front(&mut rt.stdin(), &mut beginning);
    print(&mut rt.stdout(), line_of(&file[..got], &beginning[..k]))
}
