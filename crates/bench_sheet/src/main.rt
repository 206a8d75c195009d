// The part of the bench sheet that is run: tags of 64 and 65 bytes, all 256 one-byte tags in and out, and the totals 0 and 2^64 - 1. Each call prints its
// number and what is returned beside it.
#![tactic(auto)]

mod bench; // the memory and the calls on it
mod steps; // the stored list

use bench::Bench;
use std::io;
use std::io::Write;
use steps::{STEPS, Step, Way};

// All 256 one-byte tags, the lowest first, go in with the total 1000 + byte, or out. A line where one is refused, and where the root's kind changes.
fn all_bytes(out: &mut impl Write, bench: &mut Bench, way: Way) -> io::Result<()> {
    let mut accepted = 0u32;
    let mut kind = bench.root_kind();
    for byte in 0..=255u8 {
        let number = match way {
            Way::In => bench.insert(&[byte], 1000 + u64::from(byte)).number,
            Way::Out => bench.delete(&[byte]).number,
        };
        if number == 0 {
            accepted += 1;
        } else {
            writeln!(out, "  byte {byte} gives {number}")?;
        }
        let before = kind;
        kind = bench.root_kind();
        if kind != before {
            writeln!(out, "  byte {byte}: the root is of kind {kind}")?;
        }
    }
    writeln!(out, "{accepted} accepted")
}

// From the minimum by next leaf to the end, for which 300 turns are enough: how many leaves there are, and how often a total is one more than the one before.
fn listing(out: &mut impl Write, bench: &Bench) -> io::Result<()> {
    let mut leaves = 0u32;
    let mut rising = 0u32;
    let mut found = bench.minimum();
    for _ in 0..300u32 {
        if found.number != 0 {
            break;
        }
        let next = bench.next_leaf(found.leaf);
        if found.total.checked_add(1) == Some(next.total) {
            rising += 1;
        }
        leaves += 1;
        found = next;
    }
    writeln!(
        out,
        "next leaf from the minimum: {leaves} leaves, {rising} followed by the next total"
    )
}

fn check(out: &mut impl Write, bench: &Bench) -> io::Result<()> {
    writeln!(out, "check gives {}", bench.check())
}

// The tags of one byte in or out, and what the directory then is.
fn all(out: &mut impl Write, bench: &mut Bench, way: Way) -> io::Result<()> {
    writeln!(out, "all 256 one-byte tags {way}")?;
    all_bytes(out, bench, way)?;
    check(out, bench)?;
    listing(out, bench)
}

fn run(out: &mut impl Write, bench: &mut Bench, step: Step) -> io::Result<()> {
    match step {
        Step::Start => writeln!(out, "start gives {}", bench.start()),
        Step::Check => check(out, bench),
        Step::Insert(tag, total) => {
            let a = bench.insert(tag.bytes(), total);
            writeln!(
                out,
                "insert {tag} with {total} gives {}, total {}",
                a.number, a.total
            )
        }
        Step::Delete(tag) => {
            let a = bench.delete(tag.bytes());
            writeln!(out, "delete {tag} gives {}, total {}", a.number, a.total)
        }
        Step::Search(tag) => {
            let a = bench.search(tag.bytes());
            writeln!(
                out,
                "search {tag} gives {}, leaf {}, total {}",
                a.number, a.leaf, a.total
            )
        }
        Step::All(way) => all(out, bench, way),
    }
}

fn main(rt: HostRuntime) -> io::Result<()> {
    let mut out = rt.stdout();
    let mut bench = Bench::new();
    for step in STEPS {
        run(&mut out, &mut bench, step)?;
    }
    Ok(())
}
