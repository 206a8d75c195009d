// A small plant's pumps and their flow totals, kept in lent memory: put in, read, one set again, one scrapped, and added up by station. A line for each call says
// what was asked and what came back. examples/plant.c and examples/plant.rs print the same.
#![tactic(auto)]

mod plant; // the memory and the calls on it
mod refusal; // what a number given back means

use plant::Plant;
use std::io;
use std::io::Write;

// What is put in. For the ninth pump there is no room; the last tag begins held tags.
const ROWS: [(&str, u64); 10] = [
    ("L14/P2/FLOW", 97310),
    ("L14/P1/FLOW", 184205),
    ("L15/P1/FLOW", 203511),
    ("L15/P2/FLOW", 199402),
    ("L16/P1/FLOW", 8630),
    ("L17/P2/FLOW", 40213),
    ("L17/P1/FLOW", 51877),
    ("L14/P3/FLOW", 66120),
    ("L16/P2/FLOW", 1204),
    ("L14/P1", 1),
];

fn start(out: &mut impl Write, plant: &mut Plant) -> io::Result<()> {
    writeln!(
        out,
        "Lent for {} tags: {} words, {} key bytes, {} scratch bytes.",
        plant::TAGS,
        plant::WORDS,
        plant::KEYS,
        plant::SCRATCH
    )?;
    match plant.start() {
        Ok(()) => writeln!(out, "start: done"),
        Err(refusal) => writeln!(out, "start: {refusal}"),
    }
}

fn insert(out: &mut impl Write, plant: &mut Plant, tag: &str, total: u64) -> io::Result<()> {
    match plant.insert(tag, total) {
        Ok(_) => writeln!(out, "insert {tag} with {total}: done"),
        Err(refusal) => writeln!(out, "insert {tag} with {total}: {refusal}"),
    }
}

// A held tag is put in again: what comes back is the total that it had.
fn set(out: &mut impl Write, plant: &mut Plant, tag: &str, total: u64) -> io::Result<()> {
    match plant.insert(tag, total) {
        Ok(had) => writeln!(out, "set {tag} to {total}: done, its total was {had}"),
        Err(refusal) => writeln!(out, "set {tag} to {total}: {refusal}"),
    }
}

fn scrap(out: &mut impl Write, plant: &mut Plant, tag: &str) -> io::Result<()> {
    match plant.delete(tag) {
        Ok(had) => writeln!(out, "scrap {tag}: done, its total was {had}"),
        Err(refusal) => writeln!(out, "scrap {tag}: {refusal}"),
    }
}

fn search(out: &mut impl Write, plant: &Plant, tag: &str) -> io::Result<()> {
    match plant.search(tag) {
        Ok(total) => writeln!(out, "search {tag}: its total is {total}"),
        Err(refusal) => writeln!(out, "search {tag}: {refusal}"),
    }
}

fn check(out: &mut impl Write, plant: &Plant) -> io::Result<()> {
    match plant.check() {
        Ok(()) => writeln!(out, "check: the directory is sound"),
        Err(refusal) => writeln!(out, "check: {refusal}"),
    }
}

// The pumps of a station and what they have pumped, exactly: carries times 2^64, and low.
fn station(out: &mut impl Write, plant: &Plant, name: &str) -> io::Result<()> {
    match plant.station(name) {
        Ok(sum) => writeln!(
            out,
            "station {name}: {} pumps, total flow {}, carries {}",
            sum.count, sum.low, sum.carries
        ),
        Err(refusal) => writeln!(out, "station {name}: {refusal}"),
    }
}

fn main(rt: HostRuntime) -> io::Result<()> {
    let mut out = rt.stdout();
    let mut plant = Plant::new();
    start(&mut out, &mut plant)?;
    for (tag, total) in ROWS {
        insert(&mut out, &mut plant, tag, total)?;
    }
    search(&mut out, &plant, "L14/P2/FLOW")?;
    search(&mut out, &plant, "L14/P9/FLOW")?;
    set(&mut out, &mut plant, "L14/P2/FLOW", 97355)?;
    scrap(&mut out, &mut plant, "L16/P1/FLOW")?;
    scrap(&mut out, &mut plant, "L16/P1/FLOW")?;
    check(&mut out, &plant)?;
    for name in ["L14/", "L15/", "L16/", "L17/"] {
        station(&mut out, &plant, name)?;
    }
    Ok(())
}
