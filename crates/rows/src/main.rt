// Runs a stored list of steps on records of each kind and prints a line a step: what is asked, then the record that stands afterwards, or the answer.
// A record's row is printed as byte:reference, in kind 3 with @ and the slot's number.
#![tactic(auto)]

mod record; // a record, asked and printed
mod room; // the room that a record stands in
mod steps; // the stored list

use record::Record;
use room::Room;
use std::io;
use std::io::Write;
use steps::Step;

// A child, or that there is none.
fn say_child<W: Write>(out: &mut W, child: Option<(u32, u32)>) -> io::Result<()> {
    match child {
        Some((byte, reference)) => write!(out, " = {byte}:{reference}"),
        None => write!(out, " = nothing"),
    }
}

// The answer to a question about a record, or the record after a change.
fn answer<W: Write>(out: &mut W, record: &Record<'_>, step: Step) -> io::Result<()> {
    match step {
        Step::Lookup(byte) => match record.lookup(byte) {
            0 => write!(out, " = nothing"),
            reference => write!(out, " = {reference}"),
        },
        Step::Lowest => say_child(out, record.lowest()),
        Step::Highest => say_child(out, record.highest()),
        Step::From(byte) => say_child(out, record.at_or_after(byte)),
        _ => write!(out, "{record}"),
    }
}

// A step's line.
fn show<W: Write>(out: &mut W, room: &mut Room, step: Step) -> io::Result<()> {
    write!(out, "{step}")?;
    if !room.run(step) {
        return writeln!(out, " -> refused");
    }
    if let Some(record) = room.record() {
        answer(out, &record, step)?;
    }
    writeln!(out)
}

fn main(rt: HostRuntime) -> io::Result<()> {
    let mut out = rt.stdout();
    let mut room = Room::new();
    for step in &steps::STEPS {
        show(&mut out, &mut room, *step)?;
    }
    Ok(())
}
