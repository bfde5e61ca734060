//! Reads many small and some large control files, and prints for each the ground that it describes or its fault.
#![tactic(auto)]

mod eight;
mod large;
mod small;

use control::ControlFile;
use eight::example_trial;
use large::{components, repeated};
use levels::Level;
use refusals::Refusal;
use sets::ComponentSet;
use std::io;
use std::io::Read;
use texts::{ReadError, RefusedLine};

/// How many names and clauses of a ground are printed: the last ones.
const SHOWN: usize = 8;

fn print_name(rt: &impl Print, name: &[u8]) -> io::Result<()> {
    match std::str::from_utf8(name) {
        Ok(text) => print!(rt; " {text}"),
        Err(_) => rt.print(" (not ASCII)"),
    }
}

// The runtime goes along to everything that prints: a struct of it and the file would only be taken apart again.

/// The names, each if it leads back to its component. Behind the last there is none, and none is `absent`.
fn print_names(rt: &impl Print, file: &ControlFile) -> io::Result<()> {
    let size = file.size();
    print!(rt; "{} names", file.present().len())?;
    for component in file
        .present()
        .iter()
        .skip(file.present().len().saturating_sub(SHOWN))
    {
        if let Ok(name) = file.name(component)
            && file.find(name) == Some(component)
        {
            print_name(rt, name)?;
        }
    }
    if file.find(b"absent").is_some() {
        return rt.print(" and absent");
    }
    match file.name(size) {
        Err(Refusal::NoComponent) => Ok(()),
        _ => rt.print(" and more"),
    }
}

/// Each clause as owner and members, by its place, since the look-ups that are tried here take one.
fn print_needs(rt: &impl Print, file: &ControlFile) -> io::Result<()> {
    let count = file.clause_count();
    print!(rt; "; {count} needs")?;
    for place in count.saturating_sub(SHOWN)..count {
        if let (Ok(owner), Ok(members)) = (file.owner(place), file.members(place)) {
            print!(rt; " {owner}{members:?}")?;
        }
    }
    Ok(())
}

/// Each component that has conflicts, and its conflict set.
fn print_clashes(rt: &impl Print, file: &ControlFile) -> io::Result<()> {
    rt.print("; clashes")?;
    for component in file.present() {
        if let Ok(others) = file.conflicts(component)
            && !others.is_empty()
        {
            print!(rt; " {component}{others:?}")?;
        }
    }
    rt.println("")
}

fn print_ground(rt: &impl Print, file: &ControlFile) -> io::Result<()> {
    print_names(rt, file)?;
    print_needs(rt, file)?;
    print_clashes(rt, file)
}

/// The outcome of reading a text, in one line.
fn trial(rt: &(impl Print + AllocGlobal), number: usize, text: Vec<u8>) -> io::Result<()> {
    print!(rt; "{number}: ")?;
    match ControlFile::read(rt.alloc(), text) {
        Ok(file) => print_ground(rt, &file),
        Err(ReadError::Faulty(fault)) => println!(rt; "{}", RefusedLine(fault)),
        Err(ReadError::OutOfMemory) => rt.println("out of memory"),
    }
}

/// Reads texts that begin with the head and end with one of the tails.
fn table(
    rt: &(impl Print + AllocGlobal),
    first: usize,
    head: &[u8],
    tails: &[&[u8]],
) -> io::Result<()> {
    for (number, tail) in (first..).zip(tails) {
        let mut text = head.to_vec(rt.alloc())?;
        text.extend_from_slice(tail)?;
        trial(rt, number, text)?;
    }
    Ok(())
}

/// The small texts: about lines and fields, about values, and about what they mean.
fn small_trials(rt: &(impl Print + AllocGlobal)) -> io::Result<()> {
    for (first, texts) in [
        (100, small::LINES),
        (200, small::LABELS),
        (300, small::CONTINUATIONS),
        (400, small::STRAYS),
        (500, small::PACKAGES),
        (600, small::NAMES),
        (700, small::DEPENDS),
        (800, small::CONFLICTS),
        (900, small::MEANINGS),
    ] {
        table(rt, first, b"", texts)?;
    }
    Ok(())
}

/// Texts with 512 clauses, and what follows them.
fn clause_trials(rt: &(impl Print + AllocGlobal)) -> io::Result<()> {
    let head = repeated(rt.alloc(), b"Package: map\nDepends: map", b", map", 511)?;
    table(rt, 1000, head.as_slice(), small::AFTER_CLAUSES)
}

/// Texts with 64 components that have the same lines, and what follows them.
fn component_trials(
    rt: &(impl Print + AllocGlobal),
    first: usize,
    lines: &[u8],
    tails: &[&[u8]],
) -> io::Result<()> {
    let head = components(rt.alloc(), lines)?;
    table(rt, first, head.as_slice(), tails)
}

/// Texts of one length.
fn length_trials(rt: &(impl Print + AllocGlobal), first: usize, length: usize) -> io::Result<()> {
    for (number, (head, filler)) in (first..).zip(small::HEADS) {
        let missing = length.saturating_sub(head.len());
        trial(rt, number, repeated(rt.alloc(), head, filler, missing)?)?;
    }
    Ok(())
}

fn run(rt: &(impl Print + AllocGlobal), input: impl Read + Drop) -> io::Result<()> {
    example_trial(rt, input)?;
    small_trials(rt)?;
    clause_trials(rt)?;
    component_trials(
        rt,
        1100,
        b"\nDepends: c0, c0, c0, c0, c0, c0, c0, c0",
        small::AFTER_SPREAD,
    )?;
    component_trials(rt, 1200, b"", small::AFTER_COMPONENTS)?;
    length_trials(rt, 1300, 65535)?;
    length_trials(rt, 1400, 65536)
}

fn main(rt: HostRuntime) -> io::Result<()> {
    run(&rt, rt.stdin())
}
