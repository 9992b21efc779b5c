//! Closes terms under congruence, or checks bounds by simplex, and prints a line of counts. How long that takes is measured from
//! outside.
//!
//! `race FAMILY N` closes terms of one of the families `chains`, `grid` and `merges`, with N from 2 to 10,000,000.
//!
//! `race FAMILY N [build]` checks a system of one of `chain`, `cycle`, `transport`, `square`, `dense`, `loose` and `sparse`, with N from
//! 2 to 100,000. The line has rows, variables and entries, the entries after so many exchanges, and the answer. That is `fine`,
//! `conflict`, `crossed`, or `overflow` with the operation that left 128 bits and its operands. With `build` nothing is checked, and
//! the line has the first three numbers alone.
//!
//! The exit status is 0, or 2 for wrong arguments, with the usage text. It is 3 where memory ran out, 5 where standard output failed,
//! and 1 where a term, a row or a bound was refused, which no family brings about.
#![tactic(auto)]

mod closing;
mod draft;
mod families;
mod fault;
mod line;
mod plan;
mod system;
mod terms;

use crate::fault::Fault;
use std::alloc::Global;
use std::env;
use std::io::ErrorKind;
use std::process::ExitCode;
use std::rt::Env;
use world_io::{HostSink, write_all};

/// What is printed where the arguments are wrong.
const USAGE: &str = "usage: race chains|grid|merges N\n\
    or: race chain|cycle|transport|square|dense|loose|sparse N [build]\n";

/// Ends with 0 where the line was printed.
fn main(rt: HostRuntime) -> ExitCode {
    ExitCode::from(status_of(&rt))
}

/// Runs the family that the arguments name, prints its line, and gives the exit status.
fn status_of<R: Print + Env + AllocGlobal>(rt: &R) -> u8 {
    match line_of(rt) {
        Ok(line) => print(rt, &line, 0),
        Err(Fault::Arguments) => print(rt, USAGE, 2),
        Err(Fault::Memory) => 3,
        Err(Fault::Refused) => 1,
    }
}

/// Prints a text, and gives a status, or 5 where standard output failed.
fn print<R: Print>(rt: &R, text: &str, status: u8) -> u8 {
    match write_all(&mut HostSink::new(rt), text.as_bytes()) {
        Ok(()) => status,
        Err(_) => 5,
    }
}

/// Runs the family that the arguments name, and gives its line.
fn line_of<R: Env + AllocGlobal>(rt: &R) -> Result<String, Fault> {
    let arguments = arguments_of(rt)?;
    match arguments.as_slice() {
        [_, family, count] => run(rt.alloc(), family, count),
        [_, family, count, word] if word.as_str() == "build" => {
            check(rt.alloc(), family, count, false)
        }
        _ => Err(Fault::Arguments),
    }
}

/// Collects the arguments of the program, its name first. Those that are not UTF-8, or cannot be had as a whole, are wrong.
fn arguments_of<R: Env + AllocGlobal>(rt: &R) -> Result<Vec<String>, Fault> {
    match env::args(rt) {
        Ok(args) => Ok(args.collect(rt.alloc())?),
        Err(error) if error.kind() == ErrorKind::OutOfMemory => Err(Fault::Memory),
        Err(_) => Err(Fault::Arguments),
    }
}

/// Gives the number that a word stands for, from 2 to a greatest one.
fn count_of(word: &str, most: u32) -> Result<u32, Fault> {
    match word.parse::<u32>() {
        Ok(n) if 2 <= n && n <= most => Ok(n),
        _ => Err(Fault::Arguments),
    }
}

/// Runs a family, and gives its line.
fn run(alloc: Global, name: &str, count: &str) -> Result<String, Fault> {
    match plan::family_of(name) {
        Some(family) => closing::line_of(alloc, family, count_of(count, 10_000_000)?),
        None => check(alloc, name, count, true),
    }
}

/// Builds the system of a family, checks it where it is to be checked, and gives its line.
fn check(alloc: Global, name: &str, count: &str, checked: bool) -> Result<String, Fault> {
    match families::family_of(name) {
        Some(family) => line::line_of(alloc, family, count_of(count, 100_000)?, checked),
        None => Err(Fault::Arguments),
    }
}
