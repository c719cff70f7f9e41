//! Test vectors for ends, tables, books, certificates, and verdicts on records and dialogues.
//!
//! The program reads rows on standard input and checks each. It prints the number of each line whose row does not hold
//! or cannot be read, then the count of rows, and the count of calls in `calls` in which memory ran out. The head of
//! `stdin` describes the rows. `make memory` runs the rows of `calls`.
#![tactic(auto)]

mod books;
mod certificates;
mod commands;
mod cuts;
mod dialogues;
mod ends;
mod packing;
mod records;
mod runs;
mod tables;

use crate::commands::holds;
use std::io;
use std::process::ExitCode;
use tcap_ber::{Counted, read_to_end};

/// Checks each row of the sheet, and prints the lines of those that do not hold, and the counts.
fn look(rt: &HostRuntime, sheet: &str) -> io::Result<()> {
    let mut command = "";
    let mut count = 0_usize;
    let mut failed = 0_usize;
    for (index, line) in sheet.lines().enumerate() {
        if line.is_empty() || line.starts_with('#') {
            continue;
        }
        if line.starts_with('[') && line.ends_with(']') {
            command = line;
            continue;
        }
        count = count.saturating_add(1);
        let number = index.saturating_add(1);
        match holds(rt.alloc(), command, line, &mut failed) {
            Some(true) => {}
            Some(false) => println!(rt; "line {number} of {command} does not hold")?,
            None => println!(rt; "line {number} of {command} can't be read")?,
        }
    }
    println!(rt; "{count} rows, {failed} calls without memory")
}

fn run(rt: &HostRuntime) -> io::Result<()> {
    let mut octets = Vec::new(rt.alloc());
    if read_to_end(&mut Counted::new(rt.reader()), &mut octets).is_err() {
        return Err(io::Error::from(io::ErrorKind::Other));
    }
    match str::from_utf8(&octets) {
        Ok(sheet) => look(rt, sheet),
        Err(_) => Err(io::Error::from(io::ErrorKind::InvalidData)),
    }
}

fn main(rt: HostRuntime) -> ExitCode {
    match run(&rt) {
        Ok(()) => ExitCode::SUCCESS,
        Err(_) => ExitCode::FAILURE,
    }
}
