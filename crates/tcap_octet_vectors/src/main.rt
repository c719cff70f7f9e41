//! Checks test vectors of elements, parts, messages, records and printed lines. The program reads rows on standard
//! input, prints the number of each line whose row does not hold or can't be read, and then the count of rows.
//! `stdin` begins with a description of its rows.
#![tactic(auto)]

mod answers;
mod commands;
mod components;
mod devices;
mod dialogues;
mod elements;
mod long;
mod made;
mod messages;
mod octets;
mod packing;
mod parts;
mod records;
mod values;

use crate::commands::holds;
use std::io;
use std::process::ExitCode;
use tcap_ber::{Counted, read_to_end};

/// Checks each row of the sheet. Prints the numbers of the lines whose row does not hold, and the count of rows.
fn look(rt: &HostRuntime, sheet: &str) -> io::Result<()> {
    let mut command = "";
    let mut count = 0_usize;
    for (index, line) in sheet.lines().enumerate() {
        if line.is_empty() || line.starts_with('#') {
            continue;
        }
        if line.starts_with('[') {
            command = line;
            continue;
        }
        count = count.saturating_add(1);
        let number = index.saturating_add(1);
        match holds(rt.alloc(), command, line) {
            Some(true) => {}
            Some(false) => println!(rt; "line {number} of {command} does not hold")?,
            None => println!(rt; "line {number} of {command} can't be read")?,
        }
    }
    println!(rt; "{count} rows")
}

fn run(rt: &HostRuntime) -> io::Result<()> {
    let mut octets = Vec::new(rt.alloc());
    if read_to_end(&mut Counted::new(rt.reader()), &mut octets).is_err() {
        return Err(io::Error::from(io::ErrorKind::Other));
    }
    match str::from_utf8(&octets) {
        Ok(sheet) => look(rt, sheet),
        Err(_) => Err(io::Error::from(io::ErrorKind::InvalidData)),
    }
}

fn main(rt: HostRuntime) -> ExitCode {
    match run(&rt) {
        Ok(()) => ExitCode::SUCCESS,
        Err(_) => ExitCode::FAILURE,
    }
}
