//! The benchmark: jobs that a user of the judge waits for, over records that it generates.
//!
//! `tcap_speed JOB SEED [ENTRIES]` generates records with about ENTRIES entries in all, judges them, and prints how
//! the calls ended and a digest of their output. `tcap_speed all SEED ENTRIES` does each job. docs/PERF.md describes
//! the workloads.
#![tactic(auto)]

mod awkward;
mod calls;
mod dialogues;
mod dice;
mod faults;
mod jobs;
mod octets;
mod parts;
mod record;
mod traffic;

use crate::calls::Answers;
use crate::jobs::{JOBS, Job, answers_of};
use std::process::ExitCode;
use std::{env, io};

/// Returns the words of the command line without the program's name: a job, a seed and a count of entries.
fn words(rt: &HostRuntime) -> io::Result<Vec<String>> {
    let texts: Vec<String> = env::args(rt)?.collect(rt.alloc())?;
    let mut words = Vec::new(rt.alloc());
    for text in texts.into_iter().skip(1) {
        words.push(text)?;
    }
    Ok(words)
}

/// Reads a word as a number. Returns 0 if there is no word, or it is not a number.
fn number(word: Option<&String>) -> u32 {
    word.and_then(|word| word.parse::<u32>().ok()).unwrap_or(0)
}

/// Prints how the calls of a job ended, and the digest of their output.
fn print(rt: &HostRuntime, name: &str, answers: Answers) -> io::Result<()> {
    let Answers {
        fine,
        refuted,
        undecided,
        faulty,
        digest,
    } = answers;
    println!(rt;
        "{name}: {fine} fine, {refuted} refuted, {undecided} undecided, {faulty} faulty, digest {digest:x}"
    )
}

/// Does a job and prints its answers. A count of 0 stands for the job's usual count of entries.
fn run_job(rt: &HostRuntime, job: Job, seed: u32, entries: u32) -> io::Result<()> {
    let count = if entries == 0 { job.entries() } else { entries };
    match answers_of(rt.alloc(), job, seed, count) {
        Ok(answers) => print(rt, job.name(), answers),
        Err(_) => Err(io::Error::from(io::ErrorKind::OutOfMemory)),
    }
}

fn run(rt: &HostRuntime) -> io::Result<()> {
    let words = words(rt)?;
    let asked = match words.first() {
        Some(word) => word.as_str(),
        None => "all",
    };
    let (seed, entries) = (number(words.get(1)), number(words.get(2)));
    for job in JOBS {
        if asked == "all" || asked == job.name() {
            run_job(rt, job, seed, entries)?;
        }
    }
    Ok(())
}

fn main(rt: HostRuntime) -> ExitCode {
    match run(&rt) {
        Ok(()) => ExitCode::SUCCESS,
        Err(_) => ExitCode::FAILURE,
    }
}
