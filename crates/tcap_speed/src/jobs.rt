//! The jobs of the benchmark.

use crate::awkward::{all_under_way, crossing, expiring, one_invoke_id, unheard};
use crate::calls::Answers;
use crate::dialogues::dialogues_of;
use crate::dice::Dice;
use crate::faults::Faults;
use crate::record::Made;
use crate::traffic::{TABLE, make_traffic};
use std::alloc::{AllocError, Global};
use tcap_books::Book;
use tcap_end::Table;
use tcap_record::End;

/// A job that a user waits for.
#[derive(Clone, Copy)]
pub(crate) enum Job {
    /// Judge the record of a load test.
    Load,
    /// Find which end is at fault in such a record.
    Blame,
    /// Explain such a record.
    Explain,
    /// Judge a nightly suite: many records of 10 to 1,000 entries, some of them negative tests.
    Nightly,
    /// Process an archive again: pack lines, show records, and check their certificates.
    Archive,
    /// Judge and check awkward records.
    Awkward,
    /// Find which end is at fault, and explain why, in records with a fault in one of 600 places.
    Faulted,
    /// Judge each dialogue in the trace of a load test with many small dialogues.
    Traces,
    /// Find which end is at fault in each of these dialogues, each as a separate record.
    Small,
}

/// All jobs.
pub(crate) const JOBS: [Job; 9] = [
    Job::Load,
    Job::Blame,
    Job::Explain,
    Job::Nightly,
    Job::Archive,
    Job::Awkward,
    Job::Faulted,
    Job::Traces,
    Job::Small,
];

impl Job {
    /// Returns the name of the job.
    pub(crate) fn name(self) -> &'static str {
        match self {
            Job::Load => "load",
            Job::Blame => "blame",
            Job::Explain => "explain",
            Job::Nightly => "nightly",
            Job::Archive => "archive",
            Job::Awkward => "awkward",
            Job::Faulted => "faulted",
            Job::Traces => "traces",
            Job::Small => "small",
        }
    }

    /// Returns the usual number of entries of all records of the job.
    pub(crate) fn entries(self) -> u32 {
        match self {
            Job::Load => 100_000,
            Job::Blame => 60_000,
            Job::Explain => 60_000,
            Job::Nightly => 240_000,
            Job::Archive => 150_000,
            Job::Awkward => 240_000,
            Job::Faulted => 100_000,
            Job::Traces => 60_000,
            Job::Small => 60_000,
        }
    }
}

/// Makes the record of a load test, with one dialogue at once for each 50 entries.
fn load(alloc: Global, seed: u32, entries: u32) -> Result<Made, AllocError> {
    make_traffic(alloc, entries as usize, entries / 50, Faults::None, seed)
}

/// Judges the records of a nightly suite. Six in ten are lawful. In the others, one transaction ID, Invoke or answer
/// in 100 refers to something that was never sent; they are judged for one end alone, or blamed.
fn nightly(
    alloc: Global,
    answers: &mut Answers,
    seed: u32,
    entries: u32,
) -> Result<(), AllocError> {
    let mut dice = Dice::new(seed);
    for _ in 0..entries.div_ceil(500) {
        let len = dice.between(10, 1_000);
        let dialogues = dice.between(1, 40);
        let kind = dice.below(10);
        let faults = if kind < 6 {
            Faults::None
        } else {
            Faults::Unknown(100)
        };
        let made = make_traffic(alloc, len as usize, dialogues, faults, dice.word())?;
        match kind {
            0..=5 => answers.judge(alloc, &made.octets, None),
            6 => answers.judge(alloc, &made.octets, Some(End::A)),
            7 => answers.judge(alloc, &made.octets, Some(End::B)),
            _ => answers.blame(alloc, &made.octets),
        }
    }
    Ok(())
}

/// Processes three records of an archive again: packs, shows and checks each.
fn archive(
    alloc: Global,
    answers: &mut Answers,
    seed: u32,
    entries: u32,
) -> Result<(), AllocError> {
    let mut dice = Dice::new(seed);
    for _ in 0..3 {
        let made = load(alloc, dice.word(), entries / 3)?;
        let lines = made.lines(alloc)?;
        answers.pack(alloc, &lines);
        answers.show(alloc, &made.octets);
        let certificate = made.certificate(alloc)?;
        answers.check(alloc, &made.octets, certificate.as_str());
    }
    Ok(())
}

/// Judges or checks each kind of awkward record.
fn awkward(
    alloc: Global,
    answers: &mut Answers,
    seed: u32,
    entries: u32,
) -> Result<(), AllocError> {
    let few = entries / 6;
    answers.judge(alloc, &one_invoke_id(alloc, few, seed)?.octets, None);
    answers.judge(alloc, &crossing(alloc, few, seed)?.octets, None);
    answers.judge(alloc, &unheard(alloc, few, seed)?.octets, Some(End::B));
    let made = all_under_way(alloc, few, seed)?;
    let certificate = made.certificate(alloc)?;
    answers.check(alloc, &made.octets, certificate.as_str());
    let made = expiring(alloc, few.saturating_mul(2), seed)?;
    let certificate = made.certificate(alloc)?;
    answers.check(alloc, &made.octets, certificate.as_str());
    Ok(())
}

/// Blames and explains records of 200 to 3,800 entries. In half of the records one transaction ID, Invoke or answer
/// in 600 refers to something that was never sent; in the other half one Invoke or answer in 600 is sent twice.
fn faulted(
    alloc: Global,
    answers: &mut Answers,
    seed: u32,
    entries: u32,
) -> Result<(), AllocError> {
    let mut dice = Dice::new(seed);
    for _ in 0..entries.div_ceil(2_000) {
        let len = dice.between(200, 3_800);
        let dialogues = dice.between(5, 100);
        let faults = if dice.one_in(2) {
            Faults::Unknown(600)
        } else {
            Faults::Twice(600)
        };
        let made = make_traffic(alloc, len as usize, dialogues, faults, dice.word())?;
        answers.blame(alloc, &made.octets);
        answers.explain(alloc, &made.octets);
    }
    Ok(())
}

/// Judges the dialogues of a trace of lines.
fn traces(alloc: Global, answers: &mut Answers, seed: u32, entries: u32) -> Result<(), AllocError> {
    let lines = load(alloc, seed, entries)?.lines(alloc)?;
    match Book::from_json(alloc, TABLE.as_bytes()) {
        Ok(book) => answers.test(alloc, &lines, &book),
        Err(_) => return Err(AllocError),
    }
    Ok(())
}

/// Blames each dialogue of such a trace, as a separate record.
fn small(alloc: Global, answers: &mut Answers, seed: u32, entries: u32) -> Result<(), AllocError> {
    let records = dialogues_of(alloc, &load(alloc, seed, entries)?)?;
    match Table::from_json(alloc, TABLE.as_bytes()) {
        Ok(table) => {
            for record in &records {
                answers.blame_small(alloc, record, &table);
            }
        }
        Err(_) => return Err(AllocError),
    }
    Ok(())
}

/// Does a job over records with about `entries` entries in all, and returns its answers. Fails if memory runs out.
pub(crate) fn answers_of(
    alloc: Global,
    job: Job,
    seed: u32,
    entries: u32,
) -> Result<Answers, AllocError> {
    let mut answers = Answers::new();
    match job {
        Job::Load => answers.judge(alloc, &load(alloc, seed, entries)?.octets, None),
        Job::Blame => answers.blame(alloc, &load(alloc, seed, entries)?.octets),
        Job::Explain => answers.explain(alloc, &load(alloc, seed, entries)?.octets),
        Job::Nightly => nightly(alloc, &mut answers, seed, entries)?,
        Job::Archive => archive(alloc, &mut answers, seed, entries)?,
        Job::Awkward => awkward(alloc, &mut answers, seed, entries)?,
        Job::Faulted => faulted(alloc, &mut answers, seed, entries)?,
        Job::Traces => traces(alloc, &mut answers, seed, entries)?,
        Job::Small => small(alloc, &mut answers, seed, entries)?,
    }
    Ok(answers)
}
