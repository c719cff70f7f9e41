//! The evidence for the faults of a dialogue, and what the runs of its ends show.

use crate::end_runs::shown_by_run;
use crate::listed_entries::blamed_by;
use crate::order::{is_asked, later_end};
use std::alloc::{AllocError, Global};
use std::collections::BTreeSet;
use tcap_evidence::{Evidence, find_evidence};
use tcap_record::End;
use tcap_traces::{EndResult, JudgedDialogue};

/// The most entries of a ground, and the most invocations, that are named.
const MOST: usize = 8;

/// The evidence for the fault of each end, if the end is asked and at fault, and the entry that its run shows.
#[derive(Drop)]
pub(crate) struct Grounds {
    a: Option<Evidence>,
    b: Option<Evidence>,
    // The last message that the end does not hear, or the entry at which the search for a run stopped.
    run_of_a: Option<u64>,
    run_of_b: Option<u64>,
    /// The end whose fault comes later than the other's and may follow from it.
    pub(crate) later: Option<End>,
}

/// Finds the evidence for the fault of an end, if the end is asked and at fault.
fn evidence_of(
    alloc: Global,
    judged: &JudgedDialogue,
    of: Option<End>,
    end: End,
) -> Result<Option<Evidence>, AllocError> {
    let (Some(table), Some(ends)) = (judged.table, judged.ends) else {
        return Ok(None);
    };
    match ends.of(end) {
        EndResult::Fail(at) | EndResult::Doubtful(at, _) if is_asked(of, end) => {
            match find_evidence(alloc, &judged.record, table.table(), end, at, true) {
                Ok(found) => Ok(Some(found)),
                Err(_) => Err(AllocError),
            }
        }
        _ => Ok(None),
    }
}

/// Adds the first entries of each ground, and the entries of the first invocations.
fn add_shown(named: &mut BTreeSet<u64>, evidence: &Option<Evidence>) -> Result<(), AllocError> {
    let Some(evidence) = evidence else {
        return Ok(());
    };
    for ground in &evidence.grounds {
        for number in ground.entries.iter().take(MOST) {
            named.insert(*number)?;
        }
    }
    for invocation in evidence.invocations.iter().take(MOST) {
        named.insert(invocation.entry)?;
    }
    Ok(())
}

impl Grounds {
    /// Finds the evidence for both ends of a dialogue, and what their runs show. `AllocError` if memory runs out.
    pub(crate) fn of(
        alloc: Global,
        judged: &JudgedDialogue,
        of: Option<End>,
    ) -> Result<Grounds, AllocError> {
        Ok(Grounds {
            a: evidence_of(alloc, judged, of, End::A)?,
            b: evidence_of(alloc, judged, of, End::B)?,
            run_of_a: shown_by_run(alloc, judged, of, End::A)?,
            run_of_b: shown_by_run(alloc, judged, of, End::B)?,
            later: match judged.ends {
                Some(ends) => later_end(ends, of),
                None => None,
            },
        })
    }

    /// Returns the evidence for the fault of an end.
    pub(crate) fn at(&self, end: End) -> &Option<Evidence> {
        match end {
            End::A => &self.a,
            End::B => &self.b,
        }
    }

    /// Returns the entry that the run of an end shows: the last message that the end does not hear, or the entry at
    /// which the search for a run stopped. None if the result for the end has neither.
    pub(crate) fn shown_by_run(&self, end: End) -> Option<u64> {
        match end {
            End::A => self.run_of_a,
            End::B => self.run_of_b,
        }
    }

    /// Returns the numbers of the entries to show: those at fault, one that is no message, the first ones of the
    /// evidence, and those that the runs of the ends show.
    pub(crate) fn named(
        &self,
        alloc: Global,
        judged: &JudgedDialogue,
    ) -> Result<BTreeSet<u64>, AllocError> {
        let mut named = BTreeSet::new(alloc);
        add_shown(&mut named, &self.a)?;
        add_shown(&mut named, &self.b)?;
        for number in [self.run_of_a, self.run_of_b] {
            if let Some(number) = number {
                named.insert(number)?;
            }
        }
        if let Some(ends) = judged.ends {
            for said in [ends.a, ends.b] {
                if let Some(number) = named_by(said) {
                    named.insert(number)?;
                }
            }
        }
        Ok(named)
    }
}

/// Returns the entry that the result for an end is about.
fn named_by(said: EndResult) -> Option<u64> {
    match said {
        EndResult::AfterBadEntry(number)
        | EndResult::SeveralMalformed(_, number)
        | EndResult::UnlikelyAnswer(number)
        | EndResult::UnclearReading(number)
        | EndResult::AsIfMessage(number) => Some(number),
        EndResult::PassBy(taken, _) => Some(taken.entry),
        _ => blamed_by(said),
    }
}
