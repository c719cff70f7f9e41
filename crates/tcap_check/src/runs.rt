//! The run that a certificate gives for a record, step by step, up to a refusal.

ghost use Rattle.std.specs.Prelude.{◌≡◌, ◌≢◌, [], true, map, Some, Ok, Err, IfOk, IfSome, OnOk};
ghost use Rattle.tcap_certificate.specs.declared.fault.CheckFault.{CheckFault as Refusal};
ghost use Rattle.tcap_end.specs.End.{nothing};
ghost use Rattle.tcap_model.specs.declared.reason.Reason.TheVariants as reasons;
ghost use Rattle.tcap_model.specs.Entries.{item_of};
ghost use Rattle.tcap_check.specs.OneEndRun.{IsGivenTo};
ghost use Rattle.tcap_check.specs.CheckerMeaning.{HasTakenListing, map_ok};
ghost use Rattle.tcap_check.specs.ReplayInvariants.{IsReady, checking_of};
ghost use Rattle.tcap_check.specs.RunSoFar.{EndsListed, UnlessMemory, IsAnswered, IsRefusedThere, IsSoFar, ShowsAmong, IsPartialReplay, answered};
ghost use Rattle.tcap_certificate.specs.Replay.{certificate_fits, discards_by, fault_at, replayed_by};
ghost use Rattle.tcap_check.specs.ReportedSteps.{MayAllBeDiscarded, discards_of, events_of};

use crate::progress::{OUT_OF_MEMORY, Progress};
use crate::replaying::Replaying;
use crate::step::Step;
use std::alloc::{AllocError, Global};
use tcap_certificate::{Certificate, CheckFault};
use tcap_end::{EndState, Table};
use tcap_model::Reason;
use tcap_record::{End, Record};

/// A run, complete or up to a refusal.
#[derive(Debug, Drop)]
pub struct Partial {
    /// The reason why the certificate gives no run, with an entry, or `None` if the run is complete.
    pub refused: Option<CheckFault>,
    /// The steps, in order.
    pub steps: Vec<Step>,
    /// The end A after these steps.
    pub a: EndState,
    /// The end B after these steps.
    pub b: EndState,
}

/// Replays the entries of a record and the end of the record. Fails with the first refusal, or with `Memory`.
fn go_through<'r>(replaying: &mut Replaying<'_, 'r>, record: &'r Record) -> Result<(), CheckFault>
    requires ready { IsReady replaying.old }
    ensures answer { HasTakenListing true (checking_of replaying.old) []
        → UnlessMemory result (EndsListed replaying.old.judged
        replaying.old.table.now replaying.old.certificate.now «record».now.entries.items result
        replaying.new.progress) }
    ensures so_far { HasTakenListing true (checking_of replaying.old) []
        → UnlessMemory result (IsPartialReplay replaying.old.table.now
        replaying.old.certificate.now replaying.old.judged «record».now.entries.items replaying.new.progress) }
    ensures shows { HasTakenListing true (checking_of replaying.old) []
        → ShowsAmong replaying.old.table.now «record».now.entries.items result
        replaying.new.progress }
{
    replaying.take_all(record)?;
    replaying.end()
}

/// Returns the refusal, if there is one. Fails if memory ran out.
fn refusal_of(answer: Result<(), CheckFault>) -> Result<Option<CheckFault>, AllocError>
    ensures refused { IfOk result (λ refused. answered refused tt ≡ answer) }
    ensures memory { OnOk result (answer ≢ Err (fault_at reasons.Memory 0)) }
{
    match answer {
        Ok(()) => Ok(None),
        Err(fault) if matches!(fault.reason, Reason::Memory) => Err(AllocError),
        Err(fault) => Ok(Some(fault)),
    }
}

/// Returns the result for a certificate that is refused before the first entry: no steps and two new ends. Fails if
/// memory ran out.
fn nothing_of(alloc: Global, fault: CheckFault) -> Result<Partial, AllocError>
    ensures refused { IfOk result (λ run. run.refused ≡ Some fault) }
    ensures none { IfOk result (λ run. (run.steps.items ≡ []) × (run.a ≡ nothing) × (run.b ≡ nothing)) }
    ensures memory { OnOk result (fault ≢ fault_at reasons.Memory 0) }
{
    match fault.reason {
        Reason::Memory => Err(AllocError),
        _ => Ok(Partial {
            refused: Some(fault),
            steps: Vec::new(alloc),
            a: EndState::new(alloc),
            b: EndState::new(alloc),
        }),
    }
}

/// Replays a certificate over a record as far as possible, and returns the steps up to a refusal (Q.774 3.2 and 3.3).
///
/// Both ends are returned as they are after these steps. If nothing is refused, the steps are those of `run_of`. If a
/// number of the certificate is out of range, there are no steps and both ends are new. If one end is judged alone, its
/// peer stays as it was at the start.
///
/// # Errors
///
/// `AllocError` if memory runs out.
pub fn run_until(
    alloc: Global,
    record: &Record,
    table: &Table,
    certificate: &Certificate,
    judged: Option<End>,
) -> Result<Partial, AllocError>
    ensures answer { IfOk result (λ run. IsAnswered judged table.now certificate.now «record».now.entries.items
        (answered run.refused run.steps.items)) }
    ensures so_far { certificate_fits certificate.now ≡ Ok tt
        → IfOk result (λ run. IsSoFar judged table.now certificate.now
        «record».now.entries.items run.steps.items run.a run.b) }
    ensures stopped { IfOk result
        (λ run. IfSome run.refused (λ fault. IsRefusedThere table.now «record».now.entries.items fault run.a run.b)) }
    ensures none { (fault : Refusal) → certificate_fits certificate.now ≡ Err fault
        → IfOk result (λ run. (run.steps.items ≡ [])
        × (run.a ≡ nothing) × (run.b ≡ nothing)) }
{
    let mut replaying = match Replaying::new(alloc, table, certificate, judged, true) {
        Ok(replaying) => replaying,
        Err(fault) => return nothing_of(alloc, fault),
    };
    let refused = refusal_of(go_through(&mut replaying, record))?;
    let Progress { a, b, steps, .. } = replaying.into_progress();
    let steps = match steps {
        Some(steps) => steps.into_list(),
        None => Vec::new(alloc),
    };
    Ok(Partial {
        refused,
        steps,
        a: a.end,
        b: b.end,
    })
}

/// Returns the run that a certificate gives for a record, step by step (Q.774 3.2 and 3.3).
///
/// With `None` both ends are judged: a run of two ends that sends exactly the entries of the record, in order, over two
/// channels that keep order and may lose messages.
///
/// With `Some(end)` this end alone keeps the rules, and its peer may send anything (`Tells`). The end's own messages
/// are lost as soon as they are sent, since it does not matter what the peer receives. A message that the end cannot
/// receive is lost (`Discards`).
///
/// # Errors
///
/// The first reason why the certificate gives no such run, with an entry, as `check` returns it. `Memory` if memory
/// runs out.
pub fn run_of(
    alloc: Global,
    record: &Record,
    table: &Table,
    certificate: &Certificate,
    judged: Option<End>,
) -> Result<Vec<Step>, CheckFault>
    ensures given { IfOk result (λ steps. IsGivenTo judged table.now certificate.now «record».now.entries.items
        (events_of steps.items)) }
    ensures exact { result ≢ Err (fault_at reasons.Memory 0) → map_ok (λ steps. events_of steps.items) result
        ≡ replayed_by judged table.now certificate.now «record».now.entries.items }
    ensures discards { result ≢ Err (fault_at reasons.Memory 0) → map_ok (λ steps. discards_of steps.items) result
        ≡ discards_by judged table.now certificate.now (map item_of «record».now.entries.items) }
    ensures may { IfOk result (λ steps. MayAllBeDiscarded judged certificate.now (discards_of steps.items)) }
{
    let Ok(run) = run_until(alloc, record, table, certificate, judged) else {
        return Err(OUT_OF_MEMORY);
    };
    let Partial { refused, steps, .. } = run;
    match refused {
        Some(fault) => Err(fault),
        None => Ok(steps),
    }
}
