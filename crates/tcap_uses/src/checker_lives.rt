ghost use Rattle.std.specs.Prelude.{◌≡◌, ◌≢◌, ◌∷◌, [], Ok, Err, IfOk, None, Some};
ghost use Rattle.tcap_model.specs.declared.reason.Reason.TheVariants as reasons;
ghost use Rattle.tcap_model.specs.World.{Item};
ghost use Rattle.tcap_check.specs.CheckerMeaning.{map_ok, reported};
ghost use Rattle.tcap_certificate.specs.Replay.{fault_at, run_by};

use std::alloc::Global;
use tcap_check::{Certificate, CheckFault, Checker, Report};
use tcap_end::Table;
use tcap_record::End;

/// Returns how many messages wait to be received after a quiet mark, which is none, and the certificate.
///
/// Callers may move a certificate before everything that borrowed it is dropped: here, the value that `match` looks at
/// is dropped after the move.
pub fn waits_after_mark(
    alloc: Global,
    table: &Table,
    certificate: Certificate,
) -> Result<(usize, Certificate), CheckFault>
    ensures { IfOk result (λ answer. (answer.0 ≡ 0) × (answer.1 ≡ certificate)) }
{
    match Checker::new(alloc, table, &certificate) {
        Ok(mut checker) => {
            let marked = checker.mark();
            let waiting = checker.pending();
            drop(checker);
            match marked {
                Ok(()) => Ok((waiting, certificate)),
                Err(fault) => Err(fault),
            }
        }
        Err(fault) => Err(fault),
    }
}

/// Returns how many messages an end that is judged alone has to receive after a quiet mark, and the certificate.
pub fn end_waits_after_mark(
    alloc: Global,
    table: &Table,
    certificate: Certificate,
    end: End,
) -> Result<(usize, Certificate), CheckFault>
    ensures { IfOk result (λ answer. answer.1 ≡ certificate) }
{
    match Checker::judging(alloc, table, &certificate, Some(end)) {
        Ok(mut checker) => {
            let marked = checker.mark();
            let waiting = checker.pending();
            drop(checker);
            match marked {
                Ok(()) => Ok((waiting, certificate)),
                Err(fault) => Err(fault),
            }
        }
        Err(fault) => Err(fault),
    }
}

/// Checks a certificate for a record that is one quiet mark. Callers may declare a checker before the table and the
/// certificate that it borrows.
pub fn given_of_mark(alloc: Global, given: (Table, Certificate)) -> Result<Report, CheckFault>
    ensures { result ≢ Err (fault_at reasons.Memory 0)
        → result ≡ map_ok (reported None) (run_by None given.0 given.1 (Ok Item.Quiet ∷ [])) }
{
    let mut checker;
    let (table, certificate) = given;
    checker = match Checker::new(alloc, &table, &certificate) {
        Ok(checker) => checker,
        Err(fault) => return Err(fault),
    };
    let _ = checker.mark();
    checker.finish()
}

/// Checks a certificate of one end for a record that is one quiet mark.
pub fn heard_of_mark(
    alloc: Global,
    given: (Table, Certificate),
    end: End,
) -> Result<Report, CheckFault>
    ensures { result ≢ Err (fault_at reasons.Memory 0)
        → result ≡ map_ok (reported (Some «end»)) (run_by (Some «end») given.0 given.1 (Ok Item.Quiet ∷ [])) }
{
    let mut checker;
    let (table, certificate) = given;
    checker = match Checker::judging(alloc, &table, &certificate, Some(end)) {
        Ok(checker) => checker,
        Err(fault) => return Err(fault),
    };
    let _ = checker.mark();
    checker.finish()
}
