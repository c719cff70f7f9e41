//! Worked proposals. Each function has an empty body, and its contract is the fact.

ghost use Rattle.tcap_search.specs.WorkedProposals as worked;

/// Shows that the certificate proposed for these records is the one that describes their worked run.
pub fn of_worked_runs()
    ensures { worked.of_worked_runs }
{}

/// Shows that an End is lost if it would be delivered after a later Begin of the same end.
pub fn lost_end()
    ensures { worked.lost_end }
{}

/// Shows that the search is incomplete: it proposes certificates that give no run although another certificate does.
pub fn not_lawful()
    ensures { worked.not_lawful }
{}

/// Shows that an entry that is no message has the gap after it.
pub fn bad_entry()
    ensures { worked.bad_entry }
{}

/// Shows that, for one end alone, an Abort of its receiver's provider does not hold back an End.
pub fn end_before_an_abort()
    ensures { worked.end_before_an_abort }
{}

/// Shows that a Begin without an answer before a mark is lost for its receiver alone.
pub fn lost_begin()
    ensures { worked.lost_begin }
{}

/// Shows that a Continue to a half that sent none is lost before a mark, for its receiver alone.
pub fn lost_continue()
    ensures { worked.lost_continue }
{}
