//! Worked records, with the entry that is refuted and its kind, if there is one. Each function's contract alone is
//! its statement.

ghost use Rattle.tcap_refute.specs.WorkedKinds as worked;

pub fn octets_of_no_message()
    ensures { worked.octets_of_no_message }
{}

pub fn limits_refute_nothing()
    ensures { worked.limits_refute_nothing }
{}

pub fn lowest_entry_is_named()
    ensures { worked.lowest_entry_is_named }
{}

pub fn end_to_nothing()
    ensures { worked.end_to_nothing }
{}

pub fn aborts_of_providers()
    ensures { worked.aborts_of_providers }
{}

pub fn used_ids()
    ensures { worked.used_ids }
{}

pub fn twice_ended()
    ensures { worked.twice_ended }
{}

pub fn answers_to_nothing()
    ensures { worked.answers_to_nothing }
{}

pub fn operations()
    ensures { worked.operations }
{}

pub fn dialogue_portions()
    ensures { worked.dialogue_portions }
{}

/// States that a Reject in a Unidirectional (Q.771 3.1.3) and an ABRT whose source is the provider are not refuted.
pub fn left_open()
    ensures { worked.left_open }
{}

pub fn over_marks()
    ensures { worked.over_marks }
{}
