//! Worked runs of two ends, each with the certificate that describes it. Each function has an empty body, and its
//! clauses are the facts.

ghost use Rattle.tcap_certificate.specs.WorkedRuns as worked;
ghost use Rattle.tcap_certificate.specs.Certificate.{IsPrompt};
ghost use Rattle.tcap_certificate.specs.WorkedRuns.{IsDescribedRun, IsWorked, IsWorkedBy, IsWorkedFor};

/// Shows the worked runs of two ends that keep the rules, with their numbers of steps.
pub fn two_ends()
    ensures empty_record { IsWorked worked.empty_record 0 }
    ensures two_entries { IsWorked worked.two_entries 4 × IsPrompt worked.two_entries.certificate }
    ensures three_entries { IsWorked worked.three_entries 6 × IsPrompt worked.three_entries.certificate }
    ensures crossing { IsWorked worked.crossing 9 }
    ensures late_reject { IsWorked worked.late_reject 7 }
    ensures delayed { IsWorked worked.delayed 11 }
    ensures closed_half { IsWorked worked.closed_half 6 }
    ensures refused_begin { IsWorked worked.refused_begin 3 }
    ensures lost_begin { IsWorked worked.lost_begin 2 }
    ensures over_a_mark { IsWorked worked.over_a_mark 9 }
    ensures both_again { IsWorked worked.both_again 13 }
    ensures in_a_row { IsWorked worked.in_a_row 4 }
    ensures end_implies { IsWorked worked.end_implies 7 }
    ensures both_close { IsWorkedBy worked.prearranged worked.both_close 9 }
{}

/// Shows that the certificate also describes a run that names a half by its peer's ID: 7 steps.
pub fn by_the_other_name()
    ensures { IsDescribedRun worked.by_the_other_name 7 }
{}

/// Shows the worked runs in which one end keeps the rules, and its peer does not.
pub fn one_end()
    ensures continues_behind_its_end { IsWorkedFor worked.table worked.continues_behind_its_end }
    ensures end_is_not_heard { IsWorkedFor worked.table worked.end_is_not_heard }
{}
