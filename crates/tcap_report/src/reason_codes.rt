//! Codes, for programs, of the reasons why an end is inconclusive. They are the names of `Doubt` and `EndResult`.

use tcap_traces::{Doubt, EndResult};

/// Returns the code of a doubt.
fn doubt_code(doubt: Doubt) -> &'static str {
    match doubt {
        Doubt::UnderWay => "under_way",
        Doubt::EarlyMark => "early_mark",
        Doubt::AtMark => "at_mark",
        Doubt::LackingOperation => "lacking_operation",
        Doubt::MaybeOver => "maybe_over",
        Doubt::UnsureTable => "unsure_table",
        Doubt::CameAgain => "came_again",
        Doubt::UsedBefore => "used_before",
        Doubt::Unread => "unread",
    }
}

/// Returns the code of the reason why a result is inconclusive, if it is.
pub(crate) fn reason_code(said: EndResult) -> Option<&'static str> {
    match said {
        EndResult::Pass(_) | EndResult::PassBy(..) => None,
        EndResult::Fail(_) | EndResult::FailBy(_) => None,
        EndResult::Doubtful(_, doubt) | EndResult::DoubtfulBy(_, doubt) => Some(doubt_code(doubt)),
        EndResult::Undecided => Some("undecided"),
        EndResult::AfterBadEntry(_) => Some("after_bad_entry"),
        EndResult::UnderWay => Some("under_way"),
        EndResult::EarlyMark => Some("early_mark"),
        EndResult::TooLong => Some("too_long"),
        EndResult::UnsureTable => Some("unsure_table"),
        EndResult::Open => Some("open"),
        EndResult::Unheard(_) => Some("unheard"),
        EndResult::SeveralMalformed(..) => Some("several_malformed"),
        EndResult::UnlikelyAnswer(_) => Some("unlikely_answer"),
        EndResult::UnclearReading(_) => Some("unclear_reading"),
        EndResult::AsIfMessage(_) => Some("as_if_message"),
    }
}
