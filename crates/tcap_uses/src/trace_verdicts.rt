//! The meaning of a verdict on a trace for its entries and its ends, by the laws of tcap_traces.

ghost use Rattle.std.specs.Prelude.{◌≡◌, ℕ, List, true, Contains};
ghost use Rattle.tcap_record.specs.declared.entry.End.{End as Side};
ghost use Rattle.tcap_certificate.specs.Replay.{is_judged};
ghost use Rattle.tcap_traces.specs.declared.end_result.EndResult.{EndResult};
ghost use Rattle.tcap_traces.specs.declared.verdict.Verdict.TheVariants as verdicts;
ghost use Rattle.tcap_traces.specs.Pieces.{Entry, TraceEntry, pieces_of};
ghost use Rattle.tcap_traces.specs.Dialogue.{Dialogue};
ghost use Rattle.tcap_traces.specs.JudgedTrace.{Asked, judged_trace};
ghost use Rattle.tcap_traces.specs.TraceMeaning.{IsFailure, MayHaveSentPart};

use tcap_traces::laws;

/// Shows that each entry of a trace that passes is in a dialogue, and each judged end may have sent its part of it.
pub fn entry_of_pass()
    ensures { (asked : Asked) (octets : List ℕ) (entry : TraceEntry) (side : Side)
        → (judged_trace asked octets).verdict ≡ verdicts.Pass → Contains (pieces_of octets).pieces (Entry entry)
        → is_judged asked.question.of side ≡ true
        → (d : Dialogue) × Contains d.entries entry × MayHaveSentPart asked d side }
{
    laws::pass_is_lawful();
}

/// Shows that a judged end is at fault in some dialogue of a trace that fails: in an entry, or in its reaction to a
/// malformed message.
pub fn end_of_fail()
    ensures { (asked : Asked) (octets : List ℕ) → (judged_trace asked octets).verdict ≡ verdicts.Fail
        → (d : Dialogue) × (side : Side) × (said : EndResult) × (is_judged asked.question.of side ≡ true)
        × IsFailure asked d side said }
{
    laws::fail_is_at_fault();
}
