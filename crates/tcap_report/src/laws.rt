//! A law of the verdicts on the traces of a run. The function has an empty body, and its contract is the law.

ghost use Rattle.std.specs.Prelude.{◌≡◌, ◌+◌, ◌<◌, ◌≤◌, ℕ, List, Option, Some};
ghost use Rattle.tcap_traces.specs.JudgedTrace.{judged_trace};
ghost use Rattle.tcap_traces.specs.declared.verdict.Verdict.TheVariants as verdicts;
ghost use Rattle.tcap_report.specs.declared.sum.Sum.{Sum as SumOf};
ghost use Rattle.tcap_report.specs.declared.trace.TraceOptions.{TraceOptions as OptionsOf};
ghost use Rattle.tcap_report.specs.Counts.{worst_of};
ghost use Rattle.tcap_report.specs.KeptState.{asked_of};
ghost use Rattle.tcap_report.specs.RunAnswer.{AnswersEach};

/// Shows what it means for each trace that a run passes.
///
/// If the worst verdict is a pass, then each trace whose octets are known passes by the definition `judged_trace` of
/// these octets.
pub fn pass_of_run_is_of_each_trace()
    ensures { (options : OptionsOf) (octets : ℕ → Option (List ℕ)) (first count : ℕ) (before after : SumOf)
        (unread unread' : ℕ) → AnswersEach options octets first count before after unread unread'
        → worst_of after ≡ verdicts.Pass → (number : ℕ) (trace : List ℕ) → first ≤ number → number < first + count
        → octets number ≡ Some trace
        → (judged_trace (asked_of options) trace).verdict ≡ verdicts.Pass }
{}
