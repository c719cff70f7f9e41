//! Laws of verdicts: what those on a trace mean, and how a fault in a dialogue carries over to its trace. Each function
//! has an empty body, and its contract is the law.

ghost use Rattle.std.specs.Prelude.{◌≡◌, ◌+◌, ℕ, true, false, List, Contains, Some, map, take};
ghost use Rattle.tcap_record.specs.declared.entry.End.{End as Side};
ghost use Rattle.tcap_record.specs.declared.entry.Entry.{Entry};
ghost use Rattle.tcap_end.specs.Table.{Table};
ghost use Rattle.tcap_model.specs.World.{Item, has_quiet};
ghost use Rattle.tcap_model.specs.Entries.{AreItems};
ghost use Rattle.tcap_dialogues.specs.Course.{Course, Heading, bare, courses_of, has_entry, headings_of};
ghost use Rattle.tcap_dialogues.specs.declared.reuse.Reuse.{Reuse};
ghost use Rattle.tcap_dialogues.specs.Part.{part_of};
ghost use Rattle.tcap_refute.specs.declared.kind.Refutation.{Refutation};
ghost use Rattle.tcap_faults.specs.BlameMeaning.{IsAtFaultOf};
ghost use Rattle.tcap_traces.specs.declared.judging.Ends.{Ends};
ghost use Rattle.tcap_traces.specs.declared.verdict.Verdict.TheVariants as verdicts;
ghost use Rattle.tcap_traces.specs.ResultMeaning.{IsFaultOfTrace};
ghost use Rattle.tcap_traces.specs.ResultOfEnd.{result_at};
ghost use Rattle.tcap_traces.specs.JudgedTrace.{Asked, JudgedDialogue, judged_trace};
ghost use Rattle.tcap_traces.specs.TraceMeaning.{IsAtFaultIn, MeansFail, MeansPass, blamed_by};

/// Shows what the verdict `pass` on a trace means.
///
/// The octets are a trace to their end, and it does not say that it was broken off. Each of its entries is in a
/// dialogue. In each dialogue, each judged end may have sent its part: some run in which this end keeps the rules sends
/// the entries of the dialogue, or those before an entry that is no message, from which on none is of this end.
pub fn pass_is_lawful()
    ensures { (asked : Asked) (octets : List ℕ) → (judged_trace asked octets).verdict ≡ verdicts.Pass
        → MeansPass asked octets }
{}

/// Shows what the verdict `fail` on a trace means, and each result that blames an end of a dialogue.
///
/// The end is at fault at this entry: its octets are no message, or no run in which this end keeps the rules has that
/// message or quiet mark there, no matter what its peer sends.
pub fn fail_is_at_fault()
    ensures each { (asked : Asked) (octets : List ℕ) (j : JudgedDialogue) (ends : Ends) (side : Side) (r : Refutation)
        → Contains (judged_trace asked octets).dialogues j → j.ends ≡ Some ends
        → blamed_by (result_at side ends) ≡ Some r → IsAtFaultIn asked j.dialogue side r }
    ensures verdict { (asked : Asked) (octets : List ℕ) → (judged_trace asked octets).verdict ≡ verdicts.Fail
        → MeansFail asked octets }
{}

/// Shows that an end at fault in a dialogue is at fault in its trace.
///
/// The dialogue belongs to a segment of messages, and no earlier dialogue of the segment had one of its IDs. Its
/// entries, up to the one at fault, are its messages up to a place of the segment. Then no end that keeps the rules may
/// have sent its part of the segment up to that place, no matter what its peer sent. This holds for a segment at the
/// beginning of the trace and for one after a quiet mark.
pub fn fault_of_dialogue_is_of_trace()
    ensures { (table : Table) (side : Side) (reuse : Reuse) (items : List Item) (headings : List Heading) (d : Course)
        (n : ℕ)
        (entries : List Entry) (r : Refutation) → has_quiet items ≡ false → map bare headings ≡ headings_of items
        → Contains (courses_of reuse headings) d → d.again ≡ false → has_entry d n ≡ true
        → AreItems (take (r.entry + 1) entries) (part_of (has_entry d) 0 (take (n + 1) items))
        → IsAtFaultOf table side entries r → IsFaultOfTrace table side (take (n + 1) items) }
{}
