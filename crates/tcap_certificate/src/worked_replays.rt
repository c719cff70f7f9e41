//! Worked replays: the run that a certificate gives for a record, or why it gives none. Each function has an empty
//! body, and its clauses are the facts.

ghost use Rattle.std.specs.Prelude.{[], ◌∷◌, ◌++◌, Some, None};
ghost use Rattle.tcap_msg.specs.declared.message.Message.TheVariants.{Begin};
ghost use Rattle.tcap_record.specs.declared.entry.Body.TheVariants.{Good, Quiet as QuietMark};
ghost use Rattle.tcap_record.specs.declared.entry.End.TheVariants.{A, B};
ghost use Rattle.tcap_end.specs.declared.fault.EndFault.TheVariants as faults;
ghost use Rattle.tcap_model.specs.World.{Item, Sent};
ghost use Rattle.tcap_model.specs.Run.{provider_abort};
ghost use Rattle.tcap_model.specs.WorkedItems.{answer, begin, end_to, further, id, invoke, lasting, prearranged, result as returned, table};
ghost use Rattle.tcap_model.specs.declared.reason.Reason.TheVariants.{FateCount, FateRange, OutOfOrder, BadReply, SendRefused, HiddenRefused, NotQuiet, BadMessage, NoItem};
ghost use Rattle.tcap_certificate.specs.declared.certificate.Fate.TheVariants.{Gap, Lost, By};
ghost use Rattle.tcap_certificate.specs.WorkedRuns as worked;
ghost use Rattle.tcap_certificate.specs.WorkedRuns.{by_fates};
ghost use Rattle.tcap_certificate.specs.WorkedReplays.{Gives, IsReplayed, Refuses, RefusesEntry, bad_entry, by_two, closed_internal, closes_internal, closing, dialogue_and_mark, expires_one, expiring, fault, links_to, three_begins, two_cross, two_invocations};

/// Shows that the certificates of the worked runs give these runs, step by step.
pub fn worked_runs()
    ensures { IsReplayed worked.table worked.empty_record
        × IsReplayed worked.table worked.two_entries
        × IsReplayed worked.table worked.three_entries
        × IsReplayed worked.table worked.crossing
        × IsReplayed worked.table worked.late_reject
        × IsReplayed worked.table worked.delayed
        × IsReplayed worked.table worked.closed_half
        × IsReplayed worked.table worked.refused_begin
        × IsReplayed worked.table worked.lost_begin
        × IsReplayed worked.table worked.over_a_mark
        × IsReplayed worked.table worked.both_again
        × IsReplayed worked.table worked.in_a_row
        × IsReplayed worked.table worked.end_implies
        × IsReplayed worked.prearranged worked.both_close }
{}

/// Shows that fates and closings have to fit the entries, here a Begin and an End.
pub fn fates_and_closings()
    // There are too few fates.
    ensures too_few { Refuses table (by_fates (Gap 1 ∷ [])) worked.two_entries.items FateCount 1 }
    // There are too many fates.
    ensures too_many { Refuses table (by_fates (Gap 1 ∷ Gap 2 ∷ Gap 3 ∷ [])) worked.two_entries.items FateCount 2 }
    // A message is delivered in a gap before its entry.
    ensures delivered_early { Refuses table (by_fates (Gap 1 ∷ Gap 1 ∷ [])) worked.two_entries.items FateRange 1 }
    // A reply takes a message that is sent later.
    ensures taken_early { Refuses table (by_fates (By 0 ∷ Gap 2 ∷ [])) worked.two_entries.items FateRange 0 }
    // A closing names an End.
    ensures end_closes { Refuses table (closing 2 A 1 worked.two_entries.certificate) worked.two_entries.items
        FateRange 1 }
    // An end closes a half that it does not have.
    ensures nothing_closes { Refuses table (closing 1 B 0 worked.two_entries.certificate) worked.two_entries.items
        (HiddenRefused faults.CannotClose) 0 }
    // A closing names a Continue: it may name a Begin only.
    ensures continue_closes { Refuses table (closing 2 B 1 worked.late_reject.certificate) worked.late_reject.items
        FateRange 1 }
{}

/// Shows which of two reasons comes first.
pub fn first_reasons()
    // Fates are checked before expiries.
    ensures fates { Refuses table (expiring 9 A 0 0 (by_fates (Gap 1 ∷ Gap 1 ∷ []))) worked.two_entries.items
        FateRange 1 }
    // Closings are checked before expiries.
    ensures closings { Refuses table (closing 9 A 1 (expiring 9 A 0 0 worked.two_entries.certificate))
        worked.two_entries.items FateRange 1 }
    // The order of messages is checked before the gap. There B has no half to close.
    ensures order { Refuses table (closing 1 B 0 (by_fates (Gap 3 ∷ Gap 2 ∷ Gap 3 ∷ []))) three_begins OutOfOrder 1 }
    // The fate of a quiet mark is checked before its gap. There the half is closed already.
    ensures mark { Refuses table (closing 2 A 0 (closing 2 A 0 (by_fates (Gap 1 ∷ Gap 2 ∷ Lost ∷ []))))
        (worked.two_entries.items ++ Item.Quiet ∷ []) FateRange 2 }
    // The number of fates is checked before the last gap.
    ensures count { Refuses table (closing 2 B 0 (by_fates (Gap 1 ∷ Gap 2 ∷ Gap 3 ∷ []))) worked.two_entries.items
        FateCount 2 }
{}

/// Shows when an invocation may expire, and what may be sent after its expiry.
pub fn expiries()
    // An invocation may not expire twice.
    ensures twice { Refuses table (expiring 2 A 0 0 worked.late_reject.certificate) worked.late_reject.items
        (HiddenRefused faults.CannotExpire) 0 }
    // An invocation may not expire if its operation does not.
    ensures lasting { Refuses lasting worked.late_reject.certificate worked.late_reject.items
        (HiddenRefused faults.CannotExpire) 0 }
    // An end may not reject a result as unrecognized without an expiry of its invocation.
    ensures none { Refuses table (by_fates (Gap 1 ∷ Gap 2 ∷ Gap 3 ∷ [])) worked.late_reject.items
        (SendRefused faults.RejectNotAllowed) 2 }
    // The expiry names an entry of the other end.
    ensures other_end { Refuses table (expiring 2 B 0 0 (by_fates (Gap 1 ∷ Gap 2 ∷ Gap 3 ∷ [])))
        worked.late_reject.items FateRange 0 }
    // The expiry names a component that is no Invoke.
    ensures no_invoke { Refuses table (expiring 2 B 1 0 (by_fates (Gap 1 ∷ Gap 2 ∷ Gap 3 ∷ [])))
        worked.late_reject.items FateRange 1 }
    // The number of a component counts all components of the message: component 1 is the Invoke after a result.
    ensures after_result { Gives table (expiring 2 B 1 1 (by_fates (Gap 1 ∷ Gap 2 ∷ [])))
        (Sent A (begin None (Some (invoke 45 ∷ []))) ∷ Sent B (answer None (Some (returned ∷ invoke 45 ∷ []))) ∷ []) 5 }
    // An end may reject the result of an invocation that expired.
    ensures second { Gives table (expires_one 1) two_invocations 7 }
    // An end may not reject the result if another invocation expired.
    ensures first { Refuses table (expires_one 0) two_invocations (SendRefused faults.RejectNotAllowed) 2 }
{}

/// Shows which invoke IDs and linked IDs an end may use.
pub fn invoke_ids()
    // A Begin may not invoke one ID twice.
    ensures twice { Refuses table (by_fates (Gap 1 ∷ []))
        (Sent A (begin None (Some (invoke 45 ∷ invoke 45 ∷ []))) ∷ []) (SendRefused faults.InvokeIdBusy) 0 }
    // An ID may be invoked again after its result: the earlier invocation, which waits for a Reject, has to end.
    ensures again { Gives table (by_fates (Gap 1 ∷ Gap 2 ∷ Gap 3 ∷ []))
        (Sent A (begin None (Some (invoke 45 ∷ []))) ∷ Sent B (answer None (Some (returned ∷ [])))
        ∷ Sent A (further (invoke 46)) ∷ []) 7 }
    // An Invoke may be linked to an operation with this linked operation.
    ensures linked { Gives table (by_fates (Gap 1 ∷ Gap 2 ∷ [])) (links_to 50) 4 }
    // An Invoke may not be linked to another operation.
    ensures unlinked { Refuses table (by_fates (Gap 1 ∷ Gap 2 ∷ [])) (links_to 45) (SendRefused faults.BadLink) 1 }
{}

/// Shows in which order messages may be delivered, and where.
pub fn order()
    // The second of three Begins is delivered before the first.
    ensures second { Refuses table (by_fates (Gap 3 ∷ Gap 2 ∷ Gap 3 ∷ [])) three_begins OutOfOrder 1 }
    // The third of four Begins is delivered before the first. A Begin of the other end comes between them.
    ensures third { Refuses table (by_fates (Gap 4 ∷ Gap 4 ∷ Gap 3 ∷ Gap 4 ∷ [])) (Sent A (begin None None)
        ∷ Sent B (Begin (id 5) None None) ∷ Sent A (Begin (id 3) None None) ∷ Sent A (Begin (id 4) None None) ∷ [])
        OutOfOrder 2 }
    // A Begin is delivered in the gap before the reply that takes an earlier Begin. The reply is later than this gap.
    ensures reply { Refuses table (by_fates (By 3 ∷ Gap 3 ∷ Gap 4 ∷ Gap 4 ∷ []))
        (three_begins ++ Sent B (provider_abort (id 1) 4) ∷ []) OutOfOrder 1 }
    // A Continue is delivered to a closed half.
    ensures closed { Refuses table (by_fates (Gap 1 ∷ Gap 2 ∷ Gap 4 ∷ Gap 4 ∷ Gap 5 ∷ [])) worked.crossing.items
        BadReply 3 }
    // An active half may not close without prearranged end.
    ensures closes_without_leave { Refuses table closes_internal closed_internal (HiddenRefused faults.CannotClose) 0 }
    // An active half may close with prearranged end.
    ensures closes_with_leave { Gives prearranged closes_internal closed_internal 8 }
{}

/// Shows which messages a provider may answer, and how.
pub fn replies()
    // One Abort may not answer two Continues.
    ensures one_for_two { Refuses table (by_two (By 5) (By 5)) two_cross BadReply 5 }
    // A provider's Abort has to answer a message.
    ensures to_nothing { Refuses table (by_two Lost Lost) two_cross BadReply 5 }
    // A provider may answer a Continue after a lost one.
    ensures after_loss { Gives table (by_two Lost (By 5)) two_cross 11 }
    // An End is lost, and a later Begin is delivered. The other end goes on, and the first end's provider answers.
    ensures after_lost_end { Gives table (by_fates (Gap 1 ∷ Gap 2 ∷ Lost ∷ Gap 4 ∷ By 5 ∷ Gap 6 ∷ []))
        (Sent A (begin None None) ∷ Sent B (answer None None) ∷ Sent A (end_to 2 None) ∷ Sent A (Begin (id 3) None None)
        ∷ Sent B (answer None None) ∷ Sent A (provider_abort (id 2) 1) ∷ []) 11 }
    // A Continue crosses an End, and is lost.
    ensures lost { Gives table (by_fates (Gap 1 ∷ Gap 2 ∷ Gap 4 ∷ Lost ∷ [])) (Sent A (begin None None)
        ∷ Sent B (answer None None) ∷ Sent A (end_to 2 None) ∷ Sent B (answer None None) ∷ []) 8 }
    // A Begin, which is no provider's reply, takes a Continue.
    ensures no_reply { Refuses table (by_fates (Gap 1 ∷ By 2 ∷ Gap 3 ∷ []))
        (Sent A (begin None None) ∷ Sent B (answer None None) ∷ Sent A (begin None None) ∷ []) BadReply 2 }
    // An Abort answers a Begin with the cause for a Continue.
    ensures other_cause { Refuses table (by_fates (By 1 ∷ Gap 2 ∷ []))
        (Sent A (begin None None) ∷ Sent B (provider_abort (id 1) 1) ∷ []) BadReply 1 }
{}

/// Shows when a quiet mark may come.
pub fn quiet_marks()
    // A record may have a quiet mark only.
    ensures alone { Gives table (by_fates (Gap 1 ∷ [])) (Item.Quiet ∷ []) 1 }
    // A quiet mark may not come before a message is delivered.
    ensures early { Refuses table (by_fates (Gap 1 ∷ Gap 2 ∷ Gap 4 ∷ Gap 4 ∷ [])) dialogue_and_mark NotQuiet 3 }
    // The fate of a quiet mark may not be a loss.
    ensures lost { Refuses table (by_fates (Gap 1 ∷ Gap 2 ∷ Gap 3 ∷ Lost ∷ [])) dialogue_and_mark FateRange 3 }
    // A quiet mark may come after a dialogue has ended.
    ensures ended { Gives table (by_fates (Gap 1 ∷ Gap 2 ∷ Gap 3 ∷ Gap 4 ∷ [])) dialogue_and_mark 7 }
    // A quiet mark may not come while a half is open.
    ensures open { Refuses table (by_fates (Gap 1 ∷ Gap 2 ∷ [])) (Sent A (begin None None) ∷ Item.Quiet ∷ [])
        NotQuiet 1 }
    // A quiet mark may come after a lost Begin is given up.
    ensures given_up { Gives table (closing 1 A 0 (by_fates (Lost ∷ Gap 2 ∷ [])))
        (Sent A (begin None None) ∷ Item.Quiet ∷ []) 4 }
{}

/// Shows that entries that are no items are refused.
pub fn no_items()
    // An entry is no message.
    ensures no_message { RefusesEntry (Gap 1 ∷ []) bad_entry (BadMessage fault) }
    // An entry that is no message needs a fate, too.
    ensures no_fate { RefusesEntry [] bad_entry FateCount }
    // A message has no end.
    ensures no_end { RefusesEntry (Gap 1 ∷ [])
        (record { side = None; place = 1; body = Good (begin None None) }) NoItem }
    // A quiet mark has an end.
    ensures mark_of_an_end { RefusesEntry (Gap 1 ∷ []) (record { side = Some A; place = 0; body = QuietMark }) NoItem }
{}
