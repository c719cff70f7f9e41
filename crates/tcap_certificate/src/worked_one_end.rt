//! Worked replays of one end: the run that a certificate gives for this end, or why it gives none. Each function has an
//! empty body, and its clauses are the facts.

ghost use Rattle.std.specs.Prelude.{[], ◌∷◌, None};
ghost use Rattle.tcap_msg.specs.declared.message.Message.TheVariants.{Begin};
ghost use Rattle.tcap_record.specs.declared.entry.End.TheVariants.{A, B};
ghost use Rattle.tcap_end.specs.declared.fault.EndFault.TheVariants as faults;
ghost use Rattle.tcap_model.specs.World.{Item, Sent};
ghost use Rattle.tcap_model.specs.WorkedItems.{begin, id, prearranged, table};
ghost use Rattle.tcap_model.specs.declared.reason.Reason.TheVariants.{BadReply, NotQuiet, OutOfOrder, SendRefused};
ghost use Rattle.tcap_certificate.specs.declared.certificate.Fate.TheVariants.{Gap, By};
ghost use Rattle.tcap_certificate.specs.WorkedRuns as worked;
ghost use Rattle.tcap_certificate.specs.WorkedRuns.{by_fates};
ghost use Rattle.tcap_certificate.specs.WorkedOneEnd as alone;
ghost use Rattle.tcap_certificate.specs.WorkedOneEnd.{Discards, IsGivenAlone, RefusesAlone};

/// Shows what an end may do if its peer sends an End and continues.
pub fn after_an_end()
    // A provider's Abort of cause 1 answers the Continue: 7 steps, and no message is unheard.
    ensures answered { IsGivenAlone table alone.answered_behind_the_end 7 0 }
    // The end goes on as if the End had not come: 8 steps, and one message is unheard. The certificate loses this
    // message, which is not a discard.
    ensures goes_on { IsGivenAlone table alone.goes_on_behind_a_lost_end 8 1
        × Discards table alone.goes_on_behind_a_lost_end [] }
    // The end may not send an End if its peer's End is delivered.
    ensures ends_twice { RefusesAlone A table (by_fates (Gap 1 ∷ Gap 2 ∷ Gap 3 ∷ Gap 4 ∷ Gap 5 ∷ []))
        worked.end_is_not_heard.items (SendRefused faults.WrongPhase) 4 }
    // The end discards the Continue, which has no transaction there: 7 steps, and one message is unheard.
    ensures discards { IsGivenAlone table alone.discards_what_it_cannot_receive 7 1
        × Discards table alone.discards_what_it_cannot_receive ((3, faults.NoTransaction) ∷ []) }
    // A provider does not answer a discarded message.
    ensures answers_discarded { RefusesAlone A table (by_fates (Gap 1 ∷ Gap 2 ∷ Gap 3 ∷ Gap 4 ∷ Gap 5 ∷ []))
        worked.continues_behind_its_end.items BadReply 4 }
    // The peer is not lawful: it sends a Continue although its half is closed.
    ensures peer { RefusesAlone B table (by_fates (Gap 1 ∷ Gap 2 ∷ Gap 3 ∷ By 4 ∷ Gap 5 ∷ []))
        worked.continues_behind_its_end.items (SendRefused faults.WrongPhase) 3 }
{}

/// Shows in which order messages are delivered.
pub fn order()
    // A channel keeps order, although the peer keeps no rules: the second of three Begins comes before the first.
    ensures of_peer { RefusesAlone A table (by_fates (Gap 3 ∷ Gap 2 ∷ Gap 3 ∷ []))
        (Sent B (begin None None) ∷ Sent B (Begin (id 3) None None) ∷ Sent B (Begin (id 4) None None) ∷ [])
        OutOfOrder 1 }
    // The fates of an end's own messages may be in any order: 3 steps.
    ensures own { IsGivenAlone table alone.own_order_is_free 3 0 }
{}

/// Shows which halves close before a quiet mark, and that expiries and closings of the peer are ignored.
pub fn hidden_steps()
    // A half with an unanswered Begin closes: 3 steps.
    ensures gives_up { IsGivenAlone table alone.gives_up_at_a_mark 3 0 }
    // A half that received a Begin may not close.
    ensures open { RefusesAlone B table (by_fates (Gap 1 ∷ Gap 2 ∷ [])) (Sent A (begin None None) ∷ Item.Quiet ∷ [])
        NotQuiet 1 }
    // With prearranged end it may: 4 steps.
    ensures closes { IsGivenAlone prearranged alone.closes_at_a_mark 4 0 }
    // Expiries and closings of the peer are ignored: 7 steps.
    ensures of_peer { IsGivenAlone prearranged alone.passes_over_the_peers 7 0 }
{}
