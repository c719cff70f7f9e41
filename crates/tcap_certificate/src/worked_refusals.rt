//! Worked refusals: events that cannot happen after a run, and runs that a certificate does not describe. Each function
//! has an empty body, and its clauses are the facts.

ghost use Rattle.std.specs.Prelude.{[], ◌∷◌, Some, None, pos};
ghost use Rattle.tcap_parts.specs.declared.code.Code.TheVariants.{Local};
ghost use Rattle.tcap_parts.specs.declared.component.Component.TheVariants.{ReturnError};
ghost use Rattle.tcap_msg.specs.declared.message.Message.TheVariants.{Begin, Unidirectional};
ghost use Rattle.tcap_record.specs.declared.entry.End.TheVariants.{A, B};
ghost use Rattle.tcap_end.specs.declared.half.HalfName.TheVariants.{Own};
ghost use Rattle.tcap_model.specs.Run.{Sends, Receives, Replies, Loses, Expires, Closes, Quiet};
ghost use Rattle.tcap_model.specs.WorkedItems.{answer, begin, end_to, id, invoke, lasting, table};
ghost use Rattle.tcap_certificate.specs.WorkedRefusals as refused;
ghost use Rattle.tcap_certificate.specs.WorkedRefusals.{HasNoStep, IsNotDescribed, begins};

/// Shows what an end cannot send, and which hidden steps it cannot take.
pub fn end_refuses()
    // A second Begin with an originating ID in use.
    ensures used_again { HasNoStep table (begins ∷ []) begins }
    // A Begin with the originating ID of a closed half.
    ensures used_by_closed { HasNoStep table
        (begins ∷ Receives B 0 ∷ Sends B (end_to 1 None) ∷ Receives A 1 ∷ []) begins }
    // A Return Error for an operation of class 3.
    ensures error_for_class_3 { HasNoStep table (Sends A (begin None (Some (invoke 47 ∷ []))) ∷ Receives B 0 ∷ [])
        (Sends B (end_to 1 (Some (ReturnError (pos 1) (Local (pos 1)) None ∷ [])))) }
    // The expiry of an invocation whose operation does not expire.
    ensures expires_without_leave { HasNoStep lasting (begins ∷ []) (Expires A (Own (id 1)) (pos 1)) }
    // The closing of an active half without prearranged end.
    ensures closes_active { HasNoStep table
        (Sends A (begin None None) ∷ Receives B 0 ∷ Sends B (answer None None) ∷ Receives A 1 ∷ [])
        (Closes A (Own (id 1))) }
{}

/// Shows which messages cannot be delivered or answered, and when no quiet mark is possible.
pub fn channel_refuses()
    // The delivery of a message before an earlier one on its channel.
    ensures later_first { HasNoStep table (begins ∷ Sends A (Begin (id 3) None None) ∷ []) (Receives B 1) }
    // The delivery of a lost message.
    ensures lost { HasNoStep table (begins ∷ Loses A 0 ∷ []) (Receives B 0) }
    // The delivery of a Continue to a closed half.
    ensures to_closed { HasNoStep table
        (Sends A (begin None None) ∷ Receives B 0 ∷ Sends B (answer None None) ∷ Receives A 1 ∷ Sends A (end_to 2 None)
        ∷ Sends B (answer None None) ∷ []) (Receives A 3) }
    // A quiet mark while a message is in transit and no half is open.
    ensures mark_with_a_message { HasNoStep table (begins ∷ Closes A (Own (id 1)) ∷ []) Quiet }
    // A quiet mark while a message that belongs to no half is in transit.
    ensures mark_with_a_unidirectional { HasNoStep table (Sends A (Unidirectional None (invoke 48 ∷ [])) ∷ []) Quiet }
    // A quiet mark while a half is open.
    ensures mark_with_an_open_half { HasNoStep table (begins ∷ Loses A 0 ∷ []) Quiet }
    // A provider's reply to a Continue to an open half.
    ensures reply_to_open { HasNoStep table (Sends A (begin None None) ∷ Receives B 0 ∷ Sends B (answer None None) ∷ [])
        (Replies A 1) }
    // A provider's reply to a message of its own end.
    ensures reply_to_own { HasNoStep table (begins ∷ []) (Replies A 0) }
    // A provider's reply to an End.
    ensures reply_to_end { HasNoStep table
        (begins ∷ Receives B 0 ∷ Sends B (end_to 1 None) ∷ Closes A (Own (id 1)) ∷ []) (Replies A 1) }
{}

/// Shows runs that a certificate does not describe, with one reason each.
pub fn undescribed_runs()
    ensures not_lost { IsNotDescribed refused.not_lost }
    ensures never_delivered { IsNotDescribed refused.never_delivered }
    ensures never_taken { IsNotDescribed refused.never_taken }
    ensures expired_behind_the_end { IsNotDescribed refused.expired_behind_the_end }
    ensures closed_behind_the_end { IsNotDescribed refused.closed_behind_the_end }
    ensures marks_fate { IsNotDescribed refused.marks_fate }
    ensures expiry_over_a_mark { IsNotDescribed refused.expiry_over_a_mark }
    ensures expiry_not_listed { IsNotDescribed refused.expiry_not_listed }
{}
