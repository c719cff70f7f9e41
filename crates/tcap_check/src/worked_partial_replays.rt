//! Worked refusals: how far the replay goes for a certificate that gives no run. Each function has an empty body, and
//! its contract states worked cases.

ghost use Rattle.tcap_end.specs.declared.fault.EndFault.TheVariants as faults;
ghost use Rattle.tcap_model.specs.declared.reason.Reason.TheVariants as reasons;
ghost use Rattle.tcap_check.specs.WorkedPartialReplays as worked;
ghost use Rattle.tcap_check.specs.WorkedPartialReplays.{StopsSoFar};

/// States that in a gap nothing happens after the first closing, expiry or delivery that cannot happen. The losses
/// before such a delivery do happen.
pub fn stops_in_a_gap()
    ensures expiry { StopsSoFar worked.expiry_after_a_refused_one (reasons.HiddenRefused faults.CannotExpire) 0 }
    ensures closing { StopsSoFar worked.expiry_after_a_refused_closing (reasons.HiddenRefused faults.CannotClose) 0 }
    ensures delivery { StopsSoFar worked.delivery_after_its_losses reasons.BadReply 4 }
{}

/// States what happens before a message that is refused. Before a message that its end may not send, the steps of its
/// gap and the expiries that it implies happen. Before a provider's answer that is not allowed, the losses happen.
/// Before a message that overtakes an earlier one, nothing happens.
pub fn stops_at_a_message()
    ensures send { StopsSoFar worked.send_after_what_it_implies (reasons.SendRefused faults.IdUsed) 1 }
    ensures reply { StopsSoFar worked.reply_after_its_losses reasons.BadReply 4 }
    ensures order { StopsSoFar worked.overtaking_before_its_gap reasons.OutOfOrder 1 }
    ensures discard { StopsSoFar worked.send_after_a_discard (reasons.SendRefused faults.NoTransaction) 1 }
{}

/// States what happens before a quiet mark that is refused. The halves of an end that is judged alone close, up to the
/// first that may not close, and then messages are lost.
pub fn stops_at_a_mark()
    ensures halves { StopsSoFar worked.mark_after_a_half reasons.NotQuiet 4 }
    ensures losses { StopsSoFar worked.mark_after_its_losses reasons.NotQuiet 1 }
{}
