//! The lines of a run, one for each step.

ghost use Rattle.std.specs.Prelude.{◌≡◌, ◌++◌, OnOk, codes};
ghost use Rattle.std.specs.String.{string_bytes};
ghost use Rattle.hex.specs.Hex.{encode_lower};
ghost use Rattle.tcap_certificate.specs.LossCounts.{is_lost_from};
ghost use Rattle.tcap_check.specs.ReportedSteps.{event_of};
ghost use Rattle.tcap_explain.specs.StepLines.{closing_line, act_text, discard_line, discard_text, expiry_line, half_text, invocation_text, is_entry, lines_from, loss_line, own_label, owner_text, peer_label, reply_line, run_label, run_lines, sent_line, step_line};

use std::alloc::AllocError;
use tcap_check::Step;
use tcap_end::{EndFault, HalfName};
use tcap_msg::Message;
use tcap_record::{End, push_head, push_hex};

/// Returns whether a step is the loss, or the discard, of a message from this end.
pub(crate) fn is_lost_from(side: End, step: &Step) -> bool
    ensures { result ≡ is_lost_from side (event_of step.now) }
{
    match step {
        Step::Loses(sender, _) | Step::Discards(sender, _, _) => side.is(*sender),
        _ => false,
    }
}

/// Returns the label before the own ID of a half.
#[tactic(auto, unfolding(crate::specs::StepLines::own_label))]
fn own_label() -> &'static str
    ensures { result.now ≡ own_label }
{
    "the half with otid="
}

/// Returns the label before the peer's ID of a half.
#[tactic(auto, unfolding(crate::specs::StepLines::peer_label))]
fn peer_label() -> &'static str
    ensures { result.now ≡ peer_label }
{
    "the half with peer "
}

/// Returns the line above a run.
#[tactic(auto, unfolding(crate::specs::StepLines::run_label))]
fn run_label() -> &'static str
    ensures { result.now ≡ run_label }
{
    "  one run that shows it:"
}

/// Appends a label and an ID.
fn push_labelled(text: &mut String, label: &str, id: &[u8]) -> Result<(), AllocError>
    ensures { OnOk result (string_bytes text.new ≡ string_bytes text.old ++ label.now ++ encode_lower id.now) }
{
    text.push_str(label)?;
    push_hex(text, id)
}

/// Appends the name of a half, in the line of an invocation.
pub(crate) fn push_owner(text: &mut String, name: &HalfName) -> Result<(), AllocError>
    ensures { OnOk result (string_bytes text.new ≡ string_bytes text.old ++ owner_text name.now) }
{
    match name {
        HalfName::Own(id) => push_labelled(text, "otid=", id.octets()),
        HalfName::Peer(id) => push_labelled(text, peer_label(), id.octets()),
    }
}

/// Appends the name of a half.
pub(crate) fn push_half(text: &mut String, name: &HalfName) -> Result<(), AllocError>
    ensures { OnOk result (string_bytes text.new ≡ string_bytes text.old ++ half_text name.now) }
{
    match name {
        HalfName::Own(id) => push_labelled(text, own_label(), id.octets()),
        HalfName::Peer(id) => push_labelled(text, peer_label(), id.octets()),
    }
}

/// Appends an end, its act, and the number of an entry.
fn push_act(text: &mut String, end: End, deed: &str, number: u64) -> Result<(), AllocError>
    ensures { OnOk result (string_bytes text.new ≡ string_bytes text.old ++ act_text end deed.now number) }
{
    text.push_str("  ")?;
    text.push_str(end.letter())?;
    text.push_str(deed)?;
    write!(text, "{number}")
}

/// Appends the line of a message that an end sends.
fn push_sent(
    text: &mut String,
    end: End,
    deed: &str,
    number: u64,
    message: &Message,
) -> Result<(), AllocError>
    ensures { OnOk result (string_bytes text.new ≡ string_bytes text.old ++ sent_line end deed.now number message.now) }
{
    push_act(text, end, deed, number)?;
    text.push_str(" ")?;
    push_head(text, message)?;
    text.push_str("\n")
}

/// Appends why an end can't receive a message.
pub(crate) fn push_reason(text: &mut String, reason: EndFault) -> Result<(), AllocError>
    ensures { OnOk result (string_bytes text.new ≡ string_bytes text.old ++ discard_text reason) }
{
    match reason {
        EndFault::NoTransaction => text.push_str("no half fits"),
        EndFault::IdUsed => text.push_str("the ID is used"),
        EndFault::WrongDialogue => text.push_str("the dialogue portion does not fit"),
        _ => {
            let number = reason.number();
            text.push_str("reason ")?;
            write!(text, "{number}")
        }
    }
}

/// Appends an invocation of an end, up to `of`. The caller appends the half.
#[tactic(auto, unfolding(crate::specs::StepLines::invocation_text))]
fn push_invocation(text: &mut String, end: End, id: i8) -> Result<(), AllocError>
    ensures { OnOk result (string_bytes text.new ≡ string_bytes text.old ++ invocation_text end id) }
{
    text.push_str("  ")?;
    text.push_str(end.letter())?;
    text.push_str(": invocation ")?;
    write!(text, "{id}")?;
    text.push_str(" of ")
}

/// Appends the line of an invocation that expires.
fn push_expiry(text: &mut String, end: End, name: &HalfName, id: i8) -> Result<(), AllocError>
    ensures { OnOk result (string_bytes text.new ≡ string_bytes text.old ++ expiry_line end name.now id) }
{
    push_invocation(text, end, id)?;
    push_owner(text, name)?;
    text.push_str(" ends unseen\n")
}

/// Appends the line of a half that closes without a message.
fn push_closing(text: &mut String, end: End, name: &HalfName) -> Result<(), AllocError>
    ensures { OnOk result (string_bytes text.new ≡ string_bytes text.old ++ closing_line end name.now) }
{
    text.push_str("  ")?;
    text.push_str(end.letter())?;
    text.push_str(": ")?;
    push_half(text, name)?;
    text.push_str(" closes unseen\n")
}

/// Appends the line of a provider's answer.
fn push_reply(text: &mut String, end: End, answered: u64, number: u64) -> Result<(), AllocError>
    ensures { OnOk result (string_bytes text.new ≡ string_bytes text.old ++ reply_line end answered number) }
{
    push_act(text, end, "'s provider answers ", answered)?;
    text.push_str(" by ")?;
    writeln!(text, "{number}")
}

/// Appends the line of a loss, if it has one.
fn push_loss(
    text: &mut String,
    judged: Option<End>,
    sender: End,
    number: u64,
) -> Result<(), AllocError>
    ensures { OnOk result (string_bytes text.new ≡ string_bytes text.old ++ loss_line judged sender number) }
{
    match judged {
        None => writeln!(text, "  {number} is taken as lost"),
        Some(judged) if judged.is(sender) => Ok(()),
        Some(judged) => {
            let letter = judged.letter();
            writeln!(text, "  {number} is taken as lost before {letter}")
        }
    }
}

/// Appends the line of a message that an end can't receive.
fn push_discard(
    text: &mut String,
    sender: End,
    number: u64,
    reason: EndFault,
) -> Result<(), AllocError>
    ensures { OnOk result (string_bytes text.new ≡ string_bytes text.old ++ discard_line sender number reason) }
{
    push_act(text, sender.other(), " could not receive ", number)?;
    text.push_str(": ")?;
    push_reason(text, reason)?;
    text.push_str("\n")
}

/// Appends the line of a step after `number` sent entries.
fn push_step(
    text: &mut String,
    judged: Option<End>,
    number: u64,
    step: &Step,
) -> Result<(), AllocError>
    ensures { OnOk result (string_bytes text.new ≡ string_bytes text.old ++ step_line judged number step.now) }
{
    match step {
        Step::Sends(end, message) => push_sent(text, *end, " sends ", number, message),
        Step::Tells(end, message) => push_sent(text, *end, " tells ", number, message),
        Step::Receives(end, received) => {
            push_act(text, *end, " receives ", *received)?;
            text.push_str("\n")
        }
        Step::Replies(end, answered) => push_reply(text, *end, *answered, number),
        Step::Loses(sender, lost) => push_loss(text, judged, *sender, *lost),
        Step::Discards(sender, lost, reason) => push_discard(text, *sender, *lost, *reason),
        Step::Expires(end, name, id) => push_expiry(text, *end, name, *id),
        Step::Closes(end, name) => push_closing(text, *end, name),
        Step::Quiet => text.push_str("  all is quiet\n"),
    }
}

/// Returns whether a step is an entry.
pub(crate) fn is_entry(step: &Step) -> bool
    ensures { result ≡ is_entry step.now }
{
    matches!(
        step,
        Step::Sends(_, _) | Step::Tells(_, _) | Step::Replies(_, _) | Step::Quiet
    )
}

/// Appends a line for each step of a run of both ends or of the judged end.
fn push_all(text: &mut String, judged: Option<End>, steps: &[Step]) -> Result<(), AllocError>
    ensures { OnOk result (string_bytes text.new ≡ string_bytes text.old ++ lines_from judged 0 steps.now) }
{
    let mut number = 0;
    for step in steps {
        push_step(text, judged, number, step)?;
        if is_entry(step) {
            number += 1;
        }
    }
    Ok(())
}

/// Appends the lines of a run of both ends or of the judged end, after their label.
pub(crate) fn push_steps(
    text: &mut String,
    judged: Option<End>,
    steps: &[Step],
) -> Result<(), AllocError>
    ensures { OnOk result (string_bytes text.new ≡ string_bytes text.old ++ run_lines judged steps.now) }
{
    text.push_str(run_label())?;
    text.push_str("\n")?;
    push_all(text, judged, steps)
}
