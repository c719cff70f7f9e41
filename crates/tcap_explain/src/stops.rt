//! Why a certificate shows nothing: the reason, the entry, and the end's state there.
//!
//! Each function that returns `AllocError` does so if memory runs out.

ghost use Rattle.std.specs.Prelude.{◌≡◌, IfOk, IfSome};
ghost use Rattle.std.specs.String.{string_bytes};
ghost use Rattle.tcap_judge.specs.BlameOutcome.{ends_of};
ghost use Rattle.tcap_explain.specs.VerdictLines.{EndsWithEnds};

use crate::half_states::{push_component_state, push_half_state};
use crate::indenting::push_indented;
use crate::reasons::{fault_words, reason_words};
use crate::refused_component::{MANY, is_of_component, refused_component};
use crate::refuted_text::push_findings;
use std::alloc::{AllocError, Global};
use tcap_ber::Fault;
use tcap_check::{Certificate, CheckFault, Fate, Partial, Reason};
use tcap_end::{EndFault, EndState, HalfName, Table};
use tcap_judge::Ends;
use tcap_msg::{Kind, Message, MessageParts};
use tcap_parts::ComponentView;
use tcap_record::{Body, End, Record, push_view};
use tcap_refute::is_limit;

/// The most halves, or numbers, that are listed.
const MOST: usize = 8;

/// The point at which the run of a certificate stops.
#[derive(Clone, Copy)]
struct Stop<'a> {
    read: &'a Record,
    table: &'a Table,
    certificate: &'a Certificate,
    fault: CheckFault,
}

/// Appends the meaning of a reason, and its name in parentheses.
fn push_words(text: &mut String, words: (&str, &str)) -> Result<(), AllocError> {
    let (name, meaning) = words;
    text.push_str(meaning)?;
    text.push_str(" (")?;
    text.push_str(name)?;
    text.push_str(")")
}

/// Appends the line of a reason.
fn push_reason(text: &mut String, reason: Reason) -> Result<(), AllocError> {
    text.push_str(match reason {
        Reason::BadReply | Reason::SendRefused(_) | Reason::HiddenRefused(_) | Reason::NotQuiet =>
            "why: in the run that the certificate says, ",
        _ => "why: ",
    })?;
    push_words(text, reason_words(reason))?;
    if let Reason::SendRefused(fault) | Reason::HiddenRefused(fault) = reason {
        text.push_str(": ")?;
        push_words(text, fault_words(fault))?;
    }
    text.push_str("\n")
}

/// Appends advice on octets that are no message.
fn push_bad(text: &mut String, fault: Fault) -> Result<(), AllocError> {
    text.push_str("`tcapjudge show --why RECORD` says what is wrong with them\n")?;
    if is_limit(fault.reason) {
        text.push_str("it is a limit of this profile: no end is blamed for it\n")?;
    }
    Ok(())
}

/// Returns the half over which a message is sent. Its name is the own ID if the end knows it or the message is a Begin,
/// else the peer's ID.
fn sending_name(message: &Message, state: &EndState) -> Option<HalfName> {
    let own = message
        .otid()
        .map(|id| HalfName::Own(id.to_transaction_id()));
    match (message.kind(), own) {
        (Kind::Unidirectional, _) => None,
        (_, Some(name)) if state.knows(&name) || message.kind() == Kind::Begin => Some(name),
        _ => Some(HalfName::Peer(message.dtid()?.to_transaction_id())),
    }
}

/// Returns the half over which a message is received.
fn receiving_name(message: &Message) -> Option<HalfName> {
    match message.kind() {
        Kind::Unidirectional => None,
        Kind::Begin => Some(HalfName::Peer(message.otid()?.to_transaction_id())),
        _ => Some(HalfName::Own(message.dtid()?.to_transaction_id())),
    }
}

/// Returns the half over which a message is sent, if its state is worth printing: not for a Begin with a new ID.
fn name_to_tell(message: &Message, state: &EndState) -> Option<HalfName> {
    let name = sending_name(message, state)?;
    if message.kind() == Kind::Begin && !state.knows(&name) {
        return None;
    }
    Some(name)
}

/// Describes each component of a message and, if the half with this name is open, what the end knows of its invoke ID.
fn words_of_components(
    alloc: Global,
    state: &EndState,
    name: Option<&HalfName>,
    message: &Message,
) -> Result<Vec<String>, AllocError> {
    let half = match name {
        Some(name) => state.open_half(name),
        None => None,
    };
    let mut all = Vec::new(alloc);
    for component in message.components() {
        let mut words = String::new(alloc);
        push_component_state(alloc, &mut words, half.as_ref(), component)?;
        all.push(words)?;
    }
    Ok(all)
}

/// Appends which component of a message an end refuses to send, if a component is the reason, and what the end knows of
/// its invoke ID. Do not use `state` afterwards: it may have sent the components before that one.
fn push_refused(
    alloc: Global,
    text: &mut String,
    state: &mut EndState,
    name: Option<&HalfName>,
    table: &Table,
    message: &Message,
) -> Result<(), AllocError> {
    if message.count() > MANY {
        return text.push_str("it has over 64 components: which one is refused is not looked for\n");
    }
    let all = words_of_components(alloc, state, name, message)?;
    let Some(place) = refused_component(alloc, state, table, message)? else {
        return Ok(());
    };
    let Some(words) = all.get(place) else {
        return Ok(());
    };
    writeln!(text, "component {place} is what it refuses:")?;
    text.push_str(words)
}

/// Returns the state of an end after the run, as far as the run goes.
fn state_of(run: &mut Partial, end: End) -> &mut EndState {
    match end {
        End::A => &mut run.a,
        End::B => &mut run.b,
    }
}

/// Appends why an end can't receive a message, if it can't.
fn push_refusal(text: &mut String, refused: Result<(), EndFault>) -> Result<(), AllocError> {
    match refused {
        Ok(()) => Ok(()),
        Err(fault) => {
            text.push_str("it can't receive it: ")?;
            push_words(text, fault_words(fault))?;
            text.push_str("\n")
        }
    }
}

/// Returns whether the fault is a Reject in a Unidirectional, which the standard leaves to the user.
fn is_left_to_user(message: &Message, fault: EndFault) -> bool {
    message.kind() == Kind::Unidirectional
        && fault == EndFault::NothingToAnswer
        && message.components().all(|one| matches!(
            one,
            ComponentView::Invoke { .. } | ComponentView::Reject { .. }
        ))
}

/// Appends what the sender of a message knows, and which component it refuses.
fn push_sender(
    alloc: Global,
    text: &mut String,
    run: &mut Partial,
    table: &Table,
    sender: End,
    message: &Message,
    fault: EndFault,
) -> Result<(), AllocError> {
    let state = state_of(run, sender);
    let name = name_to_tell(message, state);
    if let Some(name) = &name {
        push_half_state(text, sender, state, name)?;
    }
    if is_left_to_user(message, fault) {
        text.push_str(
            "a Unidirectional carries Invokes alone here; a Reject in one is left to the user, and blamed on nobody\n",
        )?;
    }
    if is_of_component(fault) {
        push_refused(alloc, text, state, name.as_ref(), table, message)
    } else {
        Ok(())
    }
}

/// Appends what the receiver of a message knows, and why it can't receive the message.
fn push_receiver(
    text: &mut String,
    run: &mut Partial,
    table: &Table,
    receiver: End,
    message: &Message,
) -> Result<(), AllocError> {
    let state = state_of(run, receiver);
    if let Some(name) = receiving_name(message) {
        push_half_state(text, receiver, state, &name)?;
    }
    push_refusal(text, state.receive(table, message))
}

/// Returns whether the certificate names the entry as an answer.
fn is_tied(stop: &Stop) -> bool {
    stop.certificate.fates().iter().any(
        |fate| matches!(fate, Fate::By(reply) if u64::from(*reply) == stop.fault.entry),
    )
}

/// Appends the messages that the entry answers by the certificate. `is_answer`: the entry is a provider's answer.
fn push_tied(text: &mut String, stop: &Stop, is_answer: bool) -> Result<(), AllocError> {
    text.push_str(if is_answer {
        "it is a provider's answer, and the messages that the certificate says it answers are"
    } else {
        "it is no provider's answer, but the certificate says that it answers"
    })?;
    let mut found = 0;
    for (number, fate) in stop.certificate.fates().iter().enumerate() {
        if matches!(fate, Fate::By(reply) if u64::from(*reply) == stop.fault.entry) {
            if found >= MOST {
                return text.push_str(" ..\n");
            }
            write!(text, " {number}")?;
            found += 1;
        }
    }
    text.push_str(if found == 0 { " none\n" } else { "\n" })
}

/// Appends the entry after a gap.
fn push_after(text: &mut String, stop: &Stop, gap: u32) -> Result<(), AllocError> {
    match stop.read.entries.get(gap as usize) {
        Some(entry) => push_view(text, gap as usize, &entry.view()),
        None => text.push_str("no entry is behind it\n"),
    }
}

/// Appends the first hidden steps that the certificate lists for the entry, each with the entry after its gap.
fn push_listed(text: &mut String, stop: &Stop) -> Result<(), AllocError> {
    let mut found = 0;
    for x in stop.certificate.closings() {
        if u64::from(x.entry) == stop.fault.entry && found < MOST {
            found += 1;
            let (end, gap) = (x.side.letter(), x.gap);
            writeln!(
                text,
                "listed: before entry {gap} {end}'s half of its transaction closes unseen"
            )?;
            push_after(text, stop, gap)?;
        }
    }
    for x in stop.certificate.expiries() {
        if u64::from(x.entry) == stop.fault.entry && found < MOST {
            found += 1;
            let (end, gap, component) = (x.side.letter(), x.gap, x.component);
            writeln!(
                text,
                "listed: before entry {gap} {end}'s invocation of its component {component} ends unseen"
            )?;
            push_after(text, stop, gap)?;
        }
    }
    Ok(())
}

/// Appends the first open halves of an end.
fn push_open(
    alloc: Global,
    text: &mut String,
    end: End,
    state: &EndState,
) -> Result<(), AllocError> {
    let names = state.open_halves(alloc)?;
    for (number, name) in names.iter().enumerate() {
        if number >= MOST {
            return text.push_str("..\n");
        }
        push_half_state(text, end, state, name)?;
    }
    Ok(())
}

/// Appends what the sender or the receiver of the entry knows when the run stops.
fn push_known(
    alloc: Global,
    text: &mut String,
    stop: &Stop,
    run: &mut Partial,
    sender: End,
    message: &Message,
) -> Result<(), AllocError> {
    match stop.fault.reason {
        Reason::SendRefused(fault) => {
            push_sender(alloc, text, run, stop.table, sender, message, fault)
        }
        Reason::BadReply if message.cause().is_some() => push_tied(text, stop, true),
        Reason::BadReply if is_tied(stop) => push_tied(text, stop, false),
        Reason::BadReply => push_receiver(text, run, stop.table, sender.other(), message),
        Reason::HiddenRefused(_) => push_listed(text, stop),
        _ => Ok(()),
    }
}

/// Appends the stop of a run: the reason, the entry, and what its sender or receiver knows there.
fn push_stop(
    alloc: Global,
    text: &mut String,
    stop: &Stop,
    run: &mut Partial,
) -> Result<(), AllocError> {
    let fault = stop.fault;
    push_reason(text, fault.reason)?;
    if let Some(entry) = stop.read.entries.get(fault.entry as usize) {
        push_view(text, fault.entry as usize, &entry.view())?;
        if let (Some(sender), Body::Good(message)) = (entry.side, &entry.body) {
            push_known(alloc, text, stop, run, sender, message)?;
        }
        if let (Reason::NotQuiet, Body::Quiet) = (fault.reason, &entry.body) {
            push_open(alloc, text, End::A, &run.a)?;
            push_open(alloc, text, End::B, &run.b)?;
        }
    }
    if let Reason::BadMessage(fault) = fault.reason {
        push_bad(text, fault)?;
    }
    if !matches!(fault.reason, Reason::BadMessage(_) | Reason::NoItem) {
        text.push_str("another certificate may show more: this says nothing of an end\n")?;
    }
    Ok(())
}

/// Returns the text after UNDECIDED or NOT SHOWN: the stop of the certificate's run, indented by two spaces, then the
/// findings on `ends`. May change the ends of the run, but not its steps.
pub(crate) fn stop_text(
    alloc: Global,
    read: &Record,
    table: &Table,
    certificate: &Certificate,
    ends: Option<Ends>,
    fault: CheckFault,
    run: &mut Partial,
) -> Result<String, AllocError>
    requires found { IfSome ends (λ both. both ≡ ends_of table.now read.now.entries.items) }
    ensures { IfOk result (λ text. EndsWithEnds table.now read.now.entries.items ends (string_bytes text)) }
{
    let stop = Stop {
        read,
        table,
        certificate,
        fault,
    };
    let mut lines = String::new(alloc);
    push_stop(alloc, &mut lines, &stop, run)?;
    let mut text = String::new(alloc);
    push_indented(&mut text, &lines)?;
    push_findings(alloc, &mut text, read, table, ends)?;
    Ok(text)
}
