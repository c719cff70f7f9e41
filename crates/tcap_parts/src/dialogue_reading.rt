//! Reading dialogue portions (Q.773 4.2.3). The readers of a part at the front of a window return it and the window
//! after it.

ghost use Rattle.std.specs.Prelude.{◌≡◌, ◌↔◌, ℕ, List, Err, IfOk, IsOkAnd};
ghost use Rattle.tcap_ber.specs.declared.fault.Fault.{Fault};
ghost use Rattle.tcap_ber.specs.Reading.{Gives, span, element};
ghost use Rattle.tcap_parts.specs.declared.dialogue.Dialogue.{Dialogue};
ghost use Rattle.tcap_parts.specs.declared.dialogue.Syntax.TheVariants as Syntax;
ghost use Rattle.tcap_parts.specs.Dialogue.{dialogue, SpellsDialogue};
ghost use Rattle.tcap_parts.specs.DialogueMeaning.{info_meaning, source_of, dialogue_of};
ghost use Rattle.tcap_parts.specs.InfoReading.{info_at};
ghost use Rattle.tcap_parts.specs.DialogueReading.{is_version, version_of, version_at, context_of, context_at, number_in, result_at, source_at, diagnostic_of, diagnostic_at, abort_source_at, named_at, response_at, abort_at, pdu_of, pdu_at, syntax_of, syntax_at, single_type_of, single_type_at, external_dialogue_at, dialogue_at};

use crate::dialogue::{DialogueView, SourceView, Syntax};
use crate::info::InfoView;
use crate::tags::{
    ABORT, ABORT_SOURCE, CONTEXT, DIAGNOSTIC, DIALOGUE_AS_ID, EXTERNAL, INTEGER, OBJECT_ID,
    PROVIDER, REQUEST, RESPONSE, RESULT, SINGLE_TYPE, UNI, UNIDIALOGUE_AS_ID, USER,
    USER_INFORMATION, VERSION,
};
use tcap_ber::{
    Fault, ObjectIdView, Reason, SmallView, Tlv, Window, begins_with, ended, object_id, required,
    required_any, small_number,
};

/// Reads the user information at the front of a window. `None` if the next tag is another one.
#[tactic(auto, unfolding(crate::specs::InfoReading::info_at))]
fn info(window: Window) -> Result<(Option<InfoView>, Window), Fault>
    ensures exact { Gives (λ x. (info_meaning x.0, span x.1)) result (info_at (span window.entry)) }
{
    if !begins_with(window, USER_INFORMATION) {
        return Ok((None, window));
    }
    let (found, rest) = required(window, USER_INFORMATION)?;
    Ok((Some(InfoView::read(found)?), rest))
}

/// Returns whether the contents of a BIT STRING are an accepted protocol version.
fn is_version(octets: &[u8]) -> bool
    ensures { result ≡ is_version octets.now }
{
    match octets {
        [unused, bits] => *unused < 8 && *bits > 0x7F,
        _ => false,
    }
}

/// Checks a protocol version.
#[tactic(auto, unfolding(crate::specs::DialogueReading::version_of))]
fn check_version(tlv: Tlv) -> Result<(), Fault>
    ensures exact { Gives (λ x. x) result (version_of (element tlv.entry)) }
{
    if is_version(tlv.content.octets) {
        Ok(())
    } else {
        Err(tlv.refused(Reason::BadVersion))
    }
}

/// Reads the protocol version at the front of a window. `None` if the next tag is another one.
#[tactic(auto, unfolding(crate::specs::DialogueReading::version_at))]
fn version(window: Window) -> Result<(Option<()>, Window), Fault>
    ensures exact { Gives (λ x. (x.0, span x.1)) result (version_at (span window.entry)) }
{
    if !begins_with(window, VERSION) {
        return Ok((None, window));
    }
    let (found, rest) = required(window, VERSION)?;
    check_version(found)?;
    Ok((Some(()), rest))
}

/// Reads the OBJECT IDENTIFIER that is all of an element's content.
#[tactic(auto, unfolding(crate::specs::DialogueReading::context_of))]
fn single_object_id(tlv: Tlv) -> Result<ObjectIdView, Fault>
    ensures exact { Gives (λ id. id.octets.now) result (context_of (element tlv.entry)) }
{
    let (found, rest) = required(tlv.content, OBJECT_ID)?;
    let id = object_id(found)?;
    ended(rest)?;
    Ok(id)
}

/// Reads the application context name at the front of a window.
#[tactic(auto, unfolding(crate::specs::DialogueReading::context_at))]
fn context(window: Window) -> Result<(ObjectIdView, Window), Fault>
    ensures exact { Gives (λ x. (x.0.octets.now, span x.1)) result (context_at (span window.entry)) }
{
    let (found, rest) = required(window, CONTEXT)?;
    Ok((single_object_id(found)?, rest))
}

/// Reads the number from 0 to 127 that is all of an element's content.
#[tactic(auto, unfolding(crate::specs::DialogueReading::number_in))]
fn single_number(tlv: Tlv) -> Result<SmallView, Fault>
    ensures exact { Gives (λ n. n.number) result (number_in (element tlv.entry)) }
{
    let (found, rest) = required(tlv.content, INTEGER)?;
    let number = small_number(found)?;
    ended(rest)?;
    Ok(number)
}

/// Reads the result at the front of a window.
#[tactic(auto, unfolding(crate::specs::DialogueReading::result_at))]
fn result(window: Window) -> Result<(SmallView, Window), Fault>
    ensures exact { Gives (λ x. (x.0.number, span x.1)) result (result_at (span window.entry)) }
{
    let (found, rest) = required(window, RESULT)?;
    Ok((single_number(found)?, rest))
}

/// Reads the source and number of a diagnostic at the front of a window.
#[tactic(auto, unfolding(crate::specs::DialogueReading::source_at))]
fn source(window: Window) -> Result<(SourceView, Window), Fault>
    ensures exact { Gives (λ x. (source_of x.0, span x.1)) result (source_at (span window.entry)) }
{
    let (found, rest) = required_any(window)?;
    if found.tag.is(USER) {
        Ok((SourceView::User(single_number(found)?), rest))
    } else if found.tag.is(PROVIDER) {
        Ok((SourceView::Provider(single_number(found)?), rest))
    } else {
        Err(found.refused(Reason::UnexpectedTag))
    }
}

/// Reads the diagnostic that is all of an element's content.
#[tactic(auto, unfolding(crate::specs::DialogueReading::diagnostic_of))]
fn single_source(tlv: Tlv) -> Result<SourceView, Fault>
    ensures exact { Gives source_of result (diagnostic_of (element tlv.entry)) }
{
    let (source, rest) = source(tlv.content)?;
    ended(rest)?;
    Ok(source)
}

/// Reads the diagnostic at the front of a window.
#[tactic(auto, unfolding(crate::specs::DialogueReading::diagnostic_at))]
fn diagnostic(window: Window) -> Result<(SourceView, Window), Fault>
    ensures exact { Gives (λ x. (source_of x.0, span x.1)) result (diagnostic_at (span window.entry)) }
{
    let (found, rest) = required(window, DIAGNOSTIC)?;
    Ok((single_source(found)?, rest))
}

/// Reads the abort source at the front of a window.
#[tactic(auto, unfolding(crate::specs::DialogueReading::abort_source_at))]
fn abort_source(window: Window) -> Result<(SmallView, Window), Fault>
    ensures exact { Gives (λ x. (x.0.number, span x.1)) result (abort_source_at (span window.entry)) }
{
    let (found, rest) = required(window, ABORT_SOURCE)?;
    Ok((small_number(found)?, rest))
}

/// Reads the application context name and user information of an AARQ or AUDT, which is all of `content`.
#[tactic(auto, unfolding(crate::specs::DialogueReading::named_at))]
fn view_named(content: Window) -> Result<(ObjectIdView, Option<InfoView>), Fault>
    ensures exact { Gives (λ x. (x.0.octets.now, info_meaning x.1)) result (named_at (span content.entry)) }
{
    let (_, rest) = version(content)?;
    let (context, rest) = context(rest)?;
    let (info, rest) = info(rest)?;
    ended(rest)?;
    Ok((context, info))
}

/// Reads the parts of an AARE, which are all of `content`.
#[tactic(auto, unfolding(crate::specs::DialogueReading::response_at))]
fn view_response(content: Window) -> Result<DialogueView, Fault>
    ensures exact { Gives dialogue_of result (response_at (span content.entry)) }
{
    let (_, rest) = version(content)?;
    let (context, rest) = context(rest)?;
    let (result, rest) = result(rest)?;
    let (diagnostic, rest) = diagnostic(rest)?;
    let (info, rest) = info(rest)?;
    ended(rest)?;
    Ok(DialogueView::Response {
        context,
        result,
        diagnostic,
        info,
    })
}

/// Reads the parts of an ABRT, which are all of `content`.
#[tactic(auto, unfolding(crate::specs::DialogueReading::abort_at))]
fn view_abort(content: Window) -> Result<DialogueView, Fault>
    ensures exact { Gives dialogue_of result (abort_at (span content.entry)) }
{
    let (source, rest) = abort_source(content)?;
    let (info, rest) = info(rest)?;
    ended(rest)?;
    Ok(DialogueView::Abort { source, info })
}

/// Reads an element as a PDU of a structured dialogue, by its tag.
fn structured_pdu(found: Tlv) -> Result<DialogueView, Fault>
    ensures exact { Gives dialogue_of result (pdu_of Syntax.Structured (element found.entry)) }
{
    if found.tag.is(REQUEST) {
        let (context, info) = view_named(found.content)?;
        Ok(DialogueView::Request { context, info })
    } else if found.tag.is(RESPONSE) {
        view_response(found.content)
    } else if found.tag.is(ABORT) {
        view_abort(found.content)
    } else {
        Err(found.refused(Reason::DialogueSyntax))
    }
}

/// Reads an element as the PDU of a Unidirectional, by its tag.
fn unstructured_pdu(found: Tlv) -> Result<DialogueView, Fault>
    ensures exact { Gives dialogue_of result (pdu_of Syntax.Unstructured (element found.entry)) }
{
    if found.tag.is(UNI) {
        let (context, info) = view_named(found.content)?;
        Ok(DialogueView::Uni { context, info })
    } else {
        Err(found.refused(Reason::DialogueSyntax))
    }
}

/// Reads the PDU of this abstract syntax at the front of a window.
#[tactic(auto, unfolding(crate::specs::DialogueReading::pdu_at))]
fn pdu(syntax: Syntax, window: Window) -> Result<(DialogueView, Window), Fault>
    ensures exact { Gives (λ x. (dialogue_of x.0, span x.1)) result (pdu_at syntax (span window.entry)) }
{
    let (found, rest) = required_any(window)?;
    let pdu = match syntax {
        Syntax::Structured => structured_pdu(found)?,
        Syntax::Unstructured => unstructured_pdu(found)?,
    };
    Ok((pdu, rest))
}

/// Returns the abstract syntax that an OBJECT IDENTIFIER names.
#[tactic(auto, unfolding(crate::specs::DialogueReading::syntax_of))]
fn named_syntax(tlv: Tlv) -> Result<Syntax, Fault>
    ensures exact { Gives (λ x. x) result (syntax_of (element tlv.entry)) }
{
    let id = object_id(tlv)?;
    if id.octets == DIALOGUE_AS_ID.as_slice() {
        Ok(Syntax::Structured)
    } else if id.octets == UNIDIALOGUE_AS_ID.as_slice() {
        Ok(Syntax::Unstructured)
    } else {
        Err(tlv.refused(Reason::DialogueSyntax))
    }
}

/// Reads the name of an abstract syntax at the front of a window.
#[tactic(auto, unfolding(crate::specs::DialogueReading::syntax_at))]
fn syntax(window: Window) -> Result<(Syntax, Window), Fault>
    ensures exact { Gives (λ x. (x.0, span x.1)) result (syntax_at (span window.entry)) }
{
    let (found, rest) = required_any(window)?;
    if found.tag.is(OBJECT_ID) {
        Ok((named_syntax(found)?, rest))
    } else {
        Err(found.refused(Reason::DialogueSyntax))
    }
}

/// Reads the PDU of this abstract syntax that is all of an element's content.
#[tactic(auto, unfolding(crate::specs::DialogueReading::single_type_of))]
fn single_pdu(syntax: Syntax, tlv: Tlv) -> Result<DialogueView, Fault>
    ensures exact { Gives dialogue_of result (single_type_of syntax (element tlv.entry)) }
{
    let (pdu, rest) = pdu(syntax, tlv.content)?;
    ended(rest)?;
    Ok(pdu)
}

/// Reads the single ASN.1 type at the front of a window, which contains a PDU of this abstract syntax.
#[tactic(auto, unfolding(crate::specs::DialogueReading::single_type_at))]
fn single_type(syntax: Syntax, window: Window) -> Result<(DialogueView, Window), Fault>
    ensures exact { Gives (λ x. (dialogue_of x.0, span x.1)) result (single_type_at syntax (span window.entry)) }
{
    let (found, rest) = required_any(window)?;
    if found.tag.is(SINGLE_TYPE) {
        Ok((single_pdu(syntax, found)?, rest))
    } else {
        Err(found.refused(Reason::DialogueSyntax))
    }
}

/// Reads the PDU of an EXTERNAL, which is all of `content`.
#[tactic(auto, unfolding(crate::specs::DialogueReading::external_dialogue_at))]
fn view_external(content: Window) -> Result<DialogueView, Fault>
    ensures exact { Gives dialogue_of result (external_dialogue_at (span content.entry)) }
{
    let (syntax, rest) = syntax(content)?;
    let (pdu, rest) = single_type(syntax, rest)?;
    ended(rest)?;
    Ok(pdu)
}

#[tactic(auto, unfolding(crate::specs::DialogueReading::dialogue_at))]
fn read_dialogue(content: Window) -> Result<DialogueView, Fault>
    ensures exact { Gives dialogue_of result (dialogue_at (span content.entry)) }
{
    let (found, rest) = required(content, EXTERNAL)?;
    let dialogue = view_external(found.content)?;
    ended(rest)?;
    Ok(dialogue)
}

/// Reads the PDU of a dialogue portion, which is all of `content` (Q.773 4.2.3). Returns a view that borrows its
/// octets.
///
/// # Errors
///
/// The first fault from left to right, at the first octet of the element given here. `Missing` is at the end of the
/// content that lacks the element. A fault inside an element of indefinite length, or past its window, is at the offset
/// that [`next_tlv`](tcap_ber::next_tlv) gives.
///
/// - `DialogueSyntax` at the EXTERNAL's first element if its tag is not 06 or it names another abstract syntax.
/// - `DialogueSyntax` at the EXTERNAL's second element if its tag is not A0, or at a PDU that the syntax does not have.
/// - `BadObjectId` at the 06 of that name or of an application context name, if its contents are not an OBJECT
///   IDENTIFIER.
/// - `BadVersion` at a protocol version that is not a BIT STRING of one octet whose first bit, version1, is set.
/// - `BadInteger` or `BadSize` at the 02 of a result or a diagnostic, or at an abort source.
/// - The faults of [`required`] at each required element, with `DialogueSyntax` for `UnexpectedTag` in the cases above.
/// - The faults of [`tcap_ber::next_tlv`] at a protocol version and at user information.
/// - The faults of [`InfoView::read`].
/// - `Trailing` after the last part of a structure.
pub fn view_dialogue(content: Window) -> Result<DialogueView, Fault>
    // On success, all of the content spells the PDU.
    ensures found { IfOk result (λ view. SpellsDialogue (dialogue_of view) content.entry.octets.now) }
    // A PDU that all of the content spells is read.
    ensures only { (d : Dialogue) → SpellsDialogue d content.entry.octets.now
        → IsOkAnd result (λ view. dialogue_of view ≡ d) }
    // The result is a fault exactly if the content has that fault.
    ensures faulty { (fault : Fault) (at : ℕ)
        → (result ≡ Err fault) ↔ dialogue.faulty at (span content.entry) fault.reason fault.place }
    ensures exact { Gives dialogue_of result (dialogue_at (span content.entry)) }
{
    read_dialogue(content)
}
