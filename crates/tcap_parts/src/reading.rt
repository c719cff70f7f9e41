//! Reading components (Q.773 4.2.2). The readers of a part at the front of a window return it and the window after it.

ghost use Rattle.std.specs.Prelude.{◌≡◌, ◌<◌, ◌↔◌, ◌++◌, ℕ, List, length, Err, IfOk, IsOkAnd};
ghost use Rattle.std.specs.Option.{option_map};
ghost use Rattle.tcap_ber.specs.declared.fault.Fault.{Fault};
ghost use Rattle.tcap_ber.specs.FrontElement.{Taken};
ghost use Rattle.tcap_ber.specs.Reading.{Gives, span, element};
ghost use Rattle.tcap_parts.specs.declared.component.Component.{Component};
ghost use Rattle.tcap_parts.specs.Component.{component, SpellsComponent};
ghost use Rattle.tcap_parts.specs.Meaning.{body_of, component_of};
ghost use Rattle.tcap_parts.specs.Reading.{invoke_id_at, linked_id_at, rejected_id_at, invoke_at, result_body_at, optional_body_at, return_result_at, return_error_at, reject_at, component_at};

use crate::code::read_code;
use crate::component::{ComponentView, ResultBodyView};
use crate::problem::read_problem;
use crate::short_integer::short_integer;
use crate::tags::{
    INTEGER, INVOKE, LINKED_ID, NULL, REJECT, RETURN_ERROR, RETURN_RESULT_LAST,
    RETURN_RESULT_NOT_LAST, SEQUENCE,
};
use tcap_ber::{
    Fault, RawView, Reason, Window, begins_with, ended, null, octet_integer, required, required_any,
};

/// Reads the invoke ID at the front of a window, in any form.
#[tactic(auto, unfolding(crate::specs::Reading::invoke_id_at))]
#[inline(never)]
fn invoke_id_of_any_form(window: Window) -> Result<(i8, Window), Fault>
    ensures exact { Gives (λ x. (x.0, span x.1)) result (invoke_id_at (span window.entry)) }
{
    let (found, rest) = required(window, INTEGER)?;
    Ok((octet_integer(found)?, rest))
}

/// Reads the invoke ID at the front of a window. A header of two octets takes a fast path.
#[inline(always)]
fn invoke_id(window: Window) -> Result<(i8, Window), Fault>
    ensures exact { Gives (λ x. (x.0, span x.1)) result (invoke_id_at (span window.entry)) }
{
    match short_integer(window.octets) {
        Some(id) => Ok((id, window.behind(3))),
        None => invoke_id_of_any_form(window),
    }
}

/// Reads the linked ID at the front of a window. `None` if the next tag is another one.
#[tactic(auto, unfolding(crate::specs::Reading::linked_id_at))]
#[inline(always)]
fn linked_id(window: Window) -> Result<(Option<i8>, Window), Fault>
    ensures exact { Gives (λ x. (x.0, span x.1)) result (linked_id_at (span window.entry)) }
{
    if !begins_with(window, LINKED_ID) {
        return Ok((None, window));
    }
    let (found, rest) = required(window, LINKED_ID)?;
    Ok((Some(octet_integer(found)?), rest))
}

/// Reads the ID of a Reject at the front of a window: an invoke ID, or `None` for NULL.
#[tactic(auto, unfolding(crate::specs::Reading::rejected_id_at))]
fn rejected_id(window: Window) -> Result<(Option<i8>, Window), Fault>
    ensures exact { Gives (λ x. (x.0, span x.1)) result (rejected_id_at (span window.entry)) }
{
    let (found, rest) = required_any(window)?;
    if found.tag.is(INTEGER) {
        Ok((Some(octet_integer(found)?), rest))
    } else if found.tag.is(NULL) {
        null(found)?;
        Ok((None, rest))
    } else {
        Err(found.refused(Reason::UnexpectedTag))
    }
}

/// Reads the parts of an Invoke, which are all of `content`.
#[tactic(auto, unfolding(crate::specs::Reading::invoke_at))]
#[inline(always)]
fn view_invoke(content: Window) -> Result<ComponentView, Fault>
    ensures exact { Gives component_of result (invoke_at (span content.entry)) }
{
    let (id, rest) = invoke_id(content)?;
    let (linked, rest) = linked_id(rest)?;
    let (code, rest) = read_code(rest)?;
    let (parameter, rest) = RawView::parameter(rest)?;
    ended(rest)?;
    Ok(ComponentView::Invoke {
        id,
        linked,
        code,
        parameter,
    })
}

/// Reads the body of a Return Result, which is all of `content`.
#[tactic(auto, unfolding(crate::specs::Reading::result_body_at))]
fn view_result_body(content: Window) -> Result<ResultBodyView, Fault>
    ensures exact { Gives body_of result (result_body_at (span content.entry)) }
{
    let (code, rest) = read_code(content)?;
    let (parameter, rest) = RawView::parameter(rest)?;
    ended(rest)?;
    Ok(ResultBodyView { code, parameter })
}

/// Reads the body of a Return Result at the front of a window. `None` if the next tag is another one.
#[tactic(auto, unfolding(crate::specs::Reading::optional_body_at))]
fn optional_body(window: Window) -> Result<(Option<ResultBodyView>, Window), Fault>
    ensures exact { Gives (λ x. (option_map body_of x.0, span x.1)) result (optional_body_at (span window.entry)) }
{
    if !begins_with(window, SEQUENCE) {
        return Ok((None, window));
    }
    let (found, rest) = required(window, SEQUENCE)?;
    Ok((Some(view_result_body(found.content)?), rest))
}

/// Reads the parts of a Return Result, which are all of `content`.
#[tactic(auto, unfolding(crate::specs::Reading::return_result_at))]
fn view_return_result(last: bool, content: Window) -> Result<ComponentView, Fault>
    ensures exact { Gives component_of result (return_result_at last (span content.entry)) }
{
    let (id, rest) = invoke_id(content)?;
    let (body, rest) = optional_body(rest)?;
    ended(rest)?;
    Ok(ComponentView::ReturnResult { last, id, body })
}

/// Reads the parts of a Return Error, which are all of `content`.
#[tactic(auto, unfolding(crate::specs::Reading::return_error_at))]
fn view_return_error(content: Window) -> Result<ComponentView, Fault>
    ensures exact { Gives component_of result (return_error_at (span content.entry)) }
{
    let (id, rest) = invoke_id(content)?;
    let (code, rest) = read_code(rest)?;
    let (parameter, rest) = RawView::parameter(rest)?;
    ended(rest)?;
    Ok(ComponentView::ReturnError {
        id,
        code,
        parameter,
    })
}

/// Reads the parts of a Reject, which are all of `content`.
#[tactic(auto, unfolding(crate::specs::Reading::reject_at))]
fn view_reject(content: Window) -> Result<ComponentView, Fault>
    ensures exact { Gives component_of result (reject_at (span content.entry)) }
{
    let (id, rest) = rejected_id(content)?;
    let (problem, rest) = read_problem(rest)?;
    ended(rest)?;
    Ok(ComponentView::Reject { id, problem })
}

#[tactic(auto, unfolding(crate::specs::Reading::component_at))]
#[inline(always)]
fn read_component(window: Window) -> Result<(ComponentView, Window), Fault>
    ensures exact { Gives (λ x. (component_of x.0, span x.1)) result (component_at (span window.entry)) }
{
    let (found, rest) = required_any(window)?;
    let component = if found.tag.is(INVOKE) {
        view_invoke(found.content)?
    } else if found.tag.is(RETURN_RESULT_LAST) {
        view_return_result(true, found.content)?
    } else if found.tag.is(RETURN_ERROR) {
        view_return_error(found.content)?
    } else if found.tag.is(REJECT) {
        view_reject(found.content)?
    } else if found.tag.is(RETURN_RESULT_NOT_LAST) {
        view_return_result(false, found.content)?
    } else {
        return Err(found.refused(Reason::UnexpectedTag));
    };
    Ok((component, rest))
}

/// Reads the first component of a window (Q.773 4.2.2). Returns a view that borrows its octets, and the window after
/// it.
///
/// # Errors
///
/// The first fault from left to right:
///
/// - the faults of [`required_any`] at the component, a code, a problem or the ID of a Reject,
/// - `UnexpectedTag` at one of these if it has none of its allowed tags,
/// - the faults of [`required`] at an invoke ID,
/// - the faults of [`tcap_ber::next_tlv`] at a linked ID or the body of a Return Result,
/// - `BadInteger` or `BadSize` at an invoke ID, a linked ID or a problem,
/// - `BadInteger` or `CodeTooWide` at a local code, `BadObjectId` at a global one,
/// - `BadSize` at a NULL with content,
/// - the faults of [`RawView::parameter`] at a parameter,
/// - `Trailing` after the last part of a structure.
#[inline(always)]
pub fn view_component(window: Window) -> Result<(ComponentView, Window), Fault>
    // On success, the octets at the front spell the component.
    ensures found { IfOk result (λ x. Taken component (span window.entry) (component_of x.0) (span x.1)) }
    // A component that the front spells is read.
    ensures only { (c : Component) (front rest : List ℕ) → SpellsComponent c front
        → window.entry.octets.now ≡ front ++ rest
        → IsOkAnd result (λ x. (component_of x.0 ≡ c) × (x.1.octets.now ≡ rest)) }
    // The result is a fault exactly if the window has that fault.
    ensures faulty { (fault : Fault) → (result ≡ Err fault)
        ↔ component.faulty (span window.entry) fault.reason fault.place }
    ensures exact { Gives (λ x. (component_of x.0, span x.1)) result (component_at (span window.entry)) }
{
    read_component(window)
}
