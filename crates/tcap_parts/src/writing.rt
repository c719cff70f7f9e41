//! Writing components with the shortest definite lengths, and parameters verbatim.
//!
//! A `len_` function returns a length in octets. If a content has more than 65,535 octets, it returns `None`. A
//! `write_` function returns `Failed` if the writer fails.

ghost use Rattle.std.specs.Prelude.{◌≡◌, ℕ, ◌^◌, ◌+◌, ◌<◌, ◌≤◌, List, length, Some, IfSome, OnOk};
ghost use Rattle.tcap_ber.specs.Element.{content_limit, shortest_header_limit};
ghost use Rattle.std.specs.Option.{option_map, IsSome};
ghost use Rattle.std.specs.Io.KnownBytes.{Appends};
ghost use Rattle.tcap_ber.specs.Device.{CountsFailure};
ghost use Rattle.tcap_parts.specs.Canonical.{canonical_integer, canonical_code, canonical_coded, canonical_linked, canonical_body, canonical_rejected, canonical_problem, component_tag, canonical_content, canonical_component, canonical_portion, parameter_octets, problem_tag, problem_number};
ghost use Rattle.tcap_parts.specs.Meaning.{code_of, parameter_of, body_of, problem_of, component_of, components_of};
ghost use Rattle.tcap_parts.specs.Writing.{Written};

use crate::code::CodeView;
use crate::component::{ComponentView, ResultBodyView};
use crate::portion::PortionView;
use crate::problem::ProblemView;
use crate::tags::{
    INTEGER, INVOKE, LINKED_ID, NULL, OBJECT_ID, REJECT, RETURN_ERROR, RETURN_RESULT_LAST,
    RETURN_RESULT_NOT_LAST, SEQUENCE,
};
use tcap_ber::{
    CONTENT_LIMIT, Failed, RawView, Write, element_len, integer_len, put_element, put_header,
    put_integer,
};

/// Returns the length of an INTEGER with a tag of one octet.
fn len_integer(value: i32) -> usize
    ensures exact { (tag : ℕ) → option_map length (canonical_integer tag value) ≡ Some result }
    ensures most { result ≤ 6 }
{
    2 + integer_len(value)
}

/// Returns the length of an invoke ID or a linked ID.
fn len_id(id: i8) -> usize
    ensures exact { (tag : ℕ) → option_map length (canonical_integer tag id) ≡ Some result }
    ensures most { result ≤ 6 }
{
    len_integer(i32::from(id))
}

/// Returns the length of a parameter, 0 if there is none.
fn len_parameter(parameter: Option<RawView>) -> usize
    ensures exact { result ≡ length (parameter_octets (parameter_of parameter.entry)) }
    ensures within { result < 2 ^ 63 }
{
    match parameter {
        Some(raw) => raw.octets.len(),
        None => 0,
    }
}

/// Returns the length of a code.
fn len_code(code: CodeView) -> Option<usize>
    ensures exact { result ≡ option_map length (canonical_code (code_of code.entry)) }
    ensures most { IfSome result (λ n. n ≤ content_limit + shortest_header_limit) }
{
    match code {
        CodeView::Local(local) => Some(len_integer(local)),
        CodeView::Global(id) => element_len(id.octets.len()),
    }
}

/// Returns the length of a code and a parameter.
fn len_coded(code: CodeView, parameter: Option<RawView>) -> Option<usize>
    ensures exact { result ≡ option_map length (canonical_coded (code_of code.entry) (parameter_of parameter.entry)) }
    ensures most { IfSome result (λ n. n < 2 ^ 63 + (content_limit + shortest_header_limit)) }
{
    Some(len_code(code)? + len_parameter(parameter))
}

/// Returns the length of the body of a Return Result, 0 if there is none.
fn len_body(body: Option<ResultBodyView>) -> Option<usize>
    ensures exact { result ≡ option_map length (canonical_body (option_map body_of body.entry)) }
    ensures most { IfSome result (λ n. n ≤ content_limit + shortest_header_limit) }
{
    match body {
        Some(body) => element_len(len_coded(body.code, body.parameter)?),
        None => Some(0),
    }
}

/// Returns the length of a linked ID, 0 if there is none.
fn len_linked(linked: Option<i8>) -> usize
    ensures exact { option_map length (canonical_linked linked) ≡ Some result }
    ensures most { result ≤ 6 }
{
    match linked {
        Some(id) => len_id(id),
        None => 0,
    }
}

/// Returns the length of the ID of a Reject: an invoke ID or NULL.
fn len_rejected(id: Option<i8>) -> usize
    ensures exact { option_map length (canonical_rejected id) ≡ Some result }
    ensures most { result ≤ 6 }
{
    match id {
        Some(id) => len_id(id),
        None => 2,
    }
}

/// Returns the length of a component's content.
fn len_content(component: ComponentView) -> Option<usize>
    ensures exact { result ≡ option_map length (canonical_content (component_of component.entry)) }
{
    match component {
        ComponentView::Invoke {
            id,
            linked,
            code,
            parameter,
        } => { Some(len_id(id) + len_linked(linked) + len_coded(code, parameter)?) }
        ComponentView::ReturnResult { id, body, .. } => { Some(len_id(id) + len_body(body)?) }
        ComponentView::ReturnError {
            id,
            code,
            parameter,
        } => Some(len_id(id) + len_coded(code, parameter)?),
        ComponentView::Reject { id, .. } => Some(len_rejected(id) + 3),
    }
}

/// Returns the length of a component.
fn len_component(component: ComponentView) -> Option<usize>
    ensures exact { result ≡ option_map length (canonical_component (component_of component.entry)) }
    ensures most { IfSome result (λ n. n ≤ content_limit + shortest_header_limit) }
{
    element_len(len_content(component)?)
}

/// Returns the length in octets of the content of a component portion. `None` if any content, the portion's included,
/// has more than 65,535 octets. It does not allocate.
pub fn len_components(portion: PortionView) -> Option<usize>
    ensures { result ≡ option_map length (canonical_portion (components_of portion.entry)) }
{
    let mut total = 0;
    for component in portion.components() {
        total += len_component(component)?;
        if total > CONTENT_LIMIT {
            return None;
        }
    }
    Some(total)
}

/// Writes an invoke ID or a linked ID.
fn write_id<W: Write>(tag: u8, id: i8, writer: &mut W) -> Result<(), Failed>
    ensures ok { OnOk result (Written (canonical_integer tag id) (W.taken writer.old) (W.taken writer.new)) }
    ensures counts { CountsFailure (W.failures writer.old) (W.failures writer.new) result }
{
    put_integer(tag, i32::from(id), writer)
}

/// Writes a code.
fn write_code<W: Write>(code: CodeView, writer: &mut W) -> Result<(), Failed>
    requires { IsSome (canonical_code (code_of code)) }
    ensures ok { OnOk result (Written (canonical_code (code_of code.entry)) (W.taken writer.old) (W.taken writer.new)) }
    ensures counts { CountsFailure (W.failures writer.old) (W.failures writer.new) result }
{
    match code {
        CodeView::Local(local) => put_integer(INTEGER, local, writer),
        CodeView::Global(id) => put_element(OBJECT_ID, id.octets, writer),
    }
}

/// Writes a code and a parameter.
fn write_coded<W: Write>(
    code: CodeView,
    parameter: Option<RawView>,
    writer: &mut W,
) -> Result<(), Failed>
    requires { IsSome (canonical_coded (code_of code) (parameter_of parameter)) }
    ensures ok { OnOk result (Written (canonical_coded (code_of code.entry) (parameter_of parameter.entry))
        (W.taken writer.old) (W.taken writer.new)) }
    ensures counts { CountsFailure (W.failures writer.old) (W.failures writer.new) result }
{
    write_code(code, writer)?;
    match parameter {
        Some(raw) => writer.write_all(raw.octets),
        None => Ok(()),
    }
}

/// Writes the body of a Return Result, if there is one.
fn write_body<W: Write>(body: Option<ResultBodyView>, writer: &mut W) -> Result<(), Failed>
    requires { IsSome (canonical_body (option_map body_of body)) }
    ensures ok { OnOk result (Written (canonical_body (option_map body_of body.entry)) (W.taken writer.old)
        (W.taken writer.new)) }
    ensures counts { CountsFailure (W.failures writer.old) (W.failures writer.new) result }
{
    let Some(body) = body else {
        return Ok(());
    };
    let Some(len) = len_coded(body.code, body.parameter) else {
        unreachable!()
    };
    put_header(SEQUENCE, len, writer)?;
    write_coded(body.code, body.parameter, writer)
}

/// Writes a linked ID, if there is one.
fn write_linked<W: Write>(linked: Option<i8>, writer: &mut W) -> Result<(), Failed>
    ensures ok { OnOk result (Written (canonical_linked linked) (W.taken writer.old) (W.taken writer.new)) }
    ensures counts { CountsFailure (W.failures writer.old) (W.failures writer.new) result }
{
    match linked {
        Some(id) => write_id(LINKED_ID, id, writer),
        None => Ok(()),
    }
}

/// Writes the ID of a Reject: an invoke ID or NULL.
fn write_rejected<W: Write>(id: Option<i8>, writer: &mut W) -> Result<(), Failed>
    ensures ok { OnOk result (Written (canonical_rejected id) (W.taken writer.old) (W.taken writer.new)) }
    ensures counts { CountsFailure (W.failures writer.old) (W.failures writer.new) result }
{
    match id {
        Some(id) => write_id(INTEGER, id, writer),
        None => put_element(NULL, &[], writer),
    }
}

/// Returns the tag and the number of a problem (Q.773 4.2.2).
fn problem_parts(problem: ProblemView) -> (u8, u8)
    ensures tag { result.0 ≡ problem_tag (problem_of problem) }
    ensures number { result.1 ≡ problem_number (problem_of problem) }
{
    match problem {
        ProblemView::General(number) => (0x80, number.number),
        ProblemView::Invoke(number) => (0x81, number.number),
        ProblemView::ReturnResult(number) => (0x82, number.number),
        ProblemView::ReturnError(number) => (0x83, number.number),
    }
}

/// Writes a problem.
fn write_problem<W: Write>(problem: ProblemView, writer: &mut W) -> Result<(), Failed>
    ensures ok { OnOk result (Written (canonical_problem (problem_of problem)) (W.taken writer.old)
        (W.taken writer.new)) }
    ensures counts { CountsFailure (W.failures writer.old) (W.failures writer.new) result }
{
    let (tag, number) = problem_parts(problem);
    put_element(tag, &[number], writer)
}

/// Writes the content of a component.
fn write_content<W: Write>(component: ComponentView, writer: &mut W) -> Result<(), Failed>
    requires { IsSome (canonical_content (component_of component)) }
    ensures ok { OnOk result (Written (canonical_content (component_of component.entry)) (W.taken writer.old)
        (W.taken writer.new)) }
    ensures counts { CountsFailure (W.failures writer.old) (W.failures writer.new) result }
{
    match component {
        ComponentView::Invoke {
            id,
            linked,
            code,
            parameter,
        } => {
            write_id(INTEGER, id, writer)?;
            write_linked(linked, writer)?;
            write_coded(code, parameter, writer)
        }
        ComponentView::ReturnResult { id, body, .. } => {
            write_id(INTEGER, id, writer)?;
            write_body(body, writer)
        }
        ComponentView::ReturnError {
            id,
            code,
            parameter,
        } => {
            write_id(INTEGER, id, writer)?;
            write_coded(code, parameter, writer)
        }
        ComponentView::Reject { id, problem } => {
            write_rejected(id, writer)?;
            write_problem(problem, writer)
        }
    }
}

/// Returns the tag of a component (Q.773 4.2.2).
fn tag(component: ComponentView) -> u8
    ensures { result ≡ component_tag (component_of component.entry) }
{
    match component {
        ComponentView::Invoke { .. } => INVOKE,
        ComponentView::ReturnResult { last: true, .. } => RETURN_RESULT_LAST,
        ComponentView::ReturnResult { last: false, .. } => RETURN_RESULT_NOT_LAST,
        ComponentView::ReturnError { .. } => RETURN_ERROR,
        ComponentView::Reject { .. } => REJECT,
    }
}

/// Writes a component.
fn write_component<W: Write>(component: ComponentView, writer: &mut W) -> Result<(), Failed>
    requires { IsSome (canonical_component (component_of component)) }
    ensures ok { OnOk result (Written (canonical_component (component_of component.entry)) (W.taken writer.old)
        (W.taken writer.new)) }
    ensures counts { CountsFailure (W.failures writer.old) (W.failures writer.new) result }
{
    let Some(len) = len_content(component) else {
        unreachable!()
    };
    put_header(tag(component), len, writer)?;
    write_content(component, writer)
}

/// Writes the content of a component portion: its components one after the other. No content may have more than 65,535
/// octets, as [`len_components`] checks. It does not allocate.
///
/// # Errors
///
/// `Failed` if the writer fails.
pub fn write_components<W: Write>(portion: PortionView, writer: &mut W) -> Result<(), Failed>
    requires { IsSome (canonical_portion (components_of portion)) }
    ensures ok { OnOk result (Written (canonical_portion (components_of portion.entry)) (W.taken writer.old)
        (W.taken writer.new)) }
    ensures counts { CountsFailure (W.failures writer.old) (W.failures writer.new) result }
{
    for component in portion.components() {
        write_component(component, writer)?;
    }
    Ok(())
}
