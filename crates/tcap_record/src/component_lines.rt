//! The lines of components. Each function appends to `text`, and returns `AllocError` if memory runs out.

ghost use Rattle.std.specs.Prelude.{◌≡◌, ◌++◌, OnOk};
ghost use Rattle.std.specs.List.{flat_map};
ghost use Rattle.std.specs.String.{string_bytes};
ghost use Rattle.std.specs.Option.{option_map};
ghost use Rattle.tcap_parts.specs.declared.component.Component.TheVariants as Component;
ghost use Rattle.tcap_parts.specs.Meaning.{code_of, parameter_of, body_of, problem_of, component_of, components_left};
ghost use Rattle.tcap_record.specs.Lines.{code_text, parameter_text, coded_text, operation_text, error_code_text, result_name, problem_text, component_text, component_line};

use crate::digits::push_hex;
use crate::numbers::push_number;
use std::alloc::AllocError;
use tcap_ber::RawView;
use tcap_parts::{CodeView, ComponentView, Components, ProblemView, ResultBodyView};

/// Appends a parameter, if there is one.
fn push_parameter(text: &mut String, parameter: Option<RawView>) -> Result<(), AllocError>
    ensures { OnOk result (string_bytes text.new
        ≡ string_bytes text.old ++ parameter_text (parameter_of parameter.entry)) }
{
    match parameter {
        Some(raw) => {
            text.push_str(" parameter=")?;
            push_hex(text, raw.octets)
        }
        None => Ok(()),
    }
}

/// Appends an operation code or an error code; a global one follows `g:`.
pub fn push_code(text: &mut String, code: CodeView) -> Result<(), AllocError>
    ensures { OnOk result (string_bytes text.new ≡ string_bytes text.old ++ code_text (code_of code.entry)) }
{
    match code {
        CodeView::Local(number) => push_number(text, number),
        CodeView::Global(id) => {
            text.push_str("g:")?;
            push_hex(text, id.octets)
        }
    }
}

/// Appends an operation code or an error code, and a parameter.
#[inline(always)]
fn push_coded(
    text: &mut String,
    code: CodeView,
    parameter: Option<RawView>,
) -> Result<(), AllocError>
    ensures { OnOk result (string_bytes text.new ≡ string_bytes text.old
        ++ coded_text (code_of code.entry) (parameter_of parameter.entry)) }
{
    push_code(text, code)?;
    push_parameter(text, parameter)
}

/// Appends an operation code with its label, and a parameter.
#[inline(always)]
fn push_operation(
    text: &mut String,
    code: CodeView,
    parameter: Option<RawView>,
) -> Result<(), AllocError>
    ensures { OnOk result (string_bytes text.new ≡ string_bytes text.old
        ++ operation_text (code_of code.entry) (parameter_of parameter.entry)) }
{
    text.push_str(" op=")?;
    push_coded(text, code, parameter)
}

/// Appends an error code with its label, and a parameter.
fn push_error_code(
    text: &mut String,
    code: CodeView,
    parameter: Option<RawView>,
) -> Result<(), AllocError>
    ensures { OnOk result (string_bytes text.new ≡ string_bytes text.old
        ++ error_code_text (code_of code.entry) (parameter_of parameter.entry)) }
{
    text.push_str(" error=")?;
    push_coded(text, code, parameter)
}

/// Appends an Invoke.
#[inline(always)]
fn push_invoke(
    text: &mut String,
    id: i8,
    linked: Option<i8>,
    code: CodeView,
    parameter: Option<RawView>,
) -> Result<(), AllocError>
    ensures { OnOk result (string_bytes text.new ≡ string_bytes text.old
        ++ component_text (Component.Invoke id linked (code_of code.entry) (parameter_of parameter.entry))) }
{
    text.push_str("Invoke id=")?;
    push_number(text, id)?;
    if let Some(linked) = linked {
        text.push_str(" linked=")?;
        push_number(text, linked)?;
    }
    push_operation(text, code, parameter)
}

/// Returns the printed name of a Return Result.
fn name_of_result(last: bool) -> &'static str
    ensures { result.now ≡ result_name last }
{
    if last {
        "ReturnResultLast"
    } else {
        "ReturnResultNotLast"
    }
}

/// Appends a Return Result.
fn push_result(
    text: &mut String,
    last: bool,
    id: i8,
    body: Option<ResultBodyView>,
) -> Result<(), AllocError>
    ensures { OnOk result (string_bytes text.new ≡ string_bytes text.old
        ++ component_text (Component.ReturnResult last id (option_map body_of body.entry))) }
{
    text.push_str(name_of_result(last))?;
    text.push_str(" id=")?;
    write!(text, "{id}")?;
    match body {
        Some(body) => push_operation(text, body.code, body.parameter),
        None => Ok(()),
    }
}

/// Appends a Return Error.
fn push_error(
    text: &mut String,
    id: i8,
    code: CodeView,
    parameter: Option<RawView>,
) -> Result<(), AllocError>
    ensures { OnOk result (string_bytes text.new ≡ string_bytes text.old
        ++ component_text (Component.ReturnError id (code_of code.entry) (parameter_of parameter.entry))) }
{
    text.push_str("ReturnError id=")?;
    write!(text, "{id}")?;
    push_error_code(text, code, parameter)
}

/// Appends a problem.
fn push_problem(text: &mut String, problem: ProblemView) -> Result<(), AllocError>
    ensures { OnOk result (string_bytes text.new ≡ string_bytes text.old ++ problem_text (problem_of problem)) }
{
    let (label, number) = match problem {
        ProblemView::General(number) => (" general=", number),
        ProblemView::Invoke(number) => (" invoke=", number),
        ProblemView::ReturnResult(number) => (" result=", number),
        ProblemView::ReturnError(number) => (" error=", number),
    };
    let number = number.number;
    text.push_str(label)?;
    write!(text, "{number}")
}

/// Appends a Reject.
fn push_reject(text: &mut String, id: Option<i8>, problem: ProblemView) -> Result<(), AllocError>
    ensures { OnOk result (string_bytes text.new ≡ string_bytes text.old
        ++ component_text (Component.Reject id (problem_of problem))) }
{
    text.push_str("Reject id=")?;
    match id {
        Some(id) => write!(text, "{id}")?,
        None => text.push_str("null")?,
    }
    push_problem(text, problem)
}

/// Appends the line of a component (Q.773 4.2.2), as it is printed under the line of its entry.
///
/// # Errors
///
/// `AllocError` if memory runs out.
pub fn push_component(text: &mut String, component: ComponentView) -> Result<(), AllocError>
    ensures { OnOk result (string_bytes text.new
        ≡ string_bytes text.old ++ component_line (component_of component.entry)) }
{
    text.push_str("  ")?;
    match component {
        ComponentView::Invoke {
            id,
            linked,
            code,
            parameter,
        } => push_invoke(text, id, linked, code, parameter)?,
        ComponentView::ReturnResult { last, id, body } => {
            push_result(text, last, id, body)?;
        }
        ComponentView::ReturnError {
            id,
            code,
            parameter,
        } => push_error(text, id, code, parameter)?,
        ComponentView::Reject { id, problem } => push_reject(text, id, problem)?,
    }
    text.push_str("\n")
}

/// Appends the lines of components.
pub(crate) fn push_components(text: &mut String, components: Components) -> Result<(), AllocError>
    ensures { OnOk result (string_bytes text.new ≡ string_bytes text.old
        ++ flat_map component_line (components_left components.entry)) }
{
    for component in components {
        push_component(text, component)?;
    }
    Ok(())
}
