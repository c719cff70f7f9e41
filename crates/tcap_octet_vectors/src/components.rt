//! Components made by hand, from the words of a row.

use std::alloc::Global;
use tcap_ber::{ObjectId, Raw, Small};
use tcap_parts::{Code, Component, Portion, Problem, ResultBody};
use tcap_vectors::octets_of;

/// A way to make the portion of a message: from the components themselves, from copies, from views of them, or from
/// the views that the portion lends, by index or in order.
#[derive(Clone, Copy)]
pub(crate) enum Way {
    Made,
    Copied,
    Lent,
    LentByIndex,
    LentInOrder,
}

/// Reads a small number from its decimal digits.
pub(crate) fn small_of(text: &str) -> Option<Small> {
    Small::new(text.parse::<u8>().ok()?)
}

/// Reads an OBJECT IDENTIFIER from the octets of its content.
pub(crate) fn object_of(alloc: Global, digits: &str) -> Option<ObjectId> {
    ObjectId::new(alloc, &octets_of(alloc, digits)?).ok()?
}

/// Reads a code: decimal digits for a local one, or `g:` and hexadecimal digits for a global one.
fn code_of(alloc: Global, text: &str) -> Option<Code> {
    let code = match text.strip_prefix("g:") {
        Some(digits) => Code::Global(object_of(alloc, digits)?),
        None => Code::Local(text.parse::<i32>().ok()?),
    };
    let copy = code.copy(alloc);
    drop(code);
    copy.ok()
}

/// Reads a parameter from its octets; a dash is for none.
fn parameter_of(alloc: Global, octets: &str) -> Option<Option<Raw>> {
    if octets == "-" {
        return Some(None);
    }
    Some(Some(Raw::new(alloc, &octets_of(alloc, octets)?).ok()??))
}

/// Reads an invoke ID from its decimal digits; a dash is for none.
fn invoke_id_of(text: &str) -> Option<Option<i8>> {
    if text == "-" {
        return Some(None);
    }
    Some(Some(text.parse::<i8>().ok()?))
}

/// Returns the problem with this kind and number.
fn problem_of(kind: &str, number: &str) -> Option<Problem> {
    let number = small_of(number)?;
    match kind {
        "general" => Some(Problem::General(number)),
        "invoke" => Some(Problem::Invoke(number)),
        "result" => Some(Problem::ReturnResult(number)),
        "error" => Some(Problem::ReturnError(number)),
        _ => None,
    }
}

/// Returns the body of a Return Result, with this code and parameter.
fn body_of(alloc: Global, code: &str, parameter: &str) -> Option<ResultBody> {
    let parameter = parameter_of(alloc, parameter)?;
    let code = code_of(alloc, code)?;
    Some(ResultBody { code, parameter })
}

/// Reads a component from its words: its kind, its invoke ID, and the fields of its kind.
fn component_of(alloc: Global, words: &[&str]) -> Option<Component> {
    let [kind, id, others @ ..] = words else {
        return None;
    };
    let id = invoke_id_of(id)?;
    match (*kind, id, others) {
        ("invoke", Some(id), [linked, code, parameter]) => {
            let linked = invoke_id_of(linked)?;
            let ResultBody { code, parameter } = body_of(alloc, code, parameter)?;
            Some(Component::Invoke {
                id,
                linked,
                code,
                parameter,
            })
        }
        ("result" | "result not last", Some(id), []) => Some(Component::ReturnResult {
            last: *kind == "result",
            id,
            body: None,
        }),
        ("result" | "result not last", Some(id), [code, parameter]) => {
            Some(Component::ReturnResult {
                last: *kind == "result",
                id,
                body: Some(body_of(alloc, code, parameter)?),
            })
        }
        ("error", Some(id), [code, parameter]) => {
            let ResultBody { code, parameter } = body_of(alloc, code, parameter)?;
            Some(Component::ReturnError {
                id,
                code,
                parameter,
            })
        }
        ("reject", id, [kind, number]) => Some(Component::Reject {
            id,
            problem: problem_of(kind, number)?,
        }),
        _ => None,
    }
}

/// Returns a copy of the portion, made in this way.
fn portion_again(alloc: Global, portion: &Portion, way: Way) -> Option<Portion> {
    let lent = portion.view();
    let mut components = Vec::new(alloc);
    match way {
        Way::Made | Way::Copied => return portion.copy(alloc).ok(),
        Way::Lent => {
            for component in portion.items() {
                components
                    .push(component.view().to_component(alloc).ok()?)
                    .ok()?;
            }
        }
        Way::LentByIndex => {
            for index in 0..lent.count() {
                components
                    .push(lent.component(index).to_component(alloc).ok()?)
                    .ok()?;
            }
        }
        Way::LentInOrder => {
            for component in lent.components() {
                components.push(component.to_component(alloc).ok()?).ok()?;
            }
        }
    }
    Portion::new(components)
}

/// Reads a portion from a column of components, separated by bars; a dash is for none.
pub(crate) fn portion_of(alloc: Global, column: &str, way: Way) -> Option<Option<Portion>> {
    if column == "-" {
        return Some(None);
    }
    let mut components = Vec::new(alloc);
    for text in column.split('|') {
        let words: Vec<&str> = text.split(',').collect(alloc).ok()?;
        components.push(component_of(alloc, &words)?).ok()?;
    }
    let portion = Portion::new(components)?;
    if matches!(way, Way::Made) {
        return Some(Some(portion));
    }
    let again = portion_again(alloc, &portion, way);
    drop(portion);
    Some(Some(again?))
}
