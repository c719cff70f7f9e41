//! Components (Q.773 4.2.2).

ghost use Rattle.std.specs.Prelude.{◌≡◌, ℤ, Option, IfOk, IsOk};
ghost use Rattle.tcap_parts.specs.declared.problem.Problem.{Problem};
ghost use Rattle.tcap_parts.specs.declared.component.Component.TheVariants as Component;
ghost use Rattle.tcap_parts.specs.Meaning.{parameter_of, body_of, component_of};

use crate::code::{Code, CodeView};
use crate::problem::{Problem, ProblemView};
use std::alloc::{AllocError, Global};
use tcap_ber::{Raw, RawView};

/// A component.
#[derive(Debug, Drop)]
pub enum Component {
    /// An Invoke: its invoke ID, its linked ID, its operation code and its parameter, which is one element with any
    /// tag.
    Invoke {
        id: i8,
        linked: Option<i8>,
        code: Code,
        parameter: Option<Raw>,
    },
    /// A Return Result: whether it is the last one, the invoke ID that it answers, and its body.
    ReturnResult {
        last: bool,
        id: i8,
        body: Option<ResultBody>,
    },
    /// A Return Error: the invoke ID that it answers, its error code and its parameter.
    ReturnError {
        id: i8,
        code: Code,
        parameter: Option<Raw>,
    },
    /// A Reject: the invoke ID of the rejected component, or `None` if it is unknown, and the problem.
    Reject {
        id: Option<i8>,
        problem: Problem,
    },
}

/// The body of a Return Result: the operation code and the parameter.
#[derive(Debug, Drop)]
pub struct ResultBody {
    /// The operation code.
    pub code: Code,
    /// The parameter, one element with any tag.
    pub parameter: Option<Raw>,
}

/// A component that borrows its global code and parameter.
#[derive(Clone, Copy, Debug)]
pub enum ComponentView<'a> {
    /// An Invoke: its invoke ID, its linked ID, its operation code and its parameter.
    Invoke {
        id: i8,
        linked: Option<i8>,
        code: CodeView<'a>,
        parameter: Option<RawView<'a>>,
    },
    /// A Return Result: whether it is the last one, the invoke ID that it answers, and its body.
    ReturnResult {
        last: bool,
        id: i8,
        body: Option<ResultBodyView<'a>>,
    },
    /// A Return Error: the invoke ID that it answers, its error code and its parameter.
    ReturnError {
        id: i8,
        code: CodeView<'a>,
        parameter: Option<RawView<'a>>,
    },
    /// A Reject: the invoke ID of the rejected component, or `None` if it is unknown, and the problem.
    Reject {
        id: Option<i8>,
        problem: ProblemView,
    },
}

/// The borrowed body of a Return Result: the operation code and the parameter.
#[derive(Clone, Copy, Debug)]
pub struct ResultBodyView<'a> {
    /// The operation code.
    pub code: CodeView<'a>,
    /// The parameter, one element with any tag.
    pub parameter: Option<RawView<'a>>,
}

/// Copies a parameter.
fn to_parameter(parameter: Option<RawView>, alloc: Global) -> Result<Option<Raw>, AllocError>
    ensures { IfOk result (λ made. made ≡ parameter_of parameter.entry) }
{
    match parameter {
        Some(raw) => Ok(Some(raw.to_raw(alloc)?)),
        None => Ok(None),
    }
}

/// Returns a view of a parameter.
fn view_of(parameter: &Option<Raw>) -> Option<RawView<'_>>
    ensures { parameter_of result ≡ parameter.now }
{
    match parameter {
        Some(raw) => Some(raw.view()),
        None => None,
    }
}

impl<'a> ResultBodyView<'a> {
    /// Copies the body into an owned value.
    ///
    /// # Errors
    ///
    /// `AllocError` if memory runs out.
    pub fn to_result_body(self, alloc: Global) -> Result<ResultBody, AllocError>
        ensures { IfOk result (λ made. made ≡ body_of self.entry) }
    {
        Ok(ResultBody {
            code: self.code.to_code(alloc)?,
            parameter: to_parameter(self.parameter, alloc)?,
        })
    }
}

impl ResultBody {
    /// Returns a view of the body.
    pub fn view(&self) -> ResultBodyView<'_>
        ensures { body_of result ≡ self.now }
    {
        ResultBodyView {
            code: self.code.view(),
            parameter: view_of(&self.parameter),
        }
    }
}

impl<'a> ComponentView<'a> {
    /// Copies the component into an owned value. A Reject does not allocate.
    ///
    /// # Errors
    ///
    /// `AllocError` if memory runs out.
    pub fn to_component(self, alloc: Global) -> Result<Component, AllocError>
        ensures made { IfOk result (λ made. made ≡ component_of self.entry) }
        ensures reject { (id : Option ℤ) (problem : Problem) → component_of self.entry ≡ Component.Reject id problem
            → IsOk result }
    {
        match self {
            ComponentView::Invoke {
                id,
                linked,
                code,
                parameter,
            } => Ok(Component::Invoke {
                id,
                linked,
                code: code.to_code(alloc)?,
                parameter: to_parameter(parameter, alloc)?,
            }),
            ComponentView::ReturnResult { last, id, body } => {
                let body = match body {
                    Some(body) => Some(body.to_result_body(alloc)?),
                    None => None,
                };
                Ok(Component::ReturnResult { last, id, body })
            }
            ComponentView::ReturnError {
                id,
                code,
                parameter,
            } => Ok(Component::ReturnError {
                id,
                code: code.to_code(alloc)?,
                parameter: to_parameter(parameter, alloc)?,
            }),
            ComponentView::Reject { id, problem } => Ok(Component::Reject {
                id,
                problem: problem.to_problem(),
            }),
        }
    }
}

impl Component {
    /// Returns a view of the component.
    pub fn view(&self) -> ComponentView<'_>
        ensures { component_of result ≡ self.now }
    {
        match self {
            Component::Invoke {
                id,
                linked,
                code,
                parameter,
            } => ComponentView::Invoke {
                id: *id,
                linked: *linked,
                code: code.view(),
                parameter: view_of(parameter),
            },
            Component::ReturnResult { last, id, body } => ComponentView::ReturnResult {
                last: *last,
                id: *id,
                body: match body {
                    Some(body) => Some(body.view()),
                    None => None,
                },
            },
            Component::ReturnError {
                id,
                code,
                parameter,
            } => ComponentView::ReturnError {
                id: *id,
                code: code.view(),
                parameter: view_of(parameter),
            },
            Component::Reject { id, problem } => ComponentView::Reject {
                id: *id,
                problem: problem.view(),
            },
        }
    }
}
