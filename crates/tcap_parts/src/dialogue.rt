//! Dialogue portions (Q.773 4.2.3).

ghost use Rattle.std.specs.Prelude.{◌≡◌, IfOk};
ghost use Rattle.tcap_parts.specs.DialogueMeaning.{info_meaning, source_of, dialogue_of};

use crate::info::{Info, InfoView};
use std::alloc::{AllocError, Global};
use tcap_ber::{ObjectId, ObjectIdView, Small, SmallView};

/// The abstract syntax of a dialogue portion.
#[derive(Clone, Copy, Debug, PartialEq, Eq)]
pub enum Syntax {
    /// dialogue-as-id, for structured dialogues.
    Structured,
    /// unidialogue-as-id, for Unidirectional messages.
    Unstructured,
}

/// A PDU of the dialogue portion. The protocol version is not kept.
#[derive(Debug, Drop)]
pub enum Dialogue {
    /// A dialogue request, AARQ: the application context name and the user information.
    Request {
        context: ObjectId,
        info: Option<Info>,
    },
    /// A dialogue response, AARE: the application context name, the result, the diagnostic and the user information.
    Response {
        context: ObjectId,
        result: Small,
        diagnostic: Source,
        info: Option<Info>,
    },
    /// A dialogue abort, ABRT: the abort source and the user information.
    Abort {
        source: Small,
        info: Option<Info>,
    },
    /// The PDU of a Unidirectional, AUDT: the application context name and the user information.
    Uni {
        context: ObjectId,
        info: Option<Info>,
    },
}

/// The diagnostic of a dialogue response, with its source (Q.773 4.2.3).
#[derive(Clone, Copy, Debug, PartialEq, Eq)]
pub enum Source {
    /// A diagnostic from the dialogue service user.
    User(Small),
    /// A diagnostic from the dialogue service provider.
    Provider(Small),
}

/// A diagnostic as views of octets hold it.
#[derive(Clone, Copy, Debug)]
pub enum SourceView {
    /// A diagnostic from the dialogue service user.
    User(SmallView),
    /// A diagnostic from the dialogue service provider.
    Provider(SmallView),
}

/// A PDU of the dialogue portion that borrows its application context name and user information.
#[derive(Clone, Copy, Debug)]
pub enum DialogueView<'a> {
    /// A dialogue request, AARQ: the application context name and the user information.
    Request {
        context: ObjectIdView<'a>,
        info: Option<InfoView<'a>>,
    },
    /// A dialogue response, AARE: the application context name, the result, the diagnostic and the user information.
    Response {
        context: ObjectIdView<'a>,
        result: SmallView,
        diagnostic: SourceView,
        info: Option<InfoView<'a>>,
    },
    /// A dialogue abort, ABRT: the abort source and the user information.
    Abort {
        source: SmallView,
        info: Option<InfoView<'a>>,
    },
    /// The PDU of a Unidirectional, AUDT: the application context name and the user information.
    Uni {
        context: ObjectIdView<'a>,
        info: Option<InfoView<'a>>,
    },
}

/// Copies user information.
fn to_info(info: Option<InfoView>, alloc: Global) -> Result<Option<Info>, AllocError>
    ensures { IfOk result (λ made. made ≡ info_meaning info.entry) }
{
    match info {
        Some(info) => Ok(Some(info.to_info(alloc)?)),
        None => Ok(None),
    }
}

/// Returns a view of user information.
fn view_of(info: &Option<Info>) -> Option<InfoView<'_>>
    ensures { info_meaning result ≡ info.now }
{
    match info {
        Some(info) => Some(info.view()),
        None => None,
    }
}

impl SourceView {
    /// Returns the diagnostic as an owned value.
    pub fn to_source(self) -> Source
        ensures { result ≡ source_of self }
    {
        match self {
            SourceView::User(number) => Source::User(number.to_small()),
            SourceView::Provider(number) => Source::Provider(number.to_small()),
        }
    }
}

impl Source {
    /// Returns a view of the diagnostic.
    pub fn view(&self) -> SourceView
        ensures { source_of result ≡ self.now }
    {
        match self {
            Source::User(number) => SourceView::User(number.view()),
            Source::Provider(number) => SourceView::Provider(number.view()),
        }
    }
}

impl<'a> DialogueView<'a> {
    /// Copies the PDU into an owned value.
    ///
    /// # Errors
    ///
    /// `AllocError` if memory runs out.
    pub fn to_dialogue(self, alloc: Global) -> Result<Dialogue, AllocError>
        ensures { IfOk result (λ made. made ≡ dialogue_of self.entry) }
    {
        match self {
            DialogueView::Request { context, info } => Ok(Dialogue::Request {
                context: context.to_object_id(alloc)?,
                info: to_info(info, alloc)?,
            }),
            DialogueView::Response {
                context,
                result,
                diagnostic,
                info,
            } => Ok(Dialogue::Response {
                context: context.to_object_id(alloc)?,
                result: result.to_small(),
                diagnostic: diagnostic.to_source(),
                info: to_info(info, alloc)?,
            }),
            DialogueView::Abort { source, info } => Ok(Dialogue::Abort {
                source: source.to_small(),
                info: to_info(info, alloc)?,
            }),
            DialogueView::Uni { context, info } => Ok(Dialogue::Uni {
                context: context.to_object_id(alloc)?,
                info: to_info(info, alloc)?,
            }),
        }
    }
}

impl Dialogue {
    /// Returns a view of the PDU.
    pub fn view(&self) -> DialogueView<'_>
        ensures { dialogue_of result ≡ self.now }
    {
        match self {
            Dialogue::Request { context, info } => DialogueView::Request {
                context: context.view(),
                info: view_of(info),
            },
            Dialogue::Response {
                context,
                result,
                diagnostic,
                info,
            } => DialogueView::Response {
                context: context.view(),
                result: result.view(),
                diagnostic: diagnostic.view(),
                info: view_of(info),
            },
            Dialogue::Abort { source, info } => DialogueView::Abort {
                source: source.view(),
                info: view_of(info),
            },
            Dialogue::Uni { context, info } => DialogueView::Uni {
                context: context.view(),
                info: view_of(info),
            },
        }
    }
}
