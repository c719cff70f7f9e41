//! The facts that show each kind of fault (Q.771, Q.773, Q.774).

ghost use Rattle.std.specs.Prelude.{◌≡◌, option_map};
ghost use Rattle.tcap_parts.specs.Meaning.{component_of};
ghost use Rattle.tcap_msg.specs.Parts.{dtid_in};
ghost use Rattle.tcap_evidence.specs.Evidence.{allowed_by, answered_by, dialogue_of, problem_of_invoke, rejected_by, shows, facts_without_id, facts_with_id};

use crate::shown_facts::ShownFact;
use tcap_faults::{Class, HalfOrigin, Sort};
use tcap_msg::{Message, MessageParts};
use tcap_parts::{ComponentView, ProblemView};
use tcap_refute::Kind;

/// F5: returns the components that could be answered or rejected. There is no list for a Reject without ID or with a
/// general problem, which may reject something that could not be read.
fn answered_by(component: Option<ComponentView>) -> &'static [ShownFact]
    ensures { result.now ≡ answered_by (option_map component_of component.entry) }
{
    match component {
        Some(ComponentView::ReturnResult { .. } | ComponentView::ReturnError { .. }) => {
            &[ShownFact::PeerComponents(Sort::Invokes(Class::Any))]
        }
        Some(
            ComponentView::Reject {
                id: Some(_),
                problem,
            },
        ) => match problem {
            ProblemView::General(_) => &[],
            ProblemView::Invoke(_) => &[ShownFact::PeerComponents(Sort::Invokes(Class::Any))],
            ProblemView::ReturnResult(_) => &[ShownFact::PeerComponents(Sort::Results)],
            ProblemView::ReturnError(_) => &[ShownFact::PeerComponents(Sort::Errors)],
        },
        _ => &[],
    }
}

/// F6: returns the Invokes that would have to allow an answer.
fn allowed_by(component: Option<ComponentView>) -> &'static [ShownFact]
    ensures { result.now ≡ allowed_by (option_map component_of component.entry) }
{
    match component {
        Some(ComponentView::ReturnResult { .. } | ComponentView::ReturnError { .. }) => &[
            ShownFact::PeerComponents(Sort::Invokes(Class::Any)),
            ShownFact::PeerComponents(Sort::Invokes(Class::One)),
            ShownFact::PeerComponents(Sort::Invokes(Class::Two)),
            ShownFact::PeerComponents(Sort::Invokes(Class::Three)),
        ],
        _ => &[],
    }
}

/// Returns the evidence for F9, a wrong dialogue portion: the Begins and Continues from which the state of the half's
/// dialogue follows.
fn dialogue_of(origin: HalfOrigin) -> &'static [ShownFact]
    ensures { result.now ≡ dialogue_of origin }
{
    match origin {
        HalfOrigin::Begun => &[ShownFact::Begun, ShownFact::OwnRequests],
        _ => &[
            ShownFact::PeerBegins,
            ShownFact::PeerRequests,
            ShownFact::OutgoingContinues,
        ],
    }
}

/// F13 of a Reject with an invoke problem: returns the evidence for duplicateInvokeID (0), or for a link problem (5 to
/// 7).
fn problem_of_invoke(number: u8) -> &'static [ShownFact]
    ensures { result.now ≡ problem_of_invoke number }
{
    match number {
        0 => &[
            ShownFact::IncomingComponents(Sort::Invokes(Class::Any)),
            ShownFact::Before(Sort::DuplicateRejects),
        ],
        5..=7 => &[
            ShownFact::IncomingComponents(Sort::Linked),
            ShownFact::Before(Sort::LinkRejects),
        ],
        _ => &[],
    }
}

/// F13: returns the components that could be rejected, and those by which the problem is judged.
fn rejected_by(component: Option<ComponentView>) -> &'static [ShownFact]
    ensures { result.now ≡ rejected_by (option_map component_of component.entry) }
{
    let Some(ComponentView::Reject { problem, .. }) = component else {
        return &[];
    };
    match problem {
        ProblemView::General(_) => &[],
        ProblemView::Invoke(problem) => problem_of_invoke(problem.number),
        ProblemView::ReturnResult(_) => &[
            ShownFact::IncomingComponents(Sort::Results),
            ShownFact::IncomingComponents(Sort::Errors),
            ShownFact::Before(Sort::ResultRejects),
            ShownFact::Invoked(Sort::Invokes(Class::Any)),
            ShownFact::Invoked(Sort::Invokes(Class::One)),
            ShownFact::Invoked(Sort::Invokes(Class::Two)),
            ShownFact::Invoked(Sort::Invokes(Class::Three)),
        ],
        ProblemView::ReturnError(_) => &[
            ShownFact::IncomingComponents(Sort::Errors),
            ShownFact::IncomingComponents(Sort::Results),
            ShownFact::Before(Sort::ErrorRejects),
            ShownFact::Invoked(Sort::Invokes(Class::Any)),
            ShownFact::Invoked(Sort::Invokes(Class::One)),
            ShownFact::Invoked(Sort::Invokes(Class::Two)),
            ShownFact::Invoked(Sort::Invokes(Class::Three)),
        ],
    }
}

/// F8: the Begin and the Continues of the half.
const HALF: [ShownFact; 6] = [
    ShownFact::PeerBegins,
    ShownFact::Refused,
    ShownFact::PeerContinues,
    ShownFact::Begun,
    ShownFact::OutgoingContinues,
    ShownFact::Unknown,
];

/// F10: the own invocations of the ID, and the components that may have ended them.
const INVOCATIONS: [ShownFact; 11] = [
    ShownFact::Whole(Sort::Invokes(Class::Any)),
    ShownFact::Invoked(Sort::Lasting(Class::Any)),
    ShownFact::Invoked(Sort::Lasting(Class::One)),
    ShownFact::Invoked(Sort::Lasting(Class::Three)),
    ShownFact::IncomingComponents(Sort::LastResults),
    ShownFact::IncomingComponents(Sort::NotLasts),
    ShownFact::IncomingComponents(Sort::Errors),
    ShownFact::IncomingComponents(Sort::InvokeRejects),
    ShownFact::IncomingComponents(Sort::GeneralRejects),
    ShownFact::Whole(Sort::ResultRejects),
    ShownFact::Whole(Sort::GeneralRejects),
];

/// F11: the Invokes of the linked ID, and the components that ended them.
const LINKED: [ShownFact; 4] = [
    ShownFact::IncomingComponents(Sort::Invokes(Class::Any)),
    ShownFact::Before(Sort::LastResults),
    ShownFact::Before(Sort::Errors),
    ShownFact::Before(Sort::InvokeRejects),
];

/// F12: the Invokes of the ID, by class, and the components that answered them.
const ANSWERED: [ShownFact; 7] = [
    ShownFact::IncomingComponents(Sort::Invokes(Class::Any)),
    ShownFact::IncomingComponents(Sort::Invokes(Class::One)),
    ShownFact::IncomingComponents(Sort::Invokes(Class::Two)),
    ShownFact::IncomingComponents(Sort::Invokes(Class::Three)),
    ShownFact::Before(Sort::LastResults),
    ShownFact::Before(Sort::Errors),
    ShownFact::Before(Sort::InvokeRejects),
];

/// F14: the half to which the reply goes.
const REPLIED: [ShownFact; 5] = [
    ShownFact::PeerBegins,
    ShownFact::PeerContinues,
    ShownFact::Refused,
    ShownFact::Unknown,
    ShownFact::OutgoingComponents,
];

/// Returns the facts that show a kind of a message with a destination ID, by how its half began and the component at
/// fault.
fn facts_with_id(
    origin: HalfOrigin,
    component: Option<ComponentView>,
    kind: Kind,
) -> &'static [ShownFact]
    ensures { result.now ≡ facts_with_id origin (option_map component_of component.entry) kind }
{
    match kind {
        Kind::BadMessage | Kind::OpenAtMark => &[],
        Kind::UnknownTransaction => &[ShownFact::PeerBegins, ShownFact::PeerContinues],
        Kind::ReusedId => &[ShownFact::WentElsewhere],
        Kind::AfterEnd => &[ShownFact::Ended],
        Kind::AnswersNothing => answered_by(component),
        Kind::WrongOperation => allowed_by(component),
        Kind::MisplacedDialogue => &[ShownFact::PeerBegins, ShownFact::PeerRequests],
        Kind::WrongHalf => &HALF,
        Kind::WrongDialogue => dialogue_of(origin),
        Kind::InvokeIdBusy => &INVOCATIONS,
        Kind::BadLink => &LINKED,
        Kind::AnsweredAlready => &ANSWERED,
        Kind::RejectNotAllowed => rejected_by(component),
        Kind::WrongReply => &REPLIED,
    }
}

/// Returns the facts that show a kind of a message without a destination ID.
fn facts_without_id(kind: Kind) -> &'static [ShownFact]
    ensures { result.now ≡ facts_without_id kind }
{
    match kind {
        Kind::ReusedId => &[ShownFact::Used],
        Kind::InvokeIdBusy => &[ShownFact::Before(Sort::Invokes(Class::Any))],
        _ => &[],
    }
}

/// Returns the facts that show a kind of a message.
pub(crate) fn facts_of(
    message: &Message,
    origin: HalfOrigin,
    component: Option<ComponentView>,
    kind: Kind,
) -> &'static [ShownFact]
    ensures { result.now ≡ shows (dtid_in message.now) origin (option_map component_of component.entry) kind }
{
    match message.dtid() {
        Some(_) => facts_with_id(origin, component, kind),
        None => facts_without_id(kind),
    }
}
