//! The tests of components for F5 and F6 (Q.774 3.2, component sub-layer; Q.771, operation classes).

ghost use Rattle.std.specs.Prelude.{◌≡◌, option_copied, option_map};
ghost use Rattle.tcap_parts.specs.Meaning.{body_of, code_of, component_of, problem_of};
ghost use Rattle.tcap_end.specs.Class.{of_class, reports_neither};
ghost use Rattle.tcap_end.specs.Table.{class_of};
ghost use Rattle.tcap_refute.specs.Facts.{Answered, Fails, Invoked, OfId, Succeeds};
ghost use Rattle.tcap_refute.specs.KeptFacts.{id_in, fact_by_from};
ghost use Rattle.tcap_refute.specs.KindsByFacts.{answer_test, answers_none, component_by, first_passing, has_come, is_not_allowed, operation_test, passes, rejects_none};

use crate::kind::Kind;
use crate::sent_from_id::FromId;
use crate::sent_with_invoke_id::ById;
use tcap_end::{Table, reports_neither};
use tcap_msg::{Kind as Form, MessageParts};
use tcap_parts::{CodeView, ComponentView, ProblemView, ResultBodyView};

/// A test of a component.
#[derive(Clone, Copy)]
pub(crate) enum Test {
    /// The component is an answer.
    Answer,
    /// The component is an answer or a Reject.
    AnswerOrReject,
    /// The component is an answer or a Reject for nothing that the peer sent. The value is whether one end alone is
    /// judged.
    AnswersNothing(bool),
    /// The component is an Invoke of an operation that the table lacks.
    UnknownOperation,
    /// The component is an Invoke of an operation that is not of class 4.
    NotOfClass4,
    /// The component is an Invoke of an operation that the table lacks, or an answer that no Invoke of the peer
    /// allows.
    Wrong,
}

/// Returns whether the table has the operation, in class 4.
fn is_of_class_4(table: &Table, code: CodeView) -> bool
    ensures { result ≡ of_class reports_neither (class_of table.now (code_of code.entry)) }
{
    match table.class_of(code) {
        Some(class) => reports_neither(class),
        None => false,
    }
}

/// Returns what was sent with this invoke ID, if anything was.
fn sent_with_id(from: Option<&FromId>, id: i8) -> Option<&ById>
    ensures { option_copied result ≡ id_in (option_copied from.entry) id }
{
    from?.ids.get(&id)
}

/// Returns whether an Invoke with this invoke ID was sent.
fn is_invoked(from: Option<&FromId>, id: i8) -> bool
    ensures { result ≡ fact_by_from (option_copied from.entry) (OfId id Invoked) }
{
    match sent_with_id(from, id) {
        Some(kept) => kept.invoked,
        None => false,
    }
}

/// Returns whether a Return Result (if `is_result`) or else a Return Error with this invoke ID was sent.
fn is_answered(from: Option<&FromId>, is_result: bool, id: i8) -> bool
    ensures { result ≡ fact_by_from (option_copied from.entry) (OfId id (Answered is_result)) }
{
    match sent_with_id(from, id) {
        Some(kept) if is_result => kept.by_result,
        Some(kept) => kept.by_error,
        None => false,
    }
}

/// Returns whether an Invoke with this invoke ID was sent whose class reports success. If the body names an
/// operation, the Invoke must be of that operation.
fn succeeds(from: Option<&FromId>, id: i8, body: Option<ResultBodyView>) -> bool
    ensures { result ≡ fact_by_from (option_copied from.entry)
        (OfId id (Succeeds (option_map (λ b. b.code) (option_map body_of body.entry)))) }
{
    match (sent_with_id(from, id), body) {
        (Some(kept), Some(body)) => kept.codes.has(body.code),
        (Some(kept), None) => kept.succeeds,
        (None, _) => false,
    }
}

/// Returns whether an Invoke with this invoke ID was sent whose class reports failure.
fn fails(from: Option<&FromId>, id: i8) -> bool
    ensures { result ≡ fact_by_from (option_copied from.entry) (OfId id Fails) }
{
    match sent_with_id(from, id) {
        Some(kept) => kept.fails,
        None => false,
    }
}

/// Returns whether an Invoke or an answer with this invoke ID was sent.
fn has_come(from: Option<&FromId>, id: i8) -> bool
    ensures { result ≡ has_come (fact_by_from (option_copied from.entry)) id }
{
    match sent_with_id(from, id) {
        Some(kept) => kept.invoked || kept.by_result || kept.by_error,
        None => false,
    }
}

/// Returns whether a Reject is for nothing that was sent.
///
/// If one end alone is judged, mistypedComponent (1) and badlyStructuredComponent (2) may be for what was sent with
/// the same invoke ID.
fn rejects_none(of_one: bool, from: Option<&FromId>, id: Option<i8>, problem: ProblemView) -> bool
    ensures { result ≡ rejects_none of_one (fact_by_from (option_copied from.entry)) id (problem_of problem) }
{
    match (id, problem) {
        (None, _) => true,
        (Some(id), ProblemView::General(n)) => {
            !(of_one && ((n.number == 1 || n.number == 2) && has_come(from, id)))
        }
        (Some(id), ProblemView::Invoke(_)) => !is_invoked(from, id),
        (Some(id), ProblemView::ReturnResult(_)) => !is_answered(from, true, id),
        (Some(id), ProblemView::ReturnError(_)) => !is_answered(from, false, id),
    }
}

/// Returns whether a component is an answer or a Reject for nothing that was sent.
fn answers_none(of_one: bool, from: Option<&FromId>, component: ComponentView) -> bool
    ensures { result ≡ answers_none of_one (fact_by_from (option_copied from.entry)) (component_of component.entry) }
{
    match component {
        ComponentView::Invoke { .. } => false,
        ComponentView::ReturnResult { id, .. } | ComponentView::ReturnError { id, .. } => {
            !is_invoked(from, id)
        }
        ComponentView::Reject { id, problem } => rejects_none(of_one, from, id, problem),
    }
}

/// Returns whether a component is an answer that no Invoke allows.
fn is_not_allowed(from: Option<&FromId>, component: ComponentView) -> bool
    ensures { result ≡ is_not_allowed (fact_by_from (option_copied from.entry)) (component_of component.entry) }
{
    match component {
        ComponentView::ReturnResult { id, body, .. } => !succeeds(from, id, body),
        ComponentView::ReturnError { id, .. } => !fails(from, id),
        _ => false,
    }
}

/// Returns whether a component passes a test.
fn passes(table: &Table, from: Option<&FromId>, test: Test, component: ComponentView) -> bool
    ensures { result ≡ passes table.now (fact_by_from (option_copied from.entry)) test (component_of component.entry) }
{
    match (test, component) {
        (Test::Answer | Test::AnswerOrReject, ComponentView::Invoke { .. }) => false,
        (Test::Answer, ComponentView::Reject { .. }) => false,
        (Test::Answer | Test::AnswerOrReject, _) => true,
        (Test::AnswersNothing(of_one), component) => answers_none(of_one, from, component),
        (Test::UnknownOperation | Test::Wrong, ComponentView::Invoke { code, .. }) => {
            table.class_of(code).is_none()
        }
        (Test::NotOfClass4, ComponentView::Invoke { code, .. }) => !is_of_class_4(table, code),
        (Test::UnknownOperation | Test::NotOfClass4, _) => false,
        (Test::Wrong, component) => is_not_allowed(from, component),
    }
}

/// Returns the test for F5 in a message of this form. `of_one` is whether one end alone is judged.
fn answer_test(of_one: bool, form: Form) -> Test
    ensures { result ≡ answer_test of_one form }
{
    match form {
        Form::Unidirectional => Test::Answer,
        Form::Begin => Test::AnswerOrReject,
        _ => Test::AnswersNothing(of_one),
    }
}

/// Returns the test for F6 in a message of this form.
fn operation_test(form: Form) -> Test
    ensures { result ≡ operation_test form }
{
    match form {
        Form::Unidirectional => Test::NotOfClass4,
        Form::Begin => Test::UnknownOperation,
        _ => Test::Wrong,
    }
}

/// Returns the number, from 0, of the first component that passes a test.
fn first_passing<M: MessageParts>(
    table: &Table,
    from: Option<&FromId>,
    test: Test,
    message: &M,
) -> Option<u64>
    ensures { result ≡ first_passing table.now (fact_by_from (option_copied from.entry)) test (M.meaning message.now) }
{
    // Bounds the number of components, so that their numbers fit.
    let _count = message.count();
    let mut number = 0;
    for component in message.components() {
        if passes(table, from, test, component) {
            return Some(number);
        }
        number += 1;
    }
    None
}

/// Returns the number, from 0, of the first component with this kind, F5 or F6.
///
/// `from` has what the peer sent from the destination ID, and `of_one` is whether one end alone is judged.
pub(crate) fn component_of<M: MessageParts>(
    of_one: bool,
    table: &Table,
    from: Option<&FromId>,
    message: &M,
    kind: Kind,
) -> Option<u64>
    ensures { result ≡ component_by of_one table.now (fact_by_from (option_copied from.entry))
        (M.meaning message.now) kind }
{
    match kind {
        Kind::AnswersNothing => {
            first_passing(table, from, answer_test(of_one, message.kind()), message)
        }
        Kind::WrongOperation => first_passing(table, from, operation_test(message.kind()), message),
        _ => None,
    }
}
