//! The entries of messages, or of components in them, that pass a test.

ghost use Rattle.std.specs.Prelude.{◌≡◌, ◌++◌, IfOk, OnOk, filter, map, option_map};
ghost use Rattle.std.specs.List.{find};
ghost use Rattle.tcap_parts.specs.Meaning.{code_of, component_of, problem_of};
ghost use Rattle.tcap_msg.specs.declared.kind.Kind.TheVariants as forms;
ghost use Rattle.tcap_msg.specs.Meaning.{cause_of, id_of};
ghost use Rattle.tcap_msg.specs.Parts.{components_in, dialogue_in};
ghost use Rattle.tcap_end.specs.Dialogue.{is_response};
ghost use Rattle.tcap_refute.specs.EarlierMessages.{is_a};
ghost use Rattle.tcap_model.specs.SinceMark.{is_begin_with_request};
ghost use Rattle.tcap_faults.specs.SentToId.{is_cause};
ghost use Rattle.tcap_faults.specs.CountUpdate.{invoke_has, reject_has, result_has};
ghost use Rattle.tcap_faults.specs.InvokeCounts.{is_of_class, is_sort};
ghost use Rattle.tcap_evidence.specs.PassingEntries.{passes};
ghost use Rattle.tcap_evidence.specs.OpenAtMark.{ended_to};
ghost use Rattle.tcap_evidence.specs.NumberedMessages.{entries_where, entries_with, in_order, numbered_of};
ghost use Rattle.tcap_evidence.specs.Scene.{is_same_id, since_first};

use crate::sent::Sent;
use std::alloc::{AllocError, Global};
use tcap_ber::SmallView;
use tcap_end::Table;
use tcap_faults::{Class, Sort};
use tcap_msg::{Kind as Form, Message, MessageParts, TransactionId, TransactionIdView};
use tcap_parts::{CodeView, ComponentView, DialogueView, ProblemView};

/// A test of a message.
#[derive(Clone, Copy)]
pub(crate) enum Test<'a> {
    /// Any message.
    Any,
    /// A Begin.
    Begin,
    /// A Begin with a dialogue request.
    Request,
    /// A Continue.
    Continue,
    /// A message from this originating ID, if it is given.
    From(Option<&'a TransactionId>),
    /// A Begin from this ID.
    BeginFrom(Option<&'a TransactionId>),
    /// A Begin with a dialogue request from this ID.
    RequestFrom(Option<&'a TransactionId>),
    /// A Continue from the first ID to an ID other than the second.
    Elsewhere(Option<&'a TransactionId>, Option<&'a TransactionId>),
    /// A message to this destination ID other than an Abort of the provider.
    UserMessageTo(Option<&'a TransactionId>),
    /// A Continue to this ID.
    ContinueTo(Option<&'a TransactionId>),
    /// An End, or an Abort of the user, to this ID.
    EndTo(Option<&'a TransactionId>),
    /// An Abort of the provider to this ID with this cause.
    AbortTo(Option<&'a TransactionId>, u8),
}

/// Returns whether there is an ID, and it is the other one.
pub(crate) fn is_same_id(id: Option<&TransactionId>, other: Option<TransactionIdView>) -> bool
    ensures { result ≡ is_same_id (option_map (λ t. t.now) id.entry) (id_of other.entry) }
{
    match (id, other) {
        (Some(id), Some(other)) => id.octets() == other.octets,
        _ => false,
    }
}

/// Returns whether a message is a Begin.
fn is_begin(message: &Message) -> bool
    ensures { result ≡ is_a forms.Begin message.now }
{
    matches!(message, Message::Begin { .. })
}

/// Returns whether a message is a Begin with a dialogue request.
fn is_request(message: &Message) -> bool
    ensures { result ≡ is_begin_with_request message.now }
{
    is_begin(message) && matches!(message.dialogue(), Some(DialogueView::Request { .. }))
}

/// Returns whether a message is a Continue.
fn is_continue(message: &Message) -> bool
    ensures { result ≡ is_a forms.Continue message.now }
{
    matches!(message, Message::Continue { .. })
}

/// Returns whether a message carries a dialogue response.
fn has_response(message: &Message) -> bool
    ensures { result ≡ is_response (dialogue_in message.now) }
{
    matches!(message.dialogue(), Some(DialogueView::Response { .. }))
}

/// Returns the ID to which a message is an End or an Abort. Aborts of the provider count only if `by_provider`.
pub(crate) fn ended_to(message: &Message, by_provider: bool) -> Option<TransactionIdView<'_>>
    ensures { id_of result ≡ ended_to by_provider message.now }
{
    let ends = match message.kind() {
        Form::End => true,
        Form::Abort => by_provider || message.cause().is_none(),
        _ => false,
    };
    if ends { message.dtid() } else { None }
}

/// Returns whether there is a cause, and it has this number.
fn is_cause(number: u8, cause: Option<SmallView>) -> bool
    ensures { result ≡ is_cause number (cause_of cause) }
{
    match cause {
        Some(cause) => cause.number == number,
        None => false,
    }
}

impl Test<'_> {
    /// Returns whether a message passes the test.
    pub(crate) fn passes(self, message: &Message) -> bool
        ensures { result ≡ passes self.entry message.now }
    {
        match self {
            Test::Any => true,
            Test::Begin => is_begin(message),
            Test::Request => is_request(message),
            Test::Continue => is_continue(message),
            Test::From(id) => is_same_id(id, message.otid()),
            Test::BeginFrom(id) => is_begin(message) && is_same_id(id, message.otid()),
            Test::RequestFrom(id) => is_request(message) && is_same_id(id, message.otid()),
            Test::Elsewhere(from, to) => {
                is_continue(message)
                    && is_same_id(from, message.otid())
                    && !is_same_id(to, message.dtid())
            }
            Test::UserMessageTo(id) => is_same_id(id, message.dtid()) && message.cause().is_none(),
            Test::ContinueTo(id) => is_continue(message) && is_same_id(id, message.dtid()),
            Test::EndTo(id) => is_same_id(id, ended_to(message, false)),
            Test::AbortTo(id, number) => {
                is_same_id(id, message.dtid()) && is_cause(number, message.cause())
            }
        }
    }
}

/// Returns whether an operation is of this class, or any class is meant (Q.771 3.1).
fn is_of_class(table: &Table, class: Class, code: CodeView) -> bool
    ensures { result ≡ is_of_class table.now class (code_of code.entry) }
{
    let found = table.class_of(code);
    match class {
        Class::Any => true,
        Class::One => found == Some(1),
        Class::Two => found == Some(2),
        Class::Three => found == Some(3),
    }
}

/// Returns whether an Invoke with this linked ID and operation is of a sort.
fn is_invoke_of(table: &Table, sort: Sort, linked: Option<i8>, code: CodeView) -> bool
    ensures { result ≡ invoke_has table.now linked (code_of code.entry) sort }
{
    match sort {
        Sort::Invokes(class) => is_of_class(table, class, code),
        Sort::Lasting(class) => !table.expires(code) && is_of_class(table, class, code),
        Sort::Linked => linked.is_some(),
        _ => false,
    }
}

/// Returns whether a Return Result is of a sort.
fn is_result_of(sort: Sort, last: bool) -> bool
    ensures { result ≡ result_has last sort }
{
    match sort {
        Sort::Results => true,
        Sort::LastResults => last,
        Sort::NotLasts => !last,
        _ => false,
    }
}

/// Returns whether a Reject with this problem is of a sort.
fn is_reject_of(sort: Sort, problem: ProblemView) -> bool
    ensures { result ≡ reject_has (problem_of problem) sort }
{
    match (sort, problem) {
        (Sort::GeneralRejects, ProblemView::General(_)) => true,
        (Sort::InvokeRejects, ProblemView::Invoke(_)) => true,
        (Sort::DuplicateRejects, ProblemView::Invoke(n)) => n.number == 0,
        (Sort::LinkRejects, ProblemView::Invoke(n)) => 5 <= n.number && n.number <= 7,
        (Sort::ResultRejects, ProblemView::ReturnResult(_)) => true,
        (Sort::ErrorRejects, ProblemView::ReturnError(_)) => true,
        _ => false,
    }
}

/// Returns whether a component is of this invoke ID and sort (Q.773 4.2.2).
fn is_sort(table: &Table, id: i8, sort: Sort, component: ComponentView) -> bool
    ensures { result ≡ is_sort table.now id sort (component_of component.entry) }
{
    match component {
        ComponentView::Invoke {
            id: other,
            linked,
            code,
            ..
        } => other == id && is_invoke_of(table, sort, linked, code),
        ComponentView::ReturnResult {
            last,
            id: other,
            ..
        } => other == id && is_result_of(sort, last),
        ComponentView::ReturnError { id: other, .. } => {
            other == id && matches!(sort, Sort::Errors)
        }
        ComponentView::Reject { id: other, problem } => {
            other == Some(id) && is_reject_of(sort, problem)
        }
    }
}

/// Returns the entries of the messages that pass.
pub(crate) fn entries_where(
    alloc: Global,
    sent: &[Sent],
    test: Test,
) -> Result<Vec<u64>, AllocError>
    ensures { IfOk result (λ v. v.items ≡ entries_where (passes test.entry) (numbered_of sent.now)) }
{
    let mut entries = Vec::new(alloc);
    for one in sent {
        if test.passes(one.message) {
            entries.push(one.number)?;
        }
    }
    Ok(entries)
}

/// Returns the first message that passes.
pub(crate) fn first_where<'a>(sent: &[Sent<'a>], test: Test) -> Option<Sent<'a>>
    ensures { option_map (λ s. (s.number, s.message.now)) result
        ≡ find (λ n. passes test.entry n.1) (numbered_of sent.now) }
{
    for one in sent {
        if test.passes(one.message) {
            return Some(*one);
        }
    }
    None
}

/// Appends the messages that pass.
pub(crate) fn push_where<'a>(
    kept: &mut Vec<Sent<'a>>,
    sent: &[Sent<'a>],
    test: Test,
) -> Result<(), AllocError>
    ensures { OnOk result (numbered_of kept.new.items
        ≡ numbered_of kept.old.items ++ filter (λ n. passes test.entry n.1) (numbered_of sent.now)) }
{
    for one in sent {
        if test.passes(one.message) {
            kept.push(*one)?;
        }
    }
    Ok(())
}

/// Returns the messages that pass.
pub(crate) fn sent_where<'a>(
    alloc: Global,
    sent: &[Sent<'a>],
    test: Test,
) -> Result<Vec<Sent<'a>>, AllocError>
    ensures { IfOk result (λ v. numbered_of v.items ≡ filter (λ n. passes test.entry n.1) (numbered_of sent.now)) }
{
    let mut kept = Vec::new(alloc);
    push_where(&mut kept, sent, test)?;
    Ok(kept)
}

/// Returns the messages from the first one on that carries a dialogue response.
pub(crate) fn since_response<'a>(
    alloc: Global,
    sent: &[Sent<'a>],
) -> Result<Vec<Sent<'a>>, AllocError>
    ensures { IfOk result (λ v. numbered_of v.items
        ≡ since_first (λ n. is_response (dialogue_in n.1)) (numbered_of sent.now)) }
{
    let mut kept = Vec::new(alloc);
    let mut has_come = false;
    for one in sent {
        has_come = has_come || has_response(one.message);
        if has_come {
            kept.push(*one)?;
        }
    }
    Ok(kept)
}

/// Returns the messages in the order of their entries, if all but the first are in order already.
pub(crate) fn in_order<'a>(alloc: Global, sent: &[Sent<'a>]) -> Result<Vec<Sent<'a>>, AllocError>
    ensures { IfOk result (λ v. numbered_of v.items ≡ in_order (numbered_of sent.now)) }
{
    let mut ordered = Vec::new(alloc);
    let [first, more @ ..] = sent else {
        return Ok(ordered);
    };
    let mut has_come = false;
    for one in more {
        if !has_come && first.number <= one.number {
            ordered.push(*first)?;
            has_come = true;
        }
        ordered.push(*one)?;
    }
    if !has_come {
        ordered.push(*first)?;
    }
    Ok(ordered)
}

/// Appends `number` once for each of these components that is of this invoke ID and sort.
pub(crate) fn push_sorted(
    entries: &mut Vec<u64>,
    table: &Table,
    number: u64,
    components: &[ComponentView],
    id: i8,
    sort: Sort,
) -> Result<(), AllocError>
    ensures { OnOk result (entries.new.items ≡ entries.old.items
        ++ map (λ c. number) (filter (is_sort table.now id sort) (map component_of components.now))) }
{
    for component in components {
        if is_sort(table, id, sort, *component) {
            entries.push(number)?;
        }
    }
    Ok(())
}

/// Appends the entry of a message once for each of its components that is of this invoke ID and sort.
fn push_components(
    entries: &mut Vec<u64>,
    table: &Table,
    one: Sent,
    id: i8,
    sort: Sort,
) -> Result<(), AllocError>
    ensures { OnOk result (entries.new.items ≡ entries.old.items
        ++ map (λ c. one.entry.number) (filter (is_sort table.now id sort) (components_in one.entry.message.now))) }
{
    for component in one.message.components() {
        if is_sort(table, id, sort, component) {
            entries.push(one.number)?;
        }
    }
    Ok(())
}

/// Returns the entries of the components of this invoke ID and sort; an entry occurs once for each such component.
pub(crate) fn entries_with(
    alloc: Global,
    table: &Table,
    sent: &[Sent],
    id: i8,
    sort: Sort,
) -> Result<Vec<u64>, AllocError>
    ensures { IfOk result (λ v. v.items ≡ entries_with (is_sort table.now id sort) (numbered_of sent.now)) }
{
    let mut entries = Vec::new(alloc);
    for one in sent {
        push_components(&mut entries, table, *one, id, sort)?;
    }
    Ok(entries)
}
