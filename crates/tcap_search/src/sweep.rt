//! What a sweep over gaps and entries keeps: the last Invokes so far, and the last answers delivered.

ghost use Rattle.std.specs.Prelude.{◌≡◌, ◌==◌, ◌&&◌, ℕ, ℤ, Bool, Some, None, nat_le, cond, option_map, OnOk};
ghost use Rattle.std.specs.Option.{option_or};
ghost use Rattle.std.specs.List.{list_any};
ghost use Rattle.tcap_record.specs.declared.entry.End.{End as Side};
ghost use Rattle.tcap_msg.specs.Parts.{items_of};
ghost use Rattle.tcap_model.specs.World.{is_side};
ghost use Rattle.tcap_model.specs.Run.{only_if};
ghost use Rattle.tcap_search.specs.SegmentEntries.{message_of};
ghost use Rattle.tcap_search.specs.ProposedCertificate.{is_answer_of, is_invoke_of, last_invoke, may_invoke, number_limit, unrecognized};
ghost use Rattle.tcap_search.specs.InvocationMap.{kept_at};
ghost use Rattle.tcap_search.specs.Fates.{is_of};
ghost use Rattle.tcap_search.specs.Sweep.{answer_at, answer_kept, answer_rejected, answers, answers_at, components_of, invoked_by};

use crate::by_invocation::ByInvocation;
use std::alloc::{AllocError, Global};
use tcap_msg::Message;
use tcap_parts::{Component, Portion, Problem};
use tcap_record::{Body, End, Entry};

/// The greatest place of a component in a certificate.
const PLACE_LIMIT: usize = 100_000;

/// A delivered answer: its gap, and the last Invoke of its ID before, by the number of its entry and its place among
/// the components.
#[derive(Clone, Copy)]
pub(crate) struct Answer {
    pub(crate) gap: u32,
    pub(crate) invoked: Option<(u32, u32)>,
}

/// For each transaction, end and own invoke ID: the last Invoke so far, and the last Return Result and Return Error
/// delivered to it.
#[derive(Drop)]
pub(crate) struct Sweep {
    pub(crate) invokes: ByInvocation<(u32, u32)>,
    pub(crate) results: ByInvocation<Answer>,
    pub(crate) errors: ByInvocation<Answer>,
}

/// Returns the components of a portion, or none if there is no portion.
fn portion_items(portion: &Option<Portion>) -> &[Component]
    ensures { result.now ≡ items_of portion.now }
{
    match portion {
        Some(portion) => portion.items(),
        None => &[],
    }
}

/// Returns the components of an entry, or none if it is no message.
pub(crate) fn components_of(entry: &Entry) -> &[Component]
    ensures { result.now ≡ components_of entry.now }
{
    let Body::Good(message) = &entry.body else {
        return &[];
    };
    match message {
        Message::Unidirectional { components, .. } => components.items(),
        Message::Begin { components, .. }
        | Message::Continue { components, .. }
        | Message::End { components, .. } => portion_items(components),
        Message::Abort { .. } => &[],
    }
}

/// Returns whether an entry is a Begin or a Continue, whose Invokes a certificate may name.
fn may_invoke(entry: &Entry) -> bool
    ensures { result ≡ may_invoke (message_of entry.now) }
{
    matches!(
        &entry.body,
        Body::Good(Message::Begin { .. } | Message::Continue { .. })
    )
}

/// Returns the invoke ID that a Reject with problem unrecognizedInvokeID names, and whether it rejects a Return Result
/// (Q.773 4.2.2).
pub(crate) fn unrecognized(component: &Component) -> Option<(bool, i8)>
    ensures { result ≡ unrecognized component.now }
{
    let Component::Reject {
        id: Some(id),
        problem,
    } = component
    else {
        return None;
    };
    match problem {
        Problem::ReturnResult(number) if number.number() == 0 => Some((true, *id)),
        Problem::ReturnError(number) if number.number() == 0 => Some((false, *id)),
        _ => None,
    }
}

impl Sweep {
    /// Creates an empty sweep.
    pub(crate) fn new(alloc: Global) -> Sweep
        ensures invokes { (t : ℕ) (s : Side) (id : ℤ) → kept_at t s id result.invokes ≡ None }
        ensures answers { (is_result : Bool) (t : ℕ) (s : Side) (id : ℤ) → answer_kept is_result t s id result ≡ None }
    {
        Sweep {
            invokes: ByInvocation::new(alloc),
            results: ByInvocation::new(alloc),
            errors: ByInvocation::new(alloc),
        }
    }

    /// Notes a component delivered to an end in a gap, if it is an answer. Fails if memory runs out.
    fn note_answer(
        &mut self,
        gap: u32,
        transaction: u32,
        receiver: End,
        component: &Component,
    ) -> Result<(), AllocError>
        ensures noted { OnOk result ((is_result : Bool) (t : ℕ) (s : Side) (id : ℤ)
            → answer_kept is_result t s id self.new
            ≡ cond (t == transaction && is_side s receiver && is_answer_of is_result id component.now)
            (Some (answer_at gap (kept_at t s id self.old.invokes))) (answer_kept is_result t s id self.old)) }
        ensures invokes { self.new.invokes ≡ self.old.invokes }
    {
        match component {
            Component::ReturnResult { id, .. } => {
                let invoked = self.invokes.get(transaction, receiver, *id);
                self.results
                    .put(transaction, receiver, *id, Answer { gap, invoked })
            }
            Component::ReturnError { id, .. } => {
                let invoked = self.invokes.get(transaction, receiver, *id);
                self.errors
                    .put(transaction, receiver, *id, Answer { gap, invoked })
            }
            _ => Ok(()),
        }
    }

    /// Notes the answers among components delivered to an end in a gap. Fails if memory runs out.
    fn note_answers(
        &mut self,
        gap: u32,
        transaction: u32,
        receiver: End,
        components: &[Component],
    ) -> Result<(), AllocError>
        ensures noted { OnOk result ((is_result : Bool) (t : ℕ) (s : Side) (id : ℤ)
            → answer_kept is_result t s id self.new
            ≡ cond (t == transaction && is_side s receiver && list_any (is_answer_of is_result id) components.now)
            (Some (answer_at gap (kept_at t s id self.old.invokes))) (answer_kept is_result t s id self.old)) }
        ensures invokes { self.new.invokes ≡ self.old.invokes }
    {
        for component in components {
            self.note_answer(gap, transaction, receiver, component)?;
        }
        Ok(())
    }

    /// Notes the answers of an entry delivered in a gap. Fails if memory runs out.
    fn deliver(
        &mut self,
        gap: u32,
        entry: &Entry,
        transaction: Option<u32>,
    ) -> Result<(), AllocError>
        ensures noted { OnOk result ((is_result : Bool) (t : ℕ) (s : Side) (id : ℤ)
            → answer_kept is_result t s id self.new
            ≡ cond (answers is_result t s id entry.now transaction)
            (Some (answer_at gap (kept_at t s id self.old.invokes))) (answer_kept is_result t s id self.old)) }
        ensures invokes { self.new.invokes ≡ self.old.invokes }
    {
        match (entry.side, transaction) {
            (Some(sender), Some(transaction)) => {
                self.note_answers(gap, transaction, sender.other(), components_of(entry))
            }
            _ => Ok(()),
        }
    }

    /// Notes the answers of the entry with this number, which is delivered in a gap. Fails if memory runs out.
    fn deliver_number(
        &mut self,
        gap: u32,
        number: u32,
        entries: &[Entry],
        transactions: &[Option<u32>],
    ) -> Result<(), AllocError>
        ensures noted { OnOk result ((is_result : Bool) (t : ℕ) (s : Side) (id : ℤ)
            → answer_kept is_result t s id self.new
            ≡ cond (answers_at entries.now transactions.now is_result t s id number)
            (Some (answer_at gap (kept_at t s id self.old.invokes))) (answer_kept is_result t s id self.old)) }
        ensures invokes { self.new.invokes ≡ self.old.invokes }
    {
        let number = number as usize;
        match (entries.get(number), transactions.get(number)) {
            (Some(entry), Some(transaction)) => self.deliver(gap, entry, *transaction),
            _ => Ok(()),
        }
    }

    /// Notes the answers of the entries with these numbers, which are delivered in a gap. Fails if memory runs out.
    pub(crate) fn deliver_all(
        &mut self,
        gap: u32,
        due: &[u32],
        entries: &[Entry],
        transactions: &[Option<u32>],
    ) -> Result<(), AllocError>
        ensures noted { OnOk result ((is_result : Bool) (t : ℕ) (s : Side) (id : ℤ)
            → answer_kept is_result t s id self.new
            ≡ cond (list_any (answers_at entries.now transactions.now is_result t s id) due.now)
            (Some (answer_at gap (kept_at t s id self.old.invokes))) (answer_kept is_result t s id self.old)) }
        ensures invokes { self.new.invokes ≡ self.old.invokes }
    {
        for number in due {
            self.deliver_number(gap, *number, entries, transactions)?;
        }
        Ok(())
    }

    /// Notes a component of an entry, if it is an Invoke and a certificate can name its place. Fails if memory runs
    /// out.
    fn note_invoke(
        &mut self,
        number: u32,
        transaction: u32,
        side: End,
        place: usize,
        component: &Component,
    ) -> Result<(), AllocError>
        ensures noted { OnOk result ((t : ℕ) (s : Side) (id : ℤ) → kept_at t s id self.new.invokes
            ≡ cond (t == transaction && is_side s side && (is_invoke_of id component.now && nat_le place number_limit))
            (Some (number, place)) (kept_at t s id self.old.invokes)) }
        ensures results { self.new.results ≡ self.old.results }
        ensures errors { self.new.errors ≡ self.old.errors }
    {
        match component {
            Component::Invoke { id, .. } if place <= PLACE_LIMIT => {
                self.invokes
                    .put(transaction, side, *id, (number, place as u32))
            }
            _ => Ok(()),
        }
    }

    /// Notes the Invokes among the components of an entry. Fails if memory runs out.
    fn note_invokes(
        &mut self,
        number: u32,
        transaction: u32,
        side: End,
        components: &[Component],
    ) -> Result<(), AllocError>
        ensures noted { OnOk result ((t : ℕ) (s : Side) (id : ℤ) → kept_at t s id self.new.invokes
            ≡ option_or (only_if (t == transaction && is_side s side)
            (option_map (λ place. (number, place)) (last_invoke id 0 components.now)))
            (kept_at t s id self.old.invokes)) }
        ensures results { self.new.results ≡ self.old.results }
        ensures errors { self.new.errors ≡ self.old.errors }
    {
        for (place, component) in components.iter().enumerate() {
            self.note_invoke(number, transaction, side, place, component)?;
        }
        Ok(())
    }

    /// Notes the Invokes of an entry, if it is a Begin or a Continue. Fails if memory runs out.
    pub(crate) fn note_entry(
        &mut self,
        number: u32,
        entry: &Entry,
        transaction: Option<u32>,
    ) -> Result<(), AllocError>
        ensures noted { OnOk result ((t : ℕ) (s : Side) (id : ℤ) → kept_at t s id self.new.invokes
            ≡ option_or (only_if (is_of s t entry.now transaction) (invoked_by number entry.now id))
            (kept_at t s id self.old.invokes)) }
        ensures results { self.new.results ≡ self.old.results }
        ensures errors { self.new.errors ≡ self.old.errors }
    {
        if !may_invoke(entry) {
            return Ok(());
        }
        let (Some(side), Some(transaction)) = (entry.side, transaction) else {
            return Ok(());
        };
        self.note_invokes(number, transaction, side, components_of(entry))?;
        Ok(())
    }

    /// Returns the last answer delivered for an invoke ID of an end, a Return Result or a Return Error.
    fn answer(&self, is_result: bool, transaction: u32, side: End, id: i8) -> Option<Answer>
        ensures { result ≡ answer_kept is_result transaction side id self.now }
    {
        if is_result {
            self.results.get(transaction, side, id)
        } else {
            self.errors.get(transaction, side, id)
        }
    }

    /// Returns the answer that a component of an end rejects as unrecognized, if one was delivered.
    pub(crate) fn rejected(
        &self,
        transaction: u32,
        side: End,
        component: &Component,
    ) -> Option<Answer>
        ensures { result ≡ answer_rejected self.now transaction side (unrecognized component.now) }
    {
        let (is_result, id) = unrecognized(component)?;
        self.answer(is_result, transaction, side, id)
    }
}
