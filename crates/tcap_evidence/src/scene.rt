//! What is known of a message at fault: the messages of each end since the last quiet mark, and the half over which it
//! would go (Q.774 3.2, 3.3).

ghost use Rattle.std.specs.Prelude.{◌≡◌, ◌++◌, false, List, IfOk, OnOk, map, option_map, option_to_list};
ghost use Rattle.tcap_parts.specs.Meaning.{component_of};
ghost use Rattle.tcap_msg.specs.Meaning.{id_of};
ghost use Rattle.tcap_record.specs.declared.entry.End.{End as Side};
ghost use Rattle.tcap_model.specs.World.{Item};
ghost use Rattle.tcap_evidence.specs.StoredScene.{IsScene, scene_by};
ghost use Rattle.tcap_evidence.specs.OpenAtMark.{is_of_mark};
ghost use Rattle.tcap_evidence.specs.NumberedMessages.{in_order, numbered_of};
ghost use Rattle.tcap_evidence.specs.Operations.{invocations_in, invocations_of};
ghost use Rattle.tcap_evidence.specs.Scene.{Scene as Known, incoming_by, invoked_by, own_begin, own_id, shown, to_half, sent_to_dtid, with_sort, with_sort_in};
ghost use Rattle.tcap_faults.specs.declared.dialogue.half_origin.HalfOrigin.TheVariants as origins;
ghost use Rattle.tcap_evidence.specs.declared.shown_facts.ShownFact.TheVariants as facts;

use crate::listing::{
    Test, entries_where, entries_with, first_where, in_order, push_sorted, push_where, sent_where,
    since_response,
};
use crate::operations::{Invocation, invocations_in, is_answer, rejects_answer};
use crate::sent::{MessagesByEnd, Sent};
use crate::shown_facts::ShownFact;
use std::alloc::{AllocError, Global};
use tcap_end::Table;
use tcap_faults::{HalfOrigin, Sort, Subject};
use tcap_msg::{Message, MessageParts, TransactionId, TransactionIdView};
use tcap_parts::ComponentView;
use tcap_refute::Kind;

/// What is known of a message at fault.
#[derive(Drop)]
pub(crate) struct Scene<'a> {
    pub(crate) table: &'a Table,
    /// The number of the message's entry.
    pub(crate) number: u64,
    pub(crate) to: Option<TransactionId>,
    pub(crate) from: Option<TransactionId>,
    /// How the half began over which the message would go, and the half's own ID.
    pub(crate) origin: HalfOrigin,
    pub(crate) half: Option<TransactionId>,
    /// The components of the message, those before the component at fault, and the invoke ID in question.
    pub(crate) all: Vec<ComponentView<'a>>,
    pub(crate) earlier: Vec<ComponentView<'a>>,
    pub(crate) id: Option<i8>,
    /// The messages of the message's end.
    pub(crate) own: Vec<Sent<'a>>,
    /// The peer's messages from the destination ID.
    pub(crate) from_peer: Vec<Sent<'a>>,
    /// The end's messages to the destination ID, without its provider's Aborts.
    pub(crate) outgoing: Vec<Sent<'a>>,
}

/// Copies a transaction ID, if there is one.
fn owned(id: Option<TransactionIdView>) -> Option<TransactionId>
    ensures { result ≡ id_of id.entry }
{
    match id {
        Some(id) => Some(id.to_transaction_id()),
        None => None,
    }
}

/// Returns a list of one message, or of none.
fn list_of<'a>(alloc: Global, first: Option<Sent<'a>>) -> Result<Vec<Sent<'a>>, AllocError>
    ensures { IfOk result (λ v.
        numbered_of v.items ≡ option_to_list (option_map (λ s. (s.number, s.message.now)) first.entry)) }
{
    let mut list = Vec::new(alloc);
    if let Some(first) = first {
        list.push(first)?;
    }
    Ok(list)
}

impl<'a> Scene<'a> {
    /// Creates the scene of a message of entry `number`.
    ///
    /// `about` is the subject of the fault, `messages_by_end` has the messages before the entry. `all` are the
    /// components, `earlier` those before the component at fault, and `id` is the invoke ID in question.
    pub(crate) fn new(
        alloc: Global,
        messages_by_end: MessagesByEnd<'a>,
        table: &'a Table,
        message: &Message,
        number: u64,
        about: &Subject,
        all: Vec<ComponentView<'a>>,
        earlier: Vec<ComponentView<'a>>,
        id: Option<i8>,
    ) -> Result<Scene<'a>, AllocError>
        ensures { (side : Side) (items : List Item)
            → IfOk result (IsScene (scene_by table.now side items messages_by_end.entry message.now
            number about.now (map component_of all.entry.items) (map component_of earlier.entry.items) id)) }
    {
        let to = owned(message.dtid());
        let from_peer = sent_where(alloc, &messages_by_end.peer, Test::From(to.as_ref()))?;
        let outgoing = sent_where(
            alloc,
            &messages_by_end.own,
            Test::UserMessageTo(to.as_ref()),
        )?;
        let half = match &about.own {
            Some(own) => Some(own.view().to_transaction_id()),
            None => None,
        };
        Ok(Scene {
            table,
            number,
            to,
            from: owned(message.otid()),
            origin: about.origin,
            half,
            all,
            earlier,
            id,
            own: messages_by_end.own,
            from_peer,
            outgoing,
        })
    }

    /// Returns the own ID in question: that of the half or, if it is unknown, the message's originating ID.
    fn own_id(&self) -> Option<&TransactionId>
        ensures { (s : Known) → IsScene s self.now → option_map (λ t. t.now) result ≡ own_id s }
    {
        match &self.half {
            Some(id) => Some(id),
            None => self.from.as_ref(),
        }
    }

    /// Returns the end's first Begin from the half's own ID, no matter how the half began.
    fn own_begin(&self) -> Option<Sent<'a>>
        ensures { (s : Known) → IsScene s self.now → option_map (λ b. (b.number, b.message.now)) result ≡ own_begin s }
    {
        first_where(&self.own, Test::BeginFrom(self.half.as_ref()))
    }

    /// Returns the peer's Continues from the destination ID to the half's own ID.
    fn to_half(&self, alloc: Global) -> Result<Vec<Sent<'a>>, AllocError>
        ensures { (s : Known) → IsScene s self.now → IfOk result (λ v. numbered_of v.items ≡ to_half s) }
    {
        sent_where(alloc, &self.from_peer, Test::ContinueTo(self.half.as_ref()))
    }

    /// Returns the messages that an accepted half heard: the peer's first Begin, and the Continues to the half's own
    /// ID.
    fn incoming_accepted(&self, alloc: Global) -> Result<Vec<Sent<'a>>, AllocError>
        ensures { (s : Known) → IsScene s self.now
            → IfOk result (λ v. numbered_of v.items ≡ incoming_by s origins.Accepted) }
    {
        let mut incoming = list_of(alloc, first_where(&self.from_peer, Test::Begin))?;
        push_where(
            &mut incoming,
            &self.from_peer,
            Test::ContinueTo(self.half.as_ref()),
        )?;
        Ok(incoming)
    }

    /// Returns the messages that a half heard whose end sent the Begin: the Continues to its own ID. If the Begin
    /// requested a dialogue, they start with the first one that carries a response.
    fn incoming_begun(&self, alloc: Global) -> Result<Vec<Sent<'a>>, AllocError>
        ensures { (s : Known) → IsScene s self.now
            → IfOk result (λ v. numbered_of v.items ≡ incoming_by s origins.Begun) }
    {
        let incoming = self.to_half(alloc)?;
        match self.own_begin() {
            Some(begin) if Test::Request.passes(begin.message) => since_response(alloc, &incoming),
            _ => Ok(incoming),
        }
    }

    /// Returns the messages that the half heard, in the order in which it heard them.
    fn incoming_first(&self, alloc: Global) -> Result<Vec<Sent<'a>>, AllocError>
        ensures { (s : Known) → IsScene s self.now → IfOk result (λ v. numbered_of v.items ≡ incoming_by s s.origin) }
    {
        match self.origin {
            HalfOrigin::Accepted | HalfOrigin::Refused => self.incoming_accepted(alloc),
            HalfOrigin::Begun => self.incoming_begun(alloc),
            HalfOrigin::Unanswered | HalfOrigin::Nowhere => Ok(Vec::new(alloc)),
        }
    }

    /// Returns the messages that the half heard, in the order of the entries.
    fn incoming(&self, alloc: Global) -> Result<Vec<Sent<'a>>, AllocError>
        ensures { (s : Known) → IsScene s self.now
            → IfOk result (λ v. numbered_of v.items ≡ in_order (incoming_by s s.origin)) }
    {
        in_order(alloc, &self.incoming_first(alloc)?)
    }

    /// Returns the half's own Begin, if its end sent the Begin.
    fn sent_begin(&self) -> Option<Sent<'a>>
        ensures { (s : Known) → IsScene s self.now
            → option_to_list (option_map (λ b. (b.number, b.message.now)) result)
            ++ sent_to_dtid s ≡ invoked_by s s.origin }
    {
        match self.origin {
            HalfOrigin::Begun | HalfOrigin::Unanswered => self.own_begin(),
            HalfOrigin::Accepted | HalfOrigin::Refused | HalfOrigin::Nowhere => None,
        }
    }

    /// Returns the messages that carry the half's own invocations, in the order of the entries.
    fn invoked(&self, alloc: Global) -> Result<Vec<Sent<'a>>, AllocError>
        ensures { (s : Known) → IsScene s self.now
            → IfOk result (λ v. numbered_of v.items ≡ in_order (invoked_by s s.origin)) }
    {
        let mut invoked = list_of(alloc, self.sent_begin())?;
        push_where(&mut invoked, &self.outgoing, Test::Any)?;
        in_order(alloc, &invoked)
    }

    /// Returns the entries of the components of the invoke ID and this sort in these messages.
    fn with_sort(&self, alloc: Global, sent: &[Sent], sort: Sort) -> Result<Vec<u64>, AllocError>
        ensures { (s : Known) → IsScene s self.now
            → IfOk result (λ v. v.items ≡ with_sort s sort (numbered_of sent.now)) }
    {
        match self.id {
            Some(id) => entries_with(alloc, self.table, sent, id, sort),
            None => Ok(Vec::new(alloc)),
        }
    }

    /// Appends the message's own entry once for each of these components that is of the invoke ID and this sort.
    fn push_in(
        &self,
        entries: &mut Vec<u64>,
        components: &[ComponentView],
        sort: Sort,
    ) -> Result<(), AllocError>
        ensures { (s : Known) → IsScene s self.now → OnOk result (entries.new.items
            ≡ entries.old.items ++ with_sort_in s sort (map component_of components.now)) }
    {
        match self.id {
            Some(id) => push_sorted(entries, self.table, self.number, components, id, sort),
            None => Ok(()),
        }
    }

    /// Returns the entries of the components of the invoke ID and this sort in the end's messages to the destination
    /// ID. The message's own entry follows, once for each such component among `components`.
    fn outgoing_with(
        &self,
        alloc: Global,
        components: &[ComponentView],
        sort: Sort,
    ) -> Result<Vec<u64>, AllocError>
        ensures { (s : Known) → IsScene s self.now → IfOk result (λ v. v.items
            ≡ with_sort s sort (sent_to_dtid s) ++ with_sort_in s sort (map component_of components.now)) }
    {
        let mut entries = self.with_sort(alloc, &self.outgoing, sort)?;
        self.push_in(&mut entries, components, sort)?;
        Ok(entries)
    }

    /// Returns the Continues from the message's originating ID to another destination ID.
    fn elsewhere(&self, alloc: Global) -> Result<Vec<u64>, AllocError>
        ensures { (s : Known) → IsScene s self.now → IfOk result (λ v. v.items ≡ shown s facts.WentElsewhere) }
    {
        match &self.to {
            Some(to) => entries_where(
                alloc,
                &self.own,
                Test::Elsewhere(self.from.as_ref(), Some(to)),
            ),
            None => Ok(Vec::new(alloc)),
        }
    }

    /// Returns the entries that show a thing about the message. `Open` is for quiet marks only, and gives none here.
    pub(crate) fn shown(&self, alloc: Global, fact: ShownFact) -> Result<Vec<u64>, AllocError>
        ensures { (s : Known) → IsScene s self.now → is_of_mark fact ≡ false
            → IfOk result (λ v. v.items ≡ shown s fact) }
    {
        let to = self.to.as_ref();
        match fact {
            ShownFact::PeerBegins => entries_where(alloc, &self.from_peer, Test::Begin),
            ShownFact::PeerRequests => entries_where(alloc, &self.from_peer, Test::Request),
            ShownFact::PeerContinues => entries_where(alloc, &self.from_peer, Test::Continue),
            ShownFact::Used => entries_where(alloc, &self.own, Test::From(self.from.as_ref())),
            ShownFact::WentElsewhere => self.elsewhere(alloc),
            ShownFact::Begun => entries_where(alloc, &self.own, Test::BeginFrom(self.own_id())),
            ShownFact::OwnRequests => entries_where(
                alloc,
                &self.own,
                Test::RequestFrom(self.own_id()),
            ),
            ShownFact::OutgoingComponents => entries_where(alloc, &self.outgoing, Test::Any),
            ShownFact::OutgoingContinues => entries_where(alloc, &self.outgoing, Test::Continue),
            ShownFact::Ended => entries_where(alloc, &self.own, Test::EndTo(to)),
            ShownFact::Unknown => entries_where(alloc, &self.own, Test::AbortTo(to, 1)),
            ShownFact::Refused => entries_where(alloc, &self.own, Test::AbortTo(to, 4)),
            ShownFact::PeerComponents(sort) => self.with_sort(alloc, &self.from_peer, sort),
            ShownFact::IncomingComponents(sort) => self.with_sort(
                alloc,
                &self.incoming(alloc)?,
                sort,
            ),
            ShownFact::Before(sort) => self.outgoing_with(alloc, &self.earlier, sort),
            ShownFact::Whole(sort) => self.outgoing_with(alloc, &self.all, sort),
            ShownFact::Invoked(sort) => self.with_sort(alloc, &self.invoked(alloc)?, sort),
            ShownFact::Open => Ok(Vec::new(alloc)),
        }
    }

    /// Returns the Invokes of the invoke ID in these messages.
    fn invocations_in(&self, alloc: Global, sent: &[Sent]) -> Result<Vec<Invocation>, AllocError>
        ensures { (s : Known) → IsScene s self.now
            → IfOk result (λ v. v.items ≡ invocations_in s.id (numbered_of sent.now)) }
    {
        match self.id {
            Some(id) => invocations_in(alloc, sent, id),
            None => Ok(Vec::new(alloc)),
        }
    }

    /// Returns the invocations that a kind compares by operation or link, for this component at fault.
    pub(crate) fn invocations(
        &self,
        alloc: Global,
        kind: Kind,
        component: Option<ComponentView>,
    ) -> Result<Vec<Invocation>, AllocError>
        ensures { (s : Known) → IsScene s self.now → IfOk result (λ v. v.items
            ≡ invocations_of s kind (option_map component_of component.entry)) }
    {
        match kind {
            Kind::WrongOperation if is_answer(component) => self.invocations_in(
                alloc,
                &self.from_peer,
            ),
            Kind::InvokeIdBusy => self.invocations_in(alloc, &self.invoked(alloc)?),
            Kind::RejectNotAllowed if rejects_answer(component) => {
                self.invocations_in(alloc, &self.invoked(alloc)?)
            }
            Kind::BadLink | Kind::AnsweredAlready | Kind::RejectNotAllowed => {
                self.invocations_in(alloc, &self.incoming(alloc)?)
            }
            _ => Ok(Vec::new(alloc)),
        }
    }
}
