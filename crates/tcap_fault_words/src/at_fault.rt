//! A message at fault, and searches among the other entries of its dialogue.

use tcap_books::NamedTable;
use tcap_evidence::{Evidence, Invocation, ShownFact};
use tcap_faults::{Class, Sort};
use tcap_msg::{Kind as Form, Message, MessageParts};
use tcap_parts::ComponentView;
use tcap_record::{Body, End, Entry, Record};

/// A message at fault, with the evidence for its fault.
#[derive(Clone, Copy)]
pub(crate) struct AtFault<'a> {
    pub(crate) record: &'a Record,
    pub(crate) table: &'a NamedTable,
    /// The end at fault.
    pub(crate) end: End,
    /// The number of the message's entry.
    pub(crate) number: u64,
    pub(crate) message: &'a Message,
    pub(crate) found: &'a Evidence,
}

/// A message or a component of the peer that would allow the message at fault.
#[derive(Clone, Copy)]
pub(crate) enum Wanted {
    /// Any message.
    Any,
    /// A message of this form.
    Form(Form),
    /// An Invoke of this invoke ID.
    Invoke(i8),
    /// A Return Result of this invoke ID.
    ReturnResult(i8),
    /// A Return Error of this invoke ID.
    ReturnError(i8),
}

/// A fact that the evidence shows. They are those of `ShownFact` that a sentence needs.
#[derive(Clone, Copy, PartialEq, Eq)]
pub(crate) enum Fact {
    PeerBegins,
    PeerRequests,
    PeerContinues,
    Used,
    WentElsewhere,
    Outgoing,
    OutgoingContinues,
    Ended,
    Unknown,
    Refused,
    Open,
    /// Components that the half heard: Invokes, linked ones, Return Results and Return Errors.
    Invokes,
    LinkedInvokes,
    Results,
    Errors,
    /// Components of the end before the one at fault: answers and Rejects.
    OwnResults,
    OwnErrors,
    OwnRejects,
    OwnDuplicateRejects,
    OwnLinkRejects,
    OwnResultRejects,
    OwnErrorRejects,
    /// Own Invokes that do not expire.
    OwnLasting,
}

/// Returns the fact about messages or IDs that a ground shows, if a sentence needs it.
fn fact_of(shown: ShownFact) -> Option<Fact> {
    match shown {
        ShownFact::PeerBegins => Some(Fact::PeerBegins),
        ShownFact::PeerRequests => Some(Fact::PeerRequests),
        ShownFact::PeerContinues => Some(Fact::PeerContinues),
        ShownFact::Used => Some(Fact::Used),
        ShownFact::WentElsewhere => Some(Fact::WentElsewhere),
        ShownFact::OutgoingComponents => Some(Fact::Outgoing),
        ShownFact::OutgoingContinues => Some(Fact::OutgoingContinues),
        ShownFact::Ended => Some(Fact::Ended),
        ShownFact::Unknown => Some(Fact::Unknown),
        ShownFact::Refused => Some(Fact::Refused),
        ShownFact::Open => Some(Fact::Open),
        ShownFact::IncomingComponents(sort) => heard(sort),
        ShownFact::Before(sort) => before(sort),
        ShownFact::Invoked(Sort::Lasting(Class::Any)) => Some(Fact::OwnLasting),
        _ => None,
    }
}

/// Returns the fact about components of this sort that the half heard, if a sentence needs it.
fn heard(sort: Sort) -> Option<Fact> {
    match sort {
        Sort::Invokes(Class::Any) => Some(Fact::Invokes),
        Sort::Linked => Some(Fact::LinkedInvokes),
        Sort::Results => Some(Fact::Results),
        Sort::Errors => Some(Fact::Errors),
        _ => None,
    }
}

/// Returns the fact about components of this sort before the one at fault, if a sentence needs it.
fn before(sort: Sort) -> Option<Fact> {
    match sort {
        Sort::LastResults => Some(Fact::OwnResults),
        Sort::Errors => Some(Fact::OwnErrors),
        Sort::InvokeRejects => Some(Fact::OwnRejects),
        Sort::DuplicateRejects => Some(Fact::OwnDuplicateRejects),
        Sort::LinkRejects => Some(Fact::OwnLinkRejects),
        Sort::ResultRejects => Some(Fact::OwnResultRejects),
        Sort::ErrorRejects => Some(Fact::OwnErrorRejects),
        _ => None,
    }
}

/// Returns the message in an entry of this end, if it is one.
fn sent_by(entry: &Entry, end: End) -> Option<&Message> {
    match (entry.side, &entry.body) {
        (Some(side), Body::Good(message)) if end.is(side) => Some(message),
        _ => None,
    }
}

/// Returns whether a message comes from a transaction ID.
fn is_from(message: &Message, id: &[u8]) -> bool {
    match message.otid() {
        Some(otid) => otid.octets == id,
        None => false,
    }
}

/// Returns whether a component would allow the message at fault.
fn is_wanted(wanted: Wanted, component: ComponentView) -> bool {
    match (wanted, component) {
        (Wanted::Invoke(wanted), ComponentView::Invoke { id, .. })
        | (Wanted::ReturnResult(wanted), ComponentView::ReturnResult { id, .. })
        | (Wanted::ReturnError(wanted), ComponentView::ReturnError { id, .. }) => wanted == id,
        _ => false,
    }
}

/// Returns whether a message, or a component of it, would allow the message at fault.
fn has_wanted(wanted: Wanted, message: &Message) -> bool {
    match wanted {
        Wanted::Any => true,
        Wanted::Form(form) => message.kind() == form,
        _ => {
            for component in message.components() {
                if is_wanted(wanted, component) {
                    return true;
                }
            }
            false
        }
    }
}

/// Returns the message in entry `number`, if it is one.
pub(crate) fn message_at(record: &Record, number: u64) -> Option<&Message> {
    match record.entries.get(number as usize) {
        Some(
            Entry {
                body: Body::Good(message),
                ..
            },
        ) => Some(message),
        _ => None,
    }
}

/// Returns the entries that show a fact.
pub(crate) fn entries_of(found: &Evidence, fact: Fact) -> &[u64] {
    for ground in &found.grounds {
        if fact_of(ground.fact) == Some(fact) {
            return &ground.entries;
        }
    }
    &[]
}

/// Returns whether the message in entry `number` comes from a transaction ID.
pub(crate) fn is_from_entry(record: &Record, number: u64, id: &[u8]) -> bool {
    match message_at(record, number) {
        Some(message) => is_from(message, id),
        None => false,
    }
}

impl<'a> AtFault<'a> {
    /// Returns the entries that show a fact.
    pub(crate) fn entries(&self, fact: Fact) -> &'a [u64] {
        entries_of(self.found, fact)
    }

    /// Returns the first entry that shows a fact, if there is one.
    pub(crate) fn first(&self, fact: Fact) -> Option<u64> {
        self.entries(fact).first().copied()
    }

    /// Returns the number of entries that show a fact.
    pub(crate) fn count(&self, fact: Fact) -> usize {
        self.entries(fact).len()
    }

    /// Returns the number of answers and Rejects of the end that took an invocation of the ID before.
    pub(crate) fn count_taken(&self) -> usize {
        self.count(Fact::OwnResults)
            .saturating_add(self.count(Fact::OwnErrors))
            .saturating_add(self.count(Fact::OwnRejects))
    }

    /// Returns the invocation that the kind compares, if there is only one.
    pub(crate) fn only_invocation(&self) -> Option<&'a Invocation> {
        match self.found.invocations.as_slice() {
            [only] => Some(only),
            _ => None,
        }
    }

    /// Returns the destination ID, or no octets if there is none.
    pub(crate) fn to(&self) -> &'a [u8] {
        match self.message.dtid() {
            Some(dtid) => dtid.octets,
            None => &[],
        }
    }

    /// Returns the originating ID, or no octets if there is none.
    pub(crate) fn from(&self) -> &'a [u8] {
        match self.message.otid() {
            Some(otid) => otid.octets,
            None => &[],
        }
    }

    /// Returns the form of the message in entry `number`, if it is one.
    pub(crate) fn form_of(&self, number: u64) -> Option<Form> {
        match message_at(self.record, number) {
            Some(message) => Some(message.kind()),
            None => None,
        }
    }

    /// Returns the peer's first entry after this one that comes from the destination ID and would have allowed the
    /// message. Entries after the next quiet mark do not count.
    pub(crate) fn later(&self, wanted: Wanted) -> Option<u64> {
        let peer = self.end.other();
        for (at, entry) in self.record.entries.iter().enumerate() {
            if at as u64 <= self.number {
                continue;
            }
            if let Body::Quiet = entry.body {
                return None;
            }
            if let Some(message) = sent_by(entry, peer) {
                if is_from(message, self.to()) && has_wanted(wanted, message) {
                    return Some(at as u64);
                }
            }
        }
        None
    }

    /// Returns whether the end sends some message of the dialogue from this ID.
    pub(crate) fn is_own(&self, id: &[u8]) -> bool {
        for entry in &self.record.entries {
            if let Some(message) = sent_by(entry, self.end) {
                if is_from(message, id) {
                    return true;
                }
            }
        }
        false
    }

    /// Returns the number of the end's first Begin from this ID before the message.
    pub(crate) fn own_begin(&self, id: &[u8]) -> Option<u64> {
        for (at, entry) in self.record.entries.iter().enumerate() {
            if at as u64 >= self.number {
                return None;
            }
            if let Some(message) = sent_by(entry, self.end) {
                if message.kind() == Form::Begin && is_from(message, id) {
                    return Some(at as u64);
                }
            }
        }
        None
    }

    /// Returns whether the end's provider sends an Abort before the message.
    pub(crate) fn has_provider_abort(&self) -> bool {
        for (at, entry) in self.record.entries.iter().enumerate() {
            if at as u64 >= self.number {
                return false;
            }
            if let Some(message) = sent_by(entry, self.end) {
                if message.cause().is_some() {
                    return true;
                }
            }
        }
        false
    }
}
