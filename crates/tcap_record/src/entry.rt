//! The entries of a record.

ghost use Rattle.std.specs.Prelude.{◌≡◌, ◌<◌, ◌^◌, IfOk, IsSome, option_copied, slice_get};
ghost use Rattle.tcap_record.specs.EntryView.{body_read, entry_read};

use std::alloc::{AllocError, Global};
use tcap_ber::Fault;
use tcap_msg::{Message, MessageParts, MessageView};

/// An end: one of the two sides of a record.
#[derive(Clone, Copy, Debug, PartialEq, Eq)]
pub enum End {
    /// The end whose octet is 41.
    A,
    /// The end whose octet is 42.
    B,
}

impl End {
    ghost use Rattle.tcap_record.specs.Ends.{is_side, letter, other};

    /// Returns the other end.
    pub fn other(self) -> End
        ensures { result ≡ other self }
    {
        match self {
            End::A => End::B,
            End::B => End::A,
        }
    }

    /// Returns whether this end is `end`.
    pub fn is(self, end: End) -> bool
        ensures { result ≡ is_side self end }
    {
        self == end
    }

    /// Returns the letter of this end: `A` or `B`.
    pub fn letter(self) -> &'static str
        ensures { result.now ≡ letter self }
    {
        match self {
            End::A => "A",
            End::B => "B",
        }
    }
}

/// The content of an entry.
#[derive(Debug, Drop)]
pub enum Body {
    /// The message that the element spells.
    Good(Message),
    /// The fault of an element that spells no message, with its offset in the record.
    Bad(Fault),
    /// A quiet mark: nothing was in transit then, and no transaction was open.
    Quiet,
}

/// A message that an end sent, or a quiet mark.
#[derive(Debug, Drop)]
pub struct Entry {
    /// The end that sent the message, or `None` for a quiet mark.
    pub side: Option<End>,
    /// The offset in the record of the element's first octet, or of the quiet mark's octet.
    pub place: u64,
    /// The content.
    pub body: Body,
}

/// The borrowed content of an entry.
#[derive(Clone, Copy, Debug)]
pub enum BodyView<'a> {
    /// The message that the element spells.
    Good(MessageView<'a>),
    /// The fault of an element that spells no message, with its offset in the record.
    Bad(Fault),
    /// A quiet mark.
    Quiet,
}

/// A borrowed entry.
#[derive(Clone, Copy, Debug)]
pub struct EntryView<'a> {
    /// The end that sent the message, or `None` for a quiet mark.
    pub side: Option<End>,
    /// The offset in the record of the element's first octet, or of the quiet mark's octet.
    pub place: u64,
    /// The content.
    pub body: BodyView<'a>,
}

impl Body {
    /// Returns a view of the content.
    fn view(&self) -> BodyView<'_>
        ensures { body_read result ≡ self.now }
    {
        match self {
            Body::Good(message) => BodyView::Good(message.view()),
            Body::Bad(fault) => BodyView::Bad(*fault),
            Body::Quiet => BodyView::Quiet,
        }
    }
}

impl Entry {
    /// Returns a view of the entry.
    pub fn view(&self) -> EntryView<'_>
        ensures { entry_read result ≡ self.now }
    {
        EntryView {
            side: self.side,
            place: self.place,
            body: self.body.view(),
        }
    }
}

impl BodyView<'_> {
    /// Copies the content into an owned value.
    fn to_body(self, alloc: Global) -> Result<Body, AllocError>
        ensures { IfOk result (λ body. body ≡ body_read self.entry) }
    {
        match self {
            BodyView::Good(message) => Ok(Body::Good(message.to_message(alloc)?)),
            BodyView::Bad(fault) => Ok(Body::Bad(fault)),
            BodyView::Quiet => Ok(Body::Quiet),
        }
    }
}

impl EntryView<'_> {
    /// Copies the entry into an owned value.
    ///
    /// # Errors
    ///
    /// `AllocError` if memory runs out.
    pub fn to_entry(self, alloc: Global) -> Result<Entry, AllocError>
        ensures { IfOk result (λ entry. entry ≡ entry_read self.entry) }
    {
        Ok(Entry {
            side: self.side,
            place: self.place,
            body: self.body.to_body(alloc)?,
        })
    }
}

/// The entries of a record, in their order.
#[derive(Debug, Drop)]
pub struct Record {
    /// The entries, numbered from 0.
    pub entries: Vec<Entry>,
}

impl Record {
    /// Returns the entry with this number, if there is one.
    pub fn entry_at(&self, number: u64) -> Option<&Entry>
        ensures entry { option_copied result ≡ slice_get self.now.entries.items number }
        ensures small { IsSome result → number < 2 ^ 63 }
    {
        self.entries.get(number as usize)
    }
}
