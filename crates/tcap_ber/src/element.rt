//! Windows of octets, and the elements in them (X.690 8.1.1).

ghost use Rattle.std.specs.Prelude.{◌≡◌, ◌<◌, ◌≤◌, ◌+◌, ◌^◌, ◌∷◌, ◌↔◌, [], IsTrue, length};

use crate::fault::{Fault, Reason};

/// A part of a message or record, with its offset in the whole.
#[derive(Clone, Copy, Debug)]
pub struct Window<'a> {
    /// The octets of the part.
    pub octets: &'a [u8],
    /// The offset of the first octet in the whole, whose first octet has offset 0.
    pub place: u64,
    pub ghost fits: { place + length octets.now < 2 ^ 64 },
}

/// A tag: one to five identifier octets (X.690 8.1.2). Two tags are equal if their octets are.
#[derive(Clone, Copy, Debug, PartialEq, Eq)]
pub struct Tag<'a> {
    /// The octets of the tag.
    pub octets: &'a [u8],
}

/// An element of a window.
#[derive(Clone, Copy, Debug)]
pub struct Tlv<'a> {
    /// The tag.
    pub tag: Tag<'a>,
    /// The content.
    pub content: Window<'a>,
    /// The offset of the element's first octet.
    pub start: u64,
}

/// The result of framing the front of a buffer.
#[derive(Clone, Copy, Debug, PartialEq, Eq)]
pub enum Outer {
    /// A whole element of this many octets.
    Whole(usize),
    /// No whole element yet: each element that begins with these octets has at least this many.
    Need(usize),
}

impl<'a> Window<'a> {
    ghost use Rattle.std.specs.Prelude.{length};
    ghost use Rattle.tcap_ber.specs.Span.{behind};
    ghost use Rattle.tcap_ber.specs.Reading.{span};

    /// Creates a window of all `octets`, with the first at offset 0.
    pub fn new(octets: &'a [u8]) -> Window<'a>
        ensures { span result ≡ record { octets = octets.entry.now; place = 0 } }
    {
        Window { octets, place: 0 }
    }

    /// Returns the window after its first `len` octets. The window must have that many.
    pub fn behind(self, len: usize) -> Window<'a>
        requires { len ≤ length self.octets.now }
        ensures { span result ≡ behind len (span self.entry) }
    {
        Window {
            octets: &self.octets[len..],
            place: self.place + len as u64,
        }
    }
}

impl<'a> Tlv<'a> {
    ghost use Rattle.tcap_ber.specs.Reading.{fault};

    /// Returns a fault with this reason at the element's first octet.
    pub fn refused(self, reason: Reason) -> Fault
        ensures { result ≡ fault reason self.entry.start }
    {
        Fault {
            reason,
            place: self.start,
        }
    }
}

impl<'a> Tag<'a> {
    ghost use Rattle.tcap_ber.specs.Reading.{is_tag};

    fn is_only(octets: &[u8], octet: u8) -> bool
        ensures { result ≡ is_tag octet octets.now }
    {
        match octets {
            [only] => *only == octet,
            _ => false,
        }
    }

    /// Returns whether the tag is this one octet.
    pub fn is(self, octet: u8) -> bool
        ensures own { IsTrue result ↔ (self.entry.octets.now ≡ octet ∷ []) }
        ensures exact { result ≡ is_tag octet self.entry.octets.now }
    {
        Tag::is_only(self.octets, octet)
    }
}
