//! Why octets are refused, and at which offset.

ghost use Rattle.std.specs.Prelude.{◌≡◌};
ghost use Rattle.tcap_ber.specs.Fault.{number_of};

/// The reason why octets are refused. Octets are read from left to right, and the first fault is reported.
#[derive(Clone, Copy, Debug, PartialEq, Eq)]
pub enum Reason {
    /// The octets end before the outer element does.
    Cut,
    /// A length octet from 85 to FF (X.690 8.1.3.5; this profile excludes 85 to FE).
    LengthForm,
    /// A content of more than 65,535 octets, this profile's limit. A content of indefinite length is measured as it is
    /// walked.
    TooLong,
    /// A tag of more than five octets, this profile's limit (X.690 8.1.2.4).
    TagForm,
    /// A header or a content that ends after its window does, or an element of indefinite length without its
    /// end-of-contents octets.
    Overrun,
    /// An INTEGER that is empty or has a needless leading octet (X.690 8.3).
    BadInteger,
    /// An OBJECT IDENTIFIER that is empty or has an incomplete or padded subidentifier (X.690 8.19).
    BadObjectId,
    /// An element with another tag than the required one.
    UnexpectedTag,
    /// The end of the window in place of a required element.
    Missing,
    /// Octets after the last element of a structure.
    Trailing,
    /// A component portion without content (Q.773 4.2.2).
    EmptyComponents,
    /// A protocol version that is not a BIT STRING whose first bit, version1, is set (Q.773 4.2.3). This profile allows
    /// it one octet.
    BadVersion,
    /// An EXTERNAL of a dialogue portion that holds no dialogue PDU (Q.773 4.2.3). Its first element does not name an
    /// abstract syntax of Q.773, its second is not a single ASN.1 type, or that syntax has no such PDU.
    DialogueSyntax,
    /// A one-octet integer with more octets, a negative integer that a rule forbids, or a NULL with content.
    BadSize,
    /// A transaction ID of no octets or more than four (Q.773 4.2.1).
    BadTransactionId,
    /// The indefinite length form on a primitive element (X.690 8.1.3.2).
    Indefinite,
    /// A local code of more than four octets, this profile's limit.
    CodeTooWide,
    /// An element of indefinite length (X.690 8.1.3.6) inside 32 others, this profile's limit. Only those inside the
    /// innermost enclosing element of definite length count.
    TooDeep,
}

impl Reason {
    /// Returns the number that output lines print for this reason.
    pub fn number(self) -> u8
        ensures { result ≡ number_of self }
    {
        match self {
            Reason::Cut => 1,
            Reason::LengthForm => 2,
            Reason::TooLong => 3,
            Reason::TagForm => 4,
            Reason::Overrun => 5,
            Reason::BadInteger => 6,
            Reason::BadObjectId => 7,
            Reason::UnexpectedTag => 8,
            Reason::Missing => 9,
            Reason::Trailing => 10,
            Reason::EmptyComponents => 11,
            Reason::BadVersion => 12,
            Reason::DialogueSyntax => 13,
            Reason::BadSize => 14,
            Reason::BadTransactionId => 15,
            Reason::Indefinite => 16,
            Reason::CodeTooWide => 17,
            Reason::TooDeep => 18,
        }
    }
}

/// A refusal of octets: the reason, and the offset of the faulty octet or of the end, if octets are missing.
#[derive(Clone, Copy, Debug, PartialEq, Eq)]
pub struct Fault {
    /// The reason.
    pub reason: Reason,
    /// The offset, counted from the first octet of the whole message or record, as [`Window::place`](crate::Window)
    /// counts it.
    pub place: u64,
}
