//! The names of reasons.

use tcap_ber::Reason;
use tcap_record::FeedReason;

/// Returns the name of a reason for refusing octets.
pub fn name_of(reason: Reason) -> &'static str {
    match reason {
        Reason::Cut => "cut element",
        Reason::LengthForm => "bad length octet",
        Reason::TooLong => "content too long",
        Reason::TagForm => "tag too long",
        Reason::Overrun => "element past its end",
        Reason::BadInteger => "bad INTEGER",
        Reason::BadObjectId => "bad OBJECT IDENTIFIER",
        Reason::UnexpectedTag => "unexpected tag",
        Reason::Missing => "missing element",
        Reason::Trailing => "octets behind the last element",
        Reason::EmptyComponents => "empty component portion",
        Reason::BadVersion => "bad protocol version",
        Reason::DialogueSyntax => "bad dialogue syntax",
        Reason::BadSize => "bad size",
        Reason::BadTransactionId => "bad transaction ID",
        Reason::Indefinite => "indefinite length of a primitive element",
        Reason::CodeTooWide => "code too wide",
        Reason::TooDeep => "elements open too deep",
    }
}

/// Returns the name of a reason for refusing octets as a record.
pub(crate) fn feed_name_of(reason: FeedReason) -> &'static str {
    match reason {
        FeedReason::Element(reason) => name_of(reason),
        FeedReason::BadEnd => "no end and no quiet mark",
        FeedReason::CutRecord => "cut record",
        FeedReason::TooManyEntries => "too many entries",
        FeedReason::BadHexLine => "bad line",
        FeedReason::Read => "the reader failed",
        FeedReason::Memory => "no memory",
    }
}
