//! Why octets are not a record.

ghost use Rattle.std.specs.Prelude.{◌≡◌};
ghost use Rattle.tcap_record.specs.FaultNumber.{feed_number_of};

use tcap_ber::Reason;

/// The reason why octets are refused as a record, apart from faults of the messages in it.
#[derive(Clone, Copy, Debug, PartialEq, Eq)]
pub enum FeedReason {
    /// An entry's element has a framing fault: one that a walk over it meets.
    Element(Reason),
    /// An entry's first octet is not 41, 42 or 51.
    BadEnd,
    /// The octets end within an entry.
    CutRecord,
    /// The record has more than 100,000 entries, this profile's limit.
    TooManyEntries,
    /// A line of hexadecimal digits is neither an entry nor skipped.
    BadHexLine,
    /// The reader failed.
    Read,
    /// Memory ran out.
    Memory,
}

/// A refusal of a record: the reason and the offset of the faulty octet, counted from 0. For `CutRecord` and `Read`,
/// `place` is the number of octets read, for `BadHexLine` the line number from 1, for `Memory` 0.
#[derive(Clone, Copy, Debug, PartialEq, Eq)]
pub struct FeedFault {
    /// The reason.
    pub reason: FeedReason,
    /// The offset of the faulty octet, or the number that the reason needs instead.
    pub place: u64,
}

impl FeedReason {
    /// Returns the number that output lines print for this reason.
    pub fn number(self) -> u8
        ensures { result ≡ feed_number_of self }
    {
        match self {
            FeedReason::Element(reason) => reason.number(),
            FeedReason::BadEnd => 20,
            FeedReason::CutRecord => 21,
            FeedReason::TooManyEntries => 22,
            FeedReason::Read => 23,
            FeedReason::BadHexLine => 24,
            FeedReason::Memory => 99,
        }
    }
}
