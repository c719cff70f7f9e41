//! The first octets of entries, and the fault if memory runs out.

ghost use Rattle.std.specs.Prelude.{◌≡◌};
ghost use Rattle.tcap_record.specs.declared.fault.FeedReason.{FeedReason};
ghost use Rattle.tcap_record.specs.RecordOctets.{octet_of};
ghost use Rattle.tcap_record.specs.FramingResult.{end_in};

use crate::entry::End;
use crate::fault::{FeedFault, FeedReason};
use std::alloc::{AllocError, AllocFailed};

/// The greatest number of entries of a record, this profile's limit.
pub(crate) const ENTRY_LIMIT: usize = 100_000;

/// The octet of a quiet mark.
pub(crate) const QUIET_OCTET: u8 = 0x51;

pub(crate) const OUT_OF_MEMORY: FeedFault = FeedFault {
    reason: FeedReason::Memory,
    place: 0,
};

impl From<AllocError> for FeedFault {
    ghost use Rattle.tcap_record.specs.FramingResult.{feed_fault};

    ghost from_gives = { λ _ fault. fault ≡ feed_fault FeedReason.Memory 0 };

    fn from(_: AllocError) -> FeedFault {
        OUT_OF_MEMORY
    }
}

impl<T: Drop> From<AllocFailed<T>> for FeedFault {
    ghost use Rattle.tcap_record.specs.FramingResult.{feed_fault};

    ghost from_gives = { λ _ fault. fault ≡ feed_fault FeedReason.Memory 0 };

    fn from(_: AllocFailed<T>) -> FeedFault {
        OUT_OF_MEMORY
    }
}

/// Returns the octet of an end.
pub(crate) fn octet_of(side: End) -> u8
    ensures { result ≡ octet_of side }
{
    match side {
        End::A => 0x41,
        End::B => 0x42,
    }
}

/// Returns the end with this octet, or `None` if it is not an end's.
pub(crate) fn end_of(octet: u8) -> Option<End>
    ensures { result ≡ end_in octet }
{
    match octet {
        0x41 => Some(End::A),
        0x42 => Some(End::B),
        _ => None,
    }
}
