//! The reasons why printing stops before the end.

ghost use Rattle.std.specs.Prelude.{◌≡◌};
ghost use Rattle.tcap_record.specs.declared.fault.FeedReason.{FeedReason};
ghost use Rattle.tcap_record.specs.FramingResult.{feed_fault};
ghost use Rattle.tcap_lines.specs.declared.stop.Stop.{Stop};

use std::alloc::AllocError;
use tcap_ber::Failed;
use tcap_record::FeedFault;

/// The reason why no more lines of a record are written.
#[derive(Clone, Copy, Debug, PartialEq, Eq)]
pub enum Stop {
    /// The input has a fault, the reader failed, or memory ran out.
    Fault(FeedFault),
    /// The writer failed.
    Write,
}

impl From<FeedFault> for Stop {
    ghost from_gives = { λ fault stop. stop ≡ Stop.Fault fault };

    fn from(fault: FeedFault) -> Stop {
        Stop::Fault(fault)
    }
}

impl From<AllocError> for Stop {
    ghost from_gives = { λ _ stop. stop ≡ Stop.Fault (feed_fault FeedReason.Memory 0) };

    fn from(error: AllocError) -> Stop {
        Stop::Fault(FeedFault::from(error))
    }
}

impl From<Failed> for Stop {
    ghost from_gives = { λ _ stop. stop ≡ Stop.Write };

    fn from(_: Failed) -> Stop {
        Stop::Write
    }
}
