//! The reasons why the reading of a trace stops.

ghost use Rattle.std.specs.Prelude.{◌≡◌};
ghost use Rattle.tcap_report.specs.declared.fault.Halt.TheVariants as halts;
ghost use Rattle.tcap_report.specs.declared.fault.Stop.TheVariants as stops;

use std::alloc::AllocError;

/// The reason why a run stops.
#[derive(Clone, Copy, Debug, PartialEq, Eq)]
pub enum Stop {
    /// Memory ran out.
    Memory,
    /// A report could not be written.
    Write,
}

impl From<AllocError> for Stop {
    fn from(_error: AllocError) -> Stop {
        Stop::Memory
    }
}

/// A fault of the form of a trace.
#[derive(Drop)]
pub(crate) struct FormFault {
    /// The line number, counted from 1, if the trace has lines.
    pub(crate) line: Option<u64>,
    /// The fault in words.
    pub(crate) text: String,
}

/// The reason why a trace is read no further.
#[derive(Drop)]
pub(crate) enum Halt {
    /// The form of the trace has a fault, or the reader failed.
    Form(FormFault),
    /// The run stops.
    Stop(Stop),
}

impl From<AllocError> for Halt {
    ghost from_gives = { λ _ halt. halt ≡ halts.Stop stops.Memory };

    fn from(_error: AllocError) -> Halt {
        Halt::Stop(Stop::Memory)
    }
}

impl From<Stop> for Halt {
    ghost from_gives = { λ stop halt. halt ≡ halts.Stop stop };

    fn from(stop: Stop) -> Halt {
        Halt::Stop(stop)
    }
}
