//! The status of a run.

ghost use Rattle.std.specs.Prelude.{◌≡◌};
ghost use Rattle.tcap_lines.specs.ShowRun.{status_number};

use thiserror::Error;

/// The status of a run that printed all that it had to.
#[derive(Clone, Copy, Debug, PartialEq, Eq)]
pub enum Status {
    /// No fault line was printed.
    Fine,
    /// An entry of the record is refuted or, if both ends are judged, blamed on an end.
    Refuted,
    /// Nothing shows that the record is lawful, and no entry is refuted or, if both ends are judged, blamed on an end.
    NotShown,
    /// A fault line was printed.
    Fault,
}

impl Status {
    /// Returns the exit status of the program: 0, 1, 2 or 3.
    pub fn number(self) -> u8
        ensures { result ≡ status_number self }
    {
        match self {
            Status::Fine => 0,
            Status::Refuted => 1,
            Status::NotShown => 2,
            Status::Fault => 3,
        }
    }
}

/// A failure of a writer. An unknown number of the first octets may have been written.
#[derive(Clone, Copy, Debug, PartialEq, Eq, Error)]
#[error("write failed")]
pub struct WriteFailed;
