//! Events that a certificate lists for its gaps.

ghost use Rattle.std.specs.Prelude.{◌≡◌};
ghost use Rattle.tcap_check.specs.ListedSteps.{side_of};

use tcap_certificate::{Closing, Expiry};
use tcap_record::End;

/// A closing or an expiry, which no entry shows.
#[derive(Clone, Copy, Debug)]
pub enum ListedStep {
    /// A half closes.
    Closes(Closing),
    /// An invocation expires.
    Expires(Expiry),
}

impl ListedStep {
    /// Returns the end at which the event happens.
    pub(crate) fn side(&self) -> End
        ensures { result ≡ side_of self.now }
    {
        match self {
            ListedStep::Closes(x) => x.side,
            ListedStep::Expires(x) => x.side,
        }
    }
}
