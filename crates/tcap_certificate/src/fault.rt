//! The fault of a certificate: why it gives no run, and at which entry.

use tcap_model::Reason;

/// A refusal of a certificate, with the entry at which it happens.
#[derive(Clone, Copy, Debug, PartialEq, Eq)]
pub struct CheckFault {
    /// The reason why there is no run.
    pub reason: Reason,
    /// The number of the entry, from 0; it is 0 for `CertificateShape` and `Memory`.
    pub entry: u64,
}
