//! The reasons why a certificate gives no run of the given entries.

ghost use Rattle.std.specs.Prelude.{◌≡◌};
ghost use Rattle.tcap_model.specs.Reason.{reason_number};

use tcap_ber::Fault;
use tcap_end::EndFault;

/// The reason why a certificate gives no run of a record.
#[derive(Clone, Copy, Debug, PartialEq, Eq)]
pub enum Reason {
    /// The text is not a certificate.
    CertificateShape,
    /// The number of fates is not the number of entries.
    FateCount,
    /// A fate, expiry or closing is outside the gaps allowed for it, or names an entry of the wrong kind.
    FateRange,
    /// A message is delivered before an earlier message of the same end.
    OutOfOrder,
    /// An end may not receive a message, or its provider may not answer the message. Or a provider's reply does not
    /// take exactly one message, or an entry that is no provider's reply takes one.
    BadReply,
    /// The sender of an entry may not send it then.
    SendRefused(EndFault),
    /// A listed expiry or closing may not happen then.
    HiddenRefused(EndFault),
    /// Something is in transit or open at a quiet mark.
    NotQuiet,
    /// The octets of an entry are not a message.
    BadMessage(Fault),
    /// An entry has a message without an end, or a quiet mark with an end. The reader never produces such an entry.
    NoItem,
    /// Memory ran out.
    Memory,
}

impl Reason {
    /// Returns the number that the output gives for this reason.
    pub fn number(self) -> u8
        ensures { result ≡ reason_number self }
    {
        match self {
            Reason::CertificateShape => 60,
            Reason::FateCount => 61,
            Reason::FateRange => 62,
            Reason::OutOfOrder => 63,
            Reason::BadReply => 64,
            Reason::SendRefused(_) => 65,
            Reason::HiddenRefused(_) => 66,
            Reason::NotQuiet => 67,
            Reason::BadMessage(_) => 68,
            Reason::NoItem => 69,
            Reason::Memory => 99,
        }
    }
}
