//! The kinds of faults, and a refutation by one of them.

ghost use Rattle.std.specs.Prelude.{◌≡◌};
ghost use Rattle.tcap_refute.specs.Kind.{kind_number};

/// A kind of fault: a fact about an entry and the entries before it since the last quiet mark. No end that keeps the
/// rules sends such an entry there.
///
/// `refute` knows F1 to F7, and `blame` of `tcap_faults` all fifteen.
#[derive(Clone, Copy, Debug, PartialEq, Eq)]
pub enum Kind {
    /// F1: The octets are no message (Q.773, X.690), for a reason that is no limit of this profile.
    BadMessage,
    /// F2: The peer sent nothing from the destination ID, or nothing that the Abort of the provider answers; or its
    /// cause is neither 1 nor 4, and no provider of this profile sends another (Q.774 3.3).
    UnknownTransaction,
    /// F3: A Begin from an ID that its end used before, or a Continue from an ID from which its end sent a Continue
    /// to another ID (Q.774 3.3). That an ID is used once between quiet marks is this profile's choice.
    ReusedId,
    /// F4: A Continue, an End, or an Abort without cause, after its own end ended the dialogue (Q.774 3.3).
    AfterEnd,
    /// F5: An answer or a Reject for something that the peer never sent (Q.774 3.2).
    AnswersNothing,
    /// F6: An Invoke of an operation that the table lacks or that a Unidirectional may not carry, or an answer that
    /// the class of no such invocation allows (Q.771 3.1).
    WrongOperation,
    /// F7: A dialogue portion that the message may not carry (Q.774 3.2).
    MisplacedDialogue,
    /// F8: No half of the end may send the message, or the end answered the half as closed (Q.774 3.3).
    WrongHalf,
    /// F9: The dialogue portion does not fit the state of the dialogue (Q.774 3.2).
    WrongDialogue,
    /// F10: An Invoke of an ID that is in use (Q.774 3.2).
    InvokeIdBusy,
    /// F11: A linked ID without an invocation, or whose operation does not list the linked one (Q.771 3.1).
    BadLink,
    /// F12: More answers to an invoke ID than its invocations allow (Q.774 3.2).
    AnsweredAlready,
    /// F13: A Reject with a problem that nothing received has (Q.774 3.2).
    RejectNotAllowed,
    /// F14: An Abort of the provider that answers nothing that is left (Q.774 3.3).
    WrongReply,
    /// F15: A half is open at a quiet mark.
    OpenAtMark,
}

impl Kind {
    /// Returns the number of this kind, which a line of output has after an F.
    pub fn number(self) -> u8
        ensures { result ≡ kind_number self }
    {
        match self {
            Kind::BadMessage => 1,
            Kind::UnknownTransaction => 2,
            Kind::ReusedId => 3,
            Kind::AfterEnd => 4,
            Kind::AnswersNothing => 5,
            Kind::WrongOperation => 6,
            Kind::MisplacedDialogue => 7,
            Kind::WrongHalf => 8,
            Kind::WrongDialogue => 9,
            Kind::InvokeIdBusy => 10,
            Kind::BadLink => 11,
            Kind::AnsweredAlready => 12,
            Kind::RejectNotAllowed => 13,
            Kind::WrongReply => 14,
            Kind::OpenAtMark => 15,
        }
    }
}

/// An entry that no end that keeps the rules sends, with the kind that shows it.
#[derive(Clone, Copy, Debug, PartialEq, Eq)]
pub struct Refutation {
    /// The number of the entry, from 0.
    pub entry: u64,
    /// Its kind.
    pub kind: Kind,
}
