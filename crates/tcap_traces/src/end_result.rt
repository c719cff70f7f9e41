//! The result for an end of a dialogue.

ghost use Rattle.std.specs.Prelude.{◌≡◌};
ghost use Rattle.tcap_traces.specs.Verdict.{verdict_of};

use crate::verdict::Verdict;
use tcap_readings::Way;
use tcap_record::End;
use tcap_refute::Refutation;

/// A reason why a blame is inconclusive: it depends on more than the end.
#[derive(Clone, Copy, Debug, PartialEq, Eq)]
pub enum Doubt {
    /// The dialogue may have begun before its trace, which then lacks its Begin.
    UnderWay,
    /// The quiet mark before the dialogue may have come too early: the dialogue has IDs that were in use before it.
    EarlyMark,
    /// The blame is about a quiet mark, and only the bench says that all was quiet.
    AtMark,
    /// The entry at fault invokes or answers an operation that is not in the table.
    LackingOperation,
    /// The blame is about a Begin that reuses an ID, whose transaction may be over: the peer sent nothing to it, or the
    /// table has prearranged end.
    MaybeOver,
    /// The blame depends on the row of an operation in the table, and the table may not be the dialogue's.
    UnsureTable,
    /// An earlier dialogue of the segment had one of the dialogue's IDs, and a message of it may have been in transit.
    CameAgain,
    /// The peer began the dialogue after the bench said that dialogues may be under way, and may have used its ID just
    /// before.
    UsedBefore,
    /// An unreadable entry comes before the entry at fault, and may belong to the dialogue.
    Unread,
}

/// The result for an end of a dialogue.
#[derive(Clone, Copy, Debug, PartialEq, Eq)]
pub enum EndResult {
    /// The end may have sent its part, with this many unheard messages of its peer.
    Pass(u64),
    /// The end broke the rules in this entry.
    Fail(Refutation),
    /// The end broke the rules in this entry, unless the doubt is justified.
    Doubtful(Refutation, Doubt),
    /// No run was found in which the end keeps the rules, and none of its entries is blamed.
    Undecided,
    /// The end may have sent its part before this entry. The entry is no message, and the end sent it or a later entry.
    AfterBadEntry(u64),
    /// The end may have sent its part of the entries, but the dialogue may have begun before its trace, which then
    /// lacks its Begin.
    UnderWay,
    /// The end may have sent its part of the entries, but the quiet mark before the dialogue may have come too early.
    EarlyMark,
    /// The end may have sent its part of the entries that are judged, but the dialogue has more.
    TooLong,
    /// The end may have sent its part by one table, but the table may not be the dialogue's.
    UnsureTable,
    /// The end may have sent its part, but the dialogue should be complete and is still open at the end of its trace.
    Open,
    /// The end may have sent its part, but it did not hear this many messages of its peer, and should have heard each.
    Unheard(u64),
    /// The end may have sent its part if it took a malformed message of its peer in this way, with this many unheard
    /// messages.
    PassBy(Taken, u64),
    /// The end broke the rules in its reaction to a malformed message of its peer.
    FailBy(ReactionFault),
    /// The end broke the rules in its reaction to a malformed message of its peer, unless the doubt is justified.
    DoubtfulBy(ReactionFault, Doubt),
    /// The peer sent several malformed messages. These are the first two.
    SeveralMalformed(u64, u64),
    /// The end may have sent its part only if an Abort answers this malformed message of its peer that Q.774 does not
    /// name for it, or after which the end goes on.
    UnlikelyAnswer(u64),
    /// By some way of taking this malformed message of its peer, it is open if the end may have sent its part, or its
    /// blame is in doubt. It may have sent its part by no other way.
    UnclearReading(u64),
    /// The end goes on as if this malformed entry of its peer had been a message.
    AsIfMessage(u64),
}

/// The way in which an end took a malformed message of its peer.
#[derive(Clone, Copy, Debug, PartialEq, Eq)]
pub struct Taken {
    /// The number of the malformed message in the dialogue, counted from 0.
    pub entry: u64,
    /// The way.
    pub way: Way,
}

/// A fault of an end in its reaction to a malformed message of its peer.
#[derive(Clone, Copy, Debug, PartialEq, Eq)]
pub enum ReactionFault {
    /// The end is blamed no matter how it took the message. This is the last of its faults.
    Wrong(Refutation),
    /// The end aborts the transaction of the message in the entry `answer`, and goes on with it in `entry`.
    GoesOn { answer: u64, entry: u64 },
}

/// The circumstances of a dialogue, besides its entries.
#[derive(Clone, Copy, Debug, PartialEq, Eq)]
pub struct Circumstances {
    /// True if an earlier dialogue had one of this dialogue's IDs, and a message of the earlier one may have been in
    /// transit.
    pub again: bool,
    /// True if the dialogue may have begun before its trace: its first entry is a message with a destination ID that
    /// comes after the directive `under way`, and no earlier dialogue of the segment had one of its IDs.
    pub under_way: bool,
    /// True if the quiet mark before the dialogue may have come too early: the dialogue has IDs that were in use before
    /// that mark.
    pub early_mark: bool,
    /// The end whose Begin began the dialogue after the bench said that dialogues may be under way, unless IDs have
    /// settled.
    pub began: Option<End>,
    /// True if the table by which the dialogue is judged may not be its own.
    pub unsure: bool,
    /// The number of the first entry of the dialogue that comes after an unreadable entry which may belong to the
    /// dialogue.
    pub unread_from: Option<u64>,
    /// True if the dialogue has more entries than are judged.
    pub cut: bool,
    /// True if the dialogue is still open after its last entry, but should be complete.
    pub open: bool,
    /// True if each end should have heard each message of its peer.
    pub heard: bool,
}

impl EndResult {
    /// Returns the verdict on the end.
    pub fn verdict(self) -> Verdict
        ensures { result ≡ verdict_of self }
    {
        match self {
            EndResult::Pass(_) | EndResult::PassBy(..) => Verdict::Pass,
            EndResult::Fail(_) | EndResult::FailBy(_) => Verdict::Fail,
            _ => Verdict::Inconclusive,
        }
    }
}
