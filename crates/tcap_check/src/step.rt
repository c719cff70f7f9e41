//! Steps of a run.

use tcap_end::{EndFault, HalfName};
use tcap_msg::Message;
use tcap_record::End;

/// A step of a run of two ends over two channels (Q.774 3.2 and 3.3). Both ends keep the rules, or one of them.
/// Messages have the numbers of their entries in the record, from 0.
#[derive(Debug, Drop)]
pub enum Step {
    /// An end sends a message by the rules: the next entry.
    Sends(End, Message),
    /// An end that need not keep the rules sends a message: the next entry.
    Tells(End, Message),
    /// An end receives the message with this number from the other end.
    Receives(End, u64),
    /// The provider of an end answers the message with this number from the other end by an Abort: the next entry.
    Replies(End, u64),
    /// The message with this number from this end is lost.
    Loses(End, u64),
    /// The message with this number from this end is lost, since the other end cannot receive it, for this reason.
    Discards(End, u64, EndFault),
    /// An own invocation of an end, with this invoke ID on the half with this name, expires without a message.
    Expires(End, HalfName, i8),
    /// The half with this name closes at an end without a message.
    Closes(End, HalfName),
    /// A quiet mark, the next entry: nothing is on its way, and all halves are closed.
    Quiet,
}
