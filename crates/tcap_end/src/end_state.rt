//! One end of TCAP dialogues, as a state that steps change.

ghost use Rattle.std.specs.Prelude.{◌≡◌, ◌≢◌, Err, IfOk, IsSome, MatchOption, None, OnErr, Some, is_ok, is_some, length};
ghost use Rattle.tcap_msg.specs.declared.kind.Kind.TheVariants as Kind;
ghost use Rattle.tcap_msg.specs.Parts.{kind_in, otid_in};
ghost use Rattle.tcap_end.specs.declared.fault.EndFault.TheVariants as EndFault;
ghost use Rattle.tcap_end.specs.Step.{Answers, AnswersInMemory, AnswersNumber};
ghost use Rattle.tcap_end.specs.End.{named, nothing, quiet};
ghost use Rattle.tcap_end.specs.Message.{receive, send};
ghost use Rattle.tcap_end.specs.Reply.{refuse_begin, refuse_continue};
ghost use Rattle.tcap_end.specs.HiddenSteps.{close, expire, open_halves, open_named, quiet_after_closings};
ghost use Rattle.tcap_end.specs.ReachableEnd.{IsEnd};

use crate::changes::Changes;
use crate::end_replies::{refuse_begin, refuse_continue};
use crate::fault::EndFault;
use crate::half::{HalfName, Slot};
use crate::half_view::OpenHalf;
use crate::halves::Halves;
use crate::table::Table;
use std::alloc::{AllocError, Global};
use std::fmt;
use std::marker::Model;
use tcap_msg::MessageParts;

/// One end of TCAP dialogues: the halves of its transactions (Q.774 3.3) with their invocations (Q.774 3.2).
///
/// The end checks whether it may send a message, and receives the peer's messages. Its value is an end for which the
/// laws hold (`laws::is_end`).
#[derive(Drop)]
pub struct EndState {
    alloc: Global,
    halves: Halves,
    /// The changes of the message that is being taken. The memory of a short list is used again for the next message.
    changes: Changes,
}

// The changes are not printed: the list is empty between two messages.
impl fmt::Debug for EndState {
    fn fmt<W: fmt::Write>(&self, f: &mut fmt::Formatter<W>) -> fmt::Result {
        f.debug_struct("EndState")
            .field("alloc", &self.alloc)
            .field("halves", &self.halves)
            .finish()
    }
}

impl Model for EndState {
    ghost use Rattle.tcap_end.specs.End.{End};
    ghost use Rattle.tcap_end.specs.ReachableEnd.{IsEnd};
    ghost use Rattle.tcap_end.specs.Halves.{AllPlaced, IsHeld, end_of};

    ghost Value = { End };

    ghost view = { λ a. end_of a.halves };

    ghost invariant = { λ a. IsHeld a.halves × AllPlaced a.halves × IsEnd (end_of a.halves) };
}

impl EndState {
    /// Creates an end without halves.
    pub fn new(alloc: Global) -> EndState
        ensures { result ≡ nothing }
    {
        EndState {
            alloc,
            halves: Halves::new(alloc),
            changes: Changes::new(alloc),
        }
    }

    /// Sends a message (Q.774 3.2 and 3.3), by the operations of `table`.
    ///
    /// # Errors
    ///
    /// The first fault in this order. Of the half: `IdUsed`, `NoTransaction` or `WrongPhase`. Of the dialogue portion:
    /// `WrongDialogue`. Of the components, one by one: `UnknownOperation` to `RejectNotAllowed`, and `UniNotClass4`.
    ///
    /// An Abort with a cause is `WrongPhase`, because only a provider sends it. `Memory` if memory runs out, which an
    /// Abort never returns. After an error the end is unchanged.
    pub fn send<M: MessageParts>(&mut self, table: &Table, message: &M) -> Result<(), EndFault>
        ensures step { AnswersInMemory (send table.now self.old (M.meaning message.now)) result self.new }
        ensures kept { OnErr result (self.new ≡ self.old) }
        ensures aborts { kind_in (M.meaning message.now) ≡ Kind.Abort → result ≢ Err EndFault.Memory }
    {
        self.halves.send(&mut self.changes, table, message)
    }

    /// Receives a message (Q.774 3.2 and 3.3), by the operations of `table`.
    ///
    /// An End, an Abort or a Unidirectional, which have no originating ID, never fails and allocates nothing.
    ///
    /// # Errors
    ///
    /// `NoTransaction`, `IdUsed` or `WrongDialogue` if the end cannot receive the message; `Memory` if memory runs
    /// out. After an error the end is unchanged.
    pub fn receive<M: MessageParts>(&mut self, table: &Table, message: &M) -> Result<(), EndFault>
        ensures step { AnswersInMemory (receive table.now self.old (M.meaning message.now)) result self.new }
        ensures kept { OnErr result (self.new ≡ self.old) }
        ensures only { OnErr result (IsSome (otid_in (M.meaning message.now))) }
    {
        self.halves.receive(&mut self.changes, table, message)
    }

    /// Checks whether the provider may answer a Begin with this Abort in place of the end (Q.774 3.3).
    ///
    /// The Abort must have cause 4 and the Begin's originating ID, and no half may have that ID as the peer's.
    ///
    /// # Errors
    ///
    /// `NoTransaction` if the provider may not.
    pub fn refuse_begin<B: MessageParts, A: MessageParts>(
        &self,
        begin: &B,
        abort: &A,
    ) -> Result<(), EndFault>
        ensures { result ≡ refuse_begin self.now (B.meaning begin.now) (A.meaning abort.now) }
    {
        refuse_begin(&self.halves, begin, abort)
    }

    /// Checks whether the provider may answer a Continue with this Abort in place of the end (Q.774 3.3).
    ///
    /// The Abort must have cause 1 and the Continue's originating ID, and no open half may have the Continue's
    /// destination ID as its own.
    ///
    /// # Errors
    ///
    /// `NoTransaction` if the provider may not.
    pub fn refuse_continue<C: MessageParts, A: MessageParts>(
        &self,
        continued: &C,
        abort: &A,
    ) -> Result<(), EndFault>
        ensures { result ≡ refuse_continue self.now (C.meaning continued.now) (A.meaning abort.now) }
    {
        refuse_continue(&self.halves, continued, abort)
    }

    /// Lets an own invocation expire (Q.774 3.2), without allocating.
    ///
    /// Its timer ran out or the user cancelled it, which the table must allow; or its last answer was received, and
    /// its ID becomes free again.
    ///
    /// # Errors
    ///
    /// `CannotExpire` if the invocation may not expire. The end is unchanged then.
    pub fn expire(&mut self, table: &Table, name: HalfName, invoke: i8) -> Result<(), EndFault>
        ensures step { Answers (expire table.now self.old name invoke) result self.new }
        ensures kept { OnErr result (self.new ≡ self.old) }
    {
        self.halves.expire(table, name, invoke)
    }

    /// Closes a half without a message (Q.774 3.3), and without allocating.
    ///
    /// Its Begin is given up, or it ends by prearrangement, which the table must allow.
    ///
    /// # Errors
    ///
    /// `CannotClose` if the half may not close. The end is unchanged then.
    pub fn close(&mut self, table: &Table, name: HalfName) -> Result<(), EndFault>
        ensures step { Answers (close table.now self.old name) result self.new }
        ensures kept { OnErr result (self.new ≡ self.old) }
    {
        self.halves.close_named(table, name)
    }

    /// Returns whether all halves are closed, so that a quiet mark may come.
    pub fn is_quiet(&self) -> bool
        ensures { result ≡ is_ok (quiet self.now) }
    {
        self.halves.all_closed()
    }

    /// Returns the names of the open halves.
    ///
    /// Halves whose Begin this end sent come first, by their own transaction IDs; then the others, by the peer's IDs.
    /// Both are in the order of these IDs.
    ///
    /// # Errors
    ///
    /// AllocError if memory runs out.
    pub fn open_halves(&self, alloc: Global) -> Result<Vec<HalfName>, AllocError>
        ensures { IfOk result (λ names. names.items ≡ open_halves self.now) }
    {
        let mut names = Vec::new(alloc);
        self.halves.push_open(Slot::Begun, &mut names)?;
        self.halves.push_open(Slot::Accepted, &mut names)?;
        Ok(names)
    }

    /// Returns whether there is a half with this name, open or closed (Q.774 3.3).
    pub fn knows(&self, name: &HalfName) -> bool
        ensures { result ≡ is_some (named self.now name.now) }
    {
        self.halves.knows(name)
    }

    /// Returns a view of the open half with this name (Q.774 3.2 and 3.3), or `None` if there is none or it is closed.
    pub fn open_half(&self, name: &HalfName) -> Option<OpenHalf<'_>>
        ensures { MatchOption result (open_named self.now name.now ≡ None)
            (λ half. open_named self.now name.now ≡ Some half) }
    {
        Some(OpenHalf::of(self.halves.open_named(name)?))
    }

    /// Shows that the value of this state is an end for which the laws hold.
    pub(crate) fn is_end(&self)
        ensures { IsEnd self.now }
    {
        let _ = self.halves.all_closed();
    }

    /// Takes a quiet mark, after which there are no halves and no used IDs. Allocates nothing, and frees all memory of
    /// the halves.
    ///
    /// # Errors
    ///
    /// `StillOpen` if a half is open. The end is unchanged then.
    pub fn quiet(&mut self) -> Result<(), EndFault>
        ensures step { Answers (quiet self.old) result self.new }
        ensures kept { OnErr result (self.new ≡ self.old) }
    {
        if !self.halves.all_closed() {
            return Err(EndFault::StillOpen);
        }
        *self = EndState::new(self.alloc);
        Ok(())
    }

    /// Takes a quiet mark before which each open half closes without a message (Q.774 3.3), and returns how many
    /// closed.
    ///
    /// Each gives up its Begin, or ends by prearrangement, which the table must allow. Afterwards there are no halves
    /// and no used IDs. Allocates nothing.
    ///
    /// # Errors
    ///
    /// `CannotClose` if a half may not close. The end is unchanged then.
    pub fn quiet_after_closings(&mut self, table: &Table) -> Result<usize, EndFault>
        ensures step { AnswersNumber (quiet_after_closings table.now self.old) (length (open_halves self.old)) result
            self.new }
        ensures kept { OnErr result (self.new ≡ self.old) }
    {
        let Some(closed) = self.halves.closing(table) else {
            return Err(EndFault::CannotClose);
        };
        *self = EndState::new(self.alloc);
        Ok(closed)
    }
}
