//! A checker, which replays a certificate over entries that come one by one, for both ends or for one end alone. It
//! trusts neither the certificate nor a peer that is not judged.

ghost use Rattle.std.specs.Prelude.{◌≡◌, ◌≢◌, ◌++◌, ◌∷◌, [], List, length, map, None, Result, Ok, Err, IfOk, IsTrue, OnOk, is_ok};
ghost use Rattle.tcap_certificate.specs.declared.fault.CheckFault.{CheckFault as Refusal};
ghost use Rattle.tcap_model.specs.declared.reason.Reason.{Reason as Why};
ghost use Rattle.tcap_model.specs.declared.reason.Reason.TheVariants as reasons;
ghost use Rattle.tcap_model.specs.World.{Item};
ghost use Rattle.tcap_model.specs.Run.{Event, IsRunOf};
ghost use Rattle.tcap_model.specs.Entries.{item_of};
ghost use Rattle.tcap_record.specs.declared.entry.Entry.{Entry as Recorded};
ghost use Rattle.tcap_check.specs.GivenRun.{IsBounded, RefusesForGood, SaysLawful, ShowsReason};
ghost use Rattle.tcap_certificate.specs.HalfNames.{IsDescribedBy};
ghost use Rattle.tcap_check.specs.declared.checker.Report.{Report as Reported};
ghost use Rattle.tcap_certificate.specs.Replay.{certificate_fits, fault_at, run_by};
ghost use Rattle.tcap_check.specs.CheckerMeaning.{ReplayState, HasTaken, answer_of, count_ahead, count_waiting, map_ok, reading, reported};

use crate::replaying::Replaying;
use std::alloc::Global;
use std::marker::Model;
use tcap_ber::Fault;
use tcap_certificate::{Certificate, CheckFault};
use tcap_end::Table;
use tcap_model::Reason;
use tcap_msg::MessageParts;
use tcap_record::End;

/// The counts of a run that a certificate gives.
#[derive(Clone, Copy, Debug, PartialEq, Eq)]
pub struct Report {
    /// The number of steps.
    ///
    /// There is one step for each entry, delivery, loss and listed event, and for each earlier invocation that expired
    /// because its ID was invoked again. If one end is judged alone, the losses of messages from that end and the
    /// events listed for its peer do not count. Each half of the end that closes at a quiet mark does count.
    pub moves: u128,
    /// The number of the peer's messages that are lost, if one end is judged alone; else 0.
    ///
    /// A message is lost by the certificate, or because the judged end cannot receive it.
    pub unheard: u64,
}

/// The replay of a certificate over entries as they come, for both ends or for one end alone.
///
/// It keeps copies of the messages that wait. After a refusal, or after memory ran out, every later call returns the
/// same fault.
#[derive(Debug, Drop)]
pub struct Checker<'a> {
    // No message is lent to the replay, so a checker may be dropped after its table and its certificate.
    replaying: Replaying<'a, 'static>,
    // The fault that every later call returns, if there is one.
    fault: Option<CheckFault>,
}

impl<'a> Model for Checker<'a> {
    ghost use Rattle.std.specs.Prelude.{◌≡◌, None};
    ghost use Rattle.tcap_check.specs.CheckerMeaning.{CheckerState, so_far_of};
    ghost use Rattle.tcap_check.specs.ReplayInvariants.{IsReady, kept_in};

    ghost Value = { CheckerState };

    ghost view = { λ a. record {
      judged = a.replaying.judged;
      table = a.replaying.table.now;
      certificate = a.replaying.certificate.now;
      so_far = so_far_of a.fault (kept_in a.replaying);
    } };

    ghost invariant = { λ a. a.fault ≡ None → IsReady a.replaying };
}

impl<'a> Checker<'a> {
    /// Creates a checker that judges both ends and has taken no entry.
    ///
    /// # Errors
    ///
    /// `FateRange` if a number of the certificate is out of range, at the entry that this number belongs to; `Memory`
    /// if memory runs out.
    pub fn new(
        alloc: Global,
        table: &'a Table,
        certificate: &'a Certificate,
    ) -> Result<Checker<'a>, CheckFault>
        ensures took { IfOk result (λ checker. HasTaken checker [] × (checker.judged ≡ None)
            × (checker.table ≡ table.entry.now)
            × (checker.certificate ≡ certificate.entry.now)) }
        ensures fits { OnOk result (certificate_fits certificate.entry.now ≡ Ok tt) }
        ensures refused { (f : Refusal) → result ≡ Err f → f ≢ fault_at reasons.Memory 0
            → certificate_fits certificate.entry.now ≡ Err f }
    {
        Checker::judging(alloc, table, certificate, None)
    }

    /// Creates a checker that judges one end alone with `Some(end)`, or both with `None`, and has taken no entry.
    ///
    /// If one end is judged alone, what the certificate lists for the peer, and the fates of messages from that end,
    /// are checked only for their ranges.
    ///
    /// # Errors
    ///
    /// `FateRange` if a number of the certificate is out of range, at the entry that this number belongs to; `Memory`
    /// if memory runs out.
    pub fn judging(
        alloc: Global,
        table: &'a Table,
        certificate: &'a Certificate,
        judged: Option<End>,
    ) -> Result<Checker<'a>, CheckFault>
        ensures took { IfOk result (λ checker. HasTaken checker [] × (checker.judged ≡ judged)
            × (checker.table ≡ table.entry.now)
            × (checker.certificate ≡ certificate.entry.now)) }
        ensures fits { OnOk result (certificate_fits certificate.entry.now ≡ Ok tt) }
        ensures refused { (f : Refusal) → result ≡ Err f → f ≢ fault_at reasons.Memory 0
            → certificate_fits certificate.entry.now ≡ Err f }
    {
        let replaying = Replaying::new(alloc, table, certificate, judged, false)?;
        Ok(Checker {
            replaying,
            fault: None,
        })
    }

    /// Takes the next entry: a message that an end sent, or the fault of octets that are no message, from either end.
    ///
    /// If one end is judged alone, its peer may send any message.
    ///
    /// # Errors
    ///
    /// `FateCount`, `FateRange`, `OutOfOrder`, `BadReply`, `SendRefused`, `HiddenRefused` or `BadMessage` if the
    /// certificate gives no run of these entries, no matter which entries follow. `Memory` if memory runs out. Every
    /// later call returns the same fault.
    ///
    /// If one end is judged alone, `SendRefused` is only for messages from that end, and `OutOfOrder` only for messages
    /// from its peer.
    pub fn step<M: MessageParts>(
        &mut self,
        side: End,
        body: Result<&M, Fault>,
    ) -> Result<(), CheckFault>
        ensures took { (entries : List (Result Item Why)) → HasTaken self.old entries
            → result ≢ Err (fault_at reasons.Memory 0)
            → HasTaken self.new (entries ++ reading side (map_ok (λ m. M.meaning m.now) body.entry) ∷ []) }
        ensures refuses { RefusesForGood self.old (reading side (map_ok (λ m. M.meaning m.now) body.entry)) result }
        ensures answers { result ≡ answer_of self.new.so_far }
        ensures judged { self.new.judged ≡ self.old.judged }
        ensures table { self.new.table ≡ self.old.table }
        ensures certificate { self.new.certificate ≡ self.old.certificate }
        ensures for_ever { (f : Refusal) → self.old.so_far ≡ Err f → self.new ≡ self.old }
    {
        if let Some(fault) = self.fault {
            return Err(fault);
        }
        let answer = self.replaying.take_body(side, body);
        if let Err(fault) = answer {
            self.fault = Some(fault);
        }
        answer
    }

    /// Takes the next entry, a quiet mark: nothing is on its way, and no half is open.
    ///
    /// If one end is judged alone, its open halves close before the mark without a message.
    ///
    /// # Errors
    ///
    /// `FateCount`, `FateRange`, `BadReply`, `HiddenRefused` or `NotQuiet` if the certificate gives no run of these
    /// entries, no matter which entries follow. `Memory` if memory runs out. Every later call returns the same fault.
    pub fn mark(&mut self) -> Result<(), CheckFault>
        ensures took { (entries : List (Result Item Why)) → HasTaken self.old entries
            → result ≢ Err (fault_at reasons.Memory 0)
            → HasTaken self.new (entries ++ Ok Item.Quiet ∷ []) }
        ensures refuses { RefusesForGood self.old (Ok Item.Quiet) result }
        ensures answers { result ≡ answer_of self.new.so_far }
        ensures judged { self.new.judged ≡ self.old.judged }
        ensures table { self.new.table ≡ self.old.table }
        ensures certificate { self.new.certificate ≡ self.old.certificate }
        ensures for_ever { (f : Refusal) → self.old.so_far ≡ Err f → self.new ≡ self.old }
    {
        if let Some(fault) = self.fault {
            return Err(fault);
        }
        let answer = self.replaying.take_mark();
        if let Err(fault) = answer {
            self.fault = Some(fault);
        }
        answer
    }

    /// Refuses the next entry, which is neither a message nor a quiet mark: `NoItem`, or `FateCount` if it has no fate.
    /// Every later call returns the same fault.
    pub(crate) fn no_item(&mut self) -> Result<(), CheckFault>
        ensures took { (entries : List (Result Item Why)) → HasTaken self.old entries
            → HasTaken self.new (entries ++ Err reasons.NoItem ∷ []) }
        ensures refuses { RefusesForGood self.old (Err reasons.NoItem) result }
        ensures answers { result ≡ answer_of self.new.so_far }
        ensures judged { self.new.judged ≡ self.old.judged }
        ensures table { self.new.table ≡ self.old.table }
        ensures certificate { self.new.certificate ≡ self.old.certificate }
        ensures for_ever { (f : Refusal) → self.old.so_far ≡ Err f → self.new ≡ self.old }
    {
        if let Some(fault) = self.fault {
            return Err(fault);
        }
        let fault = self.replaying.refuse(Reason::NoItem);
        self.fault = Some(fault);
        Err(fault)
    }

    /// Counts the messages that wait: a judged end receives them, or its provider answers them, after the entries so
    /// far.
    ///
    /// The call goes over all messages on their way. After a refusal the number has no meaning.
    pub fn pending(&self) -> usize
        ensures kept { (k : ReplayState) → self.now.so_far ≡ Ok k → result ≡ count_waiting self.now.judged k.progress }
        ensures ahead { (entries : List (Result Item Why)) → HasTaken self.now entries → IsTrue (is_ok self.now.so_far)
            → result ≡ count_ahead self.now.judged (length entries) self.now.certificate.fates entries }
    {
        let progress = &self.replaying.progress;
        match self.replaying.judged {
            None => progress.a.count_kept() + progress.b.count_kept(),
            Some(judged) => progress.side_state(judged.other()).count_kept(),
        }
    }

    /// Ends the record after the entries so far, and returns the counts of the run.
    ///
    /// The entries are items, and two ends that keep the rules may have sent them, or the end that is judged alone may
    /// have sent its part of them. If both ends are judged, and the certificate describes such a run, the result is Ok.
    ///
    /// # Errors
    ///
    /// The fault of an earlier call. `FateCount`, `FateRange`, `BadReply` or `HiddenRefused` if the certificate gives
    /// no run of these entries. `Memory` if memory runs out.
    pub fn finish(self) -> Result<Report, CheckFault>
        ensures for_ever { (f : Refusal) → self.entry.so_far ≡ Err f → result ≡ Err f }
        ensures finished { (entries : List (Result Item Why)) → HasTaken self.entry entries
            → result ≢ Err (fault_at reasons.Memory 0)
            → result ≡ map_ok (reported self.entry.judged)
            (run_by self.entry.judged self.entry.table self.entry.certificate entries) }
        ensures lawful { (entries : List (Result Item Why)) (report : Reported) → HasTaken self.entry entries
            → result ≡ Ok report
            → (items : List Item) × (map (λ item. Ok item) items ≡ entries)
            × SaysLawful self.entry.judged items self.entry.table report }
        ensures described { (items : List Item) (events : List Event)
            → HasTaken self.entry (map (λ item. Ok item) items)
            → IsRunOf items self.entry.table events → IsDescribedBy self.entry.table self.entry.certificate items events
            → self.entry.judged ≡ None → result ≢ Err (fault_at reasons.Memory 0) → result ≡ Ok (reported None events) }
        ensures refuses { (entries : List Recorded) (f : Refusal) → HasTaken self.entry (map item_of entries)
            → result ≡ Err f
            → f ≢ fault_at reasons.Memory 0
            → ShowsReason self.entry.judged self.entry.table self.entry.certificate entries f }
        ensures bound { (items : List Item) (report : Reported) → HasTaken self.entry (map (λ item. Ok item) items)
            → result ≡ Ok report
            → IsBounded self.entry.judged self.entry.certificate items report }
    {
        match self.fault {
            Some(fault) => Err(fault),
            None => self.replaying.finish(),
        }
    }
}
