//! A replay of a certificate over entries, for both ends or for one end alone.

ghost use Rattle.std.specs.Prelude.{◌≡◌, ◌≢◌, ◌++◌, ◌∷◌, ◌+◌, ◌<◌, ◌≤◌, ◌^◌, [], List, length, not, slice_get, true, ◌||◌, Bool, Some, Result, Ok, Err, IfOk, IfSome, OnOk, ok_or};
ghost use Rattle.tcap_certificate.specs.declared.fault.CheckFault.{CheckFault as Refusal};
ghost use Rattle.tcap_model.specs.declared.reason.Reason.{Reason as Why};
ghost use Rattle.tcap_model.specs.declared.reason.Reason.TheVariants as reasons;
ghost use Rattle.tcap_model.specs.World.{Item, Sent};
ghost use Rattle.tcap_check.specs.EntryOutlines.{outline_of};
ghost use Rattle.tcap_check.specs.Progress.{GrewBy, YieldsInMemory, load, overtakes, side_at, unheard_load};
ghost use Rattle.tcap_certificate.specs.Replay.{certificate_fits, discards_by, fault_at, is_gap, run_by};
ghost use Rattle.tcap_check.specs.ReportedSteps.{discards_of, events_of};
ghost use Rattle.tcap_check.specs.CheckerMeaning.{HasTakenListing, gap_before, is_alone, kept_ended, kept_next, map_ok, reading, reported, tied_now};
ghost use Rattle.tcap_check.specs.ReplaySteps.{mark_taken, message_taken};
ghost use Rattle.tcap_check.specs.Plan.{IsPlan, flag_by};
ghost use Rattle.tcap_check.specs.RefusedReplay.{IsListing, Leaves, end_left, entry_left, gap_left, mark_left, taken_left};
ghost use Rattle.tcap_check.specs.RunSoFar.{IsListed, ShowsSend, UnlessMemory};
ghost use Rattle.tcap_check.specs.ReplayInvariants.{IsReady, IsSameBesideEntries, IsSameBesideProgress, checking_of, kept_in};

use crate::checker::Report;
use crate::deliveries::sent_among;
use crate::outline::Outline;
use crate::plan::{Plan, check_ranges};
use crate::progress::{OUT_OF_MEMORY, Progress};
use crate::step::Step;
use std::alloc::Global;
use tcap_ber::Fault;
use tcap_certificate::{Certificate, CheckFault, Fate};
use tcap_end::Table;
use tcap_model::Reason;
use tcap_msg::{Message, MessageParts};
use tcap_record::End;

/// A replay between entries. Of the entries so far it keeps the messages that wait, who sent each, and the IDs of those
/// that listed events name. Messages that outlive the replay (`'r`) are lent, others are copied.
#[derive(Debug, Drop)]
pub(crate) struct Replaying<'a, 'r> {
    alloc: Global,
    // The end that is judged alone, or `None` if both are.
    pub(crate) judged: Option<End>,
    table: &'a Table,
    certificate: &'a Certificate,
    plan: Plan,
    pub(crate) progress: Progress<'r>,
    entries: Vec<Outline>,
    since: usize,
}

impl<'a, 'r> Replaying<'a, 'r> {
    /// Creates a replay that has taken no entry, and lists its steps if `listed`. Fails with `FateRange` if a number of
    /// the certificate is out of range, at the entry that this number belongs to, or with `Memory`.
    pub(crate) fn new(
        alloc: Global,
        table: &'a Table,
        certificate: &'a Certificate,
        judged: Option<End>,
        listed: bool,
    ) -> Result<Replaying<'a, 'r>, CheckFault>
        ensures ready { IfOk result (λ replaying. IsReady replaying) }
        ensures took { IfOk result (λ replaying. HasTakenListing listed (checking_of replaying) []
            × (replaying.judged ≡ judged)
            × (replaying.table.now ≡ table.entry.now) × (replaying.certificate.now ≡ certificate.entry.now)) }
        ensures fits { OnOk result (certificate_fits certificate.entry.now ≡ Ok tt) }
        ensures refused { (f : Refusal) → result ≡ Err f → f ≢ fault_at reasons.Memory 0
            → certificate_fits certificate.entry.now ≡ Err f }
    {
        check_ranges(certificate)?;
        let Ok(plan) = Plan::new(alloc, certificate) else {
            return Err(OUT_OF_MEMORY);
        };
        let Ok(entries) = Vec::with_capacity(alloc, certificate.fates().len()) else {
            return Err(OUT_OF_MEMORY);
        };
        Ok(Replaying {
            alloc,
            judged,
            table,
            certificate,
            plan,
            progress: Progress::new(alloc, listed),
            entries,
            since: 0,
        })
    }

    /// Returns the refusal of the next entry for this reason.
    fn refusal(&self, reason: Reason) -> CheckFault
        ensures { result ≡ fault_at reason (length self.now.entries.items) }
    {
        CheckFault {
            reason,
            entry: self.entries.len() as u64,
        }
    }

    /// Returns the fate of the next entry. Fails with `FateCount` if it has none.
    fn fate(&self) -> Result<Fate, CheckFault>
        ensures { result ≡ ok_or (slice_get self.now.certificate.now.fates (length self.now.entries.items))
            (fault_at reasons.FateCount (length self.now.entries.items)) }
    {
        match self.certificate.fates().get(self.entries.len()) {
            Some(fate) => Ok(*fate),
            None => Err(self.refusal(Reason::FateCount)),
        }
    }

    /// Returns whether an expiry or a closing of the certificate names the next entry.
    fn is_named(&self) -> bool
        ensures { result ≡ flag_by (slice_get self.now.plan.named.items (length self.now.entries.items)) }
    {
        matches!(self.plan.named.get(self.entries.len()), Some(true))
    }

    /// Returns whether a message with this fate overtakes no earlier message of its end. Messages of an end that is
    /// judged alone are always in order, since nobody receives them.
    fn is_in_order(&self, side: End, fate: Fate) -> bool
        ensures { result ≡ is_alone self.now.judged side || not (overtakes fate (side_at side self.now.progress)) }
    {
        self.judged == Some(side) || !self.progress.side_state(side).overtakes(fate)
    }

    /// Returns the peer's messages that the next entry takes, if this end is judged alone. Fails if memory runs out.
    fn tied_to(&self, judged: End) -> Result<Vec<u32>, CheckFault>
        requires plan { IsPlan self.now.certificate.now self.now.plan }
        requires within { length self.now.entries.items ≤ length self.now.certificate.now.fates }
        ensures tied { IfOk result
            (λ tied. tied.items ≡ tied_now (Some judged) self.now.certificate.now (kept_in self.now)) }
        ensures memory { (f : Refusal) → result ≡ Err f → f ≡ fault_at reasons.Memory 0 }
    {
        let takes = self.plan.taken.get(self.entries.len());
        match sent_among(self.alloc, &self.entries, judged.other(), takes) {
            Ok(tied) => Ok(tied),
            Err(_) => Err(OUT_OF_MEMORY),
        }
    }

    /// Makes the steps of the gap before the next entry. Fails with the first that cannot happen, or with `Memory`.
    fn pass_gap(&mut self) -> Result<(), CheckFault>
        requires ready { IsReady self.old }
        ensures passed { YieldsInMemory (gap_before self.old.judged self.old.table.now self.old.certificate.now
            (kept_in self.old)) result self.new.progress }
        ensures left { Leaves
            (gap_left self.old.judged self.old.table.now self.old.certificate.now self.old.entries.items self.old.since
            self.old.progress) result self.new.progress }
        ensures grows { OnOk result (GrewBy (2 ^ 66) 0 self.old.progress self.new.progress) }
        ensures others { IsSameBesideProgress self.old self.new }
    {
        self.progress.pass_gap(
            self.table,
            self.certificate,
            &self.plan,
            self.judged,
            &self.entries,
            self.since,
        )
    }

    /// Appends the outline of the next entry. Fails if memory runs out.
    fn keep(&mut self, outline: Outline) -> Result<(), CheckFault>
        ensures kept { OnOk result (self.new.entries.items ≡ self.old.entries.items ++ outline ∷ []) }
        ensures memory { (f : Refusal) → result ≡ Err f → f ≡ fault_at reasons.Memory 0 }
        ensures others { IsSameBesideEntries self.old self.new }
    {
        match self.entries.push(outline) {
            Ok(()) => Ok(()),
            Err(_) => Err(OUT_OF_MEMORY),
        }
    }

    /// Appends the outline of the next entry, a message from this end. Fails if memory runs out.
    fn keep_message<M: MessageParts>(&mut self, side: End, message: &M) -> Result<(), CheckFault>
        ensures kept { OnOk result (self.new.entries.items ≡ self.old.entries.items
            ++ outline_of (flag_by (slice_get self.old.plan.named.items (length self.old.entries.items)))
            (Sent side (M.meaning message.now)) ∷ []) }
        ensures memory { (f : Refusal) → result ≡ Err f → f ≡ fault_at reasons.Memory 0 }
        ensures others { IsSameBesideEntries self.old self.new }
    {
        let Ok(outline) = Outline::of_message(self.alloc, self.is_named(), side, message) else {
            return Err(OUT_OF_MEMORY);
        };
        self.keep(outline)
    }

    /// Sends a message from this end, after the gap before it. If the end is not judged, it may send anything. Fails
    /// with `BadReply`, `SendRefused` or `Memory`.
    fn join<M: MessageParts>(
        &mut self,
        side: End,
        fate: Fate,
        message: &M,
        lent: Option<&'r Message>,
    ) -> Result<(), CheckFault>
        requires plan { IsPlan self.old.certificate.now self.old.plan }
        requires within { length self.old.entries.items ≤ length self.old.certificate.now.fates }
        requires few { length self.old.certificate.now.fates ≤ 100000 }
        requires no_overflow { load self.old.progress < 2 ^ 127 }
        requires count { unheard_load self.old.progress < 2 ^ 63 }
        requires same { IfSome lent (λ lent. lent.now ≡ M.meaning message.now) }
        ensures taken { YieldsInMemory
            (message_taken self.old.judged self.old.table.now side fate (length self.old.entries.items)
            (M.meaning message.now) (tied_now self.old.judged self.old.certificate.now (kept_in self.old))
            self.old.progress) result
            self.new.progress }
        ensures left { Leaves (taken_left self.old.judged self.old.table.now side (M.meaning message.now)
            (tied_now self.old.judged self.old.certificate.now (kept_in self.old)) self.old.progress) result
            self.new.progress }
        ensures shows { ShowsSend self.old.table.now side (length self.old.entries.items) (M.meaning message.now) result
            self.new.progress }
        ensures grows { OnOk result (GrewBy (2 ^ 65) 1 self.old.progress self.new.progress) }
        ensures others { IsSameBesideProgress self.old self.new }
    {
        let entry = self.entries.len();
        let (alloc, table, number) = (self.alloc, self.table, entry as u64);
        let Some(judged) = self.judged else {
            let takes = self.plan.taken.get(entry);
            return self.progress.take_message(
                alloc, table, None, side, fate, number, message, lent, takes,
            );
        };
        let tied = self.tied_to(judged)?;
        let judged = Some(judged);
        self.progress.take_message(
            alloc, table, judged, side, fate, number, message, lent, &tied,
        )
    }

    /// Takes the next entry, a message from this end. It is lent if it outlives the replay. Fails with the reason for
    /// the refusal, or with `Memory`.
    #[tactic(auto, using(crate::proofs::refusal_laws::SendShows::gap_shows))]
    fn take_message<M: MessageParts>(
        &mut self,
        side: End,
        message: &M,
        lent: Option<&'r Message>,
    ) -> Result<(), CheckFault>
        requires ready { IsReady self.old }
        requires same { IfSome lent (λ lent. lent.now ≡ M.meaning message.now) }
        ensures taken { YieldsInMemory (kept_next self.old.judged self.old.table.now self.old.certificate.now
            (Ok (Sent side (M.meaning message.now))) (kept_in self.old)) result (kept_in self.new) }
        ensures left { Leaves (entry_left self.old.judged self.old.table.now self.old.certificate.now
            (Ok (Sent side (M.meaning message.now)))
            (kept_in self.old)) result self.new.progress }
        ensures shows { ShowsSend self.old.table.now side (length self.old.entries.items) (M.meaning message.now) result
            self.new.progress }
        ensures ready { OnOk result (IsReady self.new) }
        ensures judged { self.new.judged ≡ self.old.judged }
        ensures table { self.new.table ≡ self.old.table }
        ensures certificate { self.new.certificate ≡ self.old.certificate }
    {
        let fate = self.fate()?;
        if !self.is_in_order(side, fate) {
            return Err(self.refusal(Reason::OutOfOrder));
        }
        self.pass_gap()?;
        self.join(side, fate, message, lent)?;
        self.keep_message(side, message)
    }

    /// Takes the next entry, a message from this end that outlives the replay.
    pub(crate) fn take_lent(&mut self, side: End, message: &'r Message) -> Result<(), CheckFault>
        requires ready { IsReady self.old }
        ensures taken { YieldsInMemory (kept_next self.old.judged self.old.table.now self.old.certificate.now
            (Ok (Sent side message.now)) (kept_in self.old)) result (kept_in self.new) }
        ensures left { Leaves (entry_left self.old.judged self.old.table.now self.old.certificate.now
            (Ok (Sent side message.now)) (kept_in self.old))
            result self.new.progress }
        ensures shows { ShowsSend self.old.table.now side (length self.old.entries.items) message.now result
            self.new.progress }
        ensures ready { OnOk result (IsReady self.new) }
        ensures judged { self.new.judged ≡ self.old.judged }
        ensures table { self.new.table ≡ self.old.table }
        ensures certificate { self.new.certificate ≡ self.old.certificate }
    {
        self.take_message(side, &message.view(), Some(message))
    }

    /// Takes a quiet mark after the gap before it. Fails with `NotQuiet` or `Memory`.
    fn be_quiet(&mut self) -> Result<(), CheckFault>
        requires plan { IsPlan self.old.certificate.now self.old.plan }
        requires within { length self.old.entries.items ≤ length self.old.certificate.now.fates }
        requires few { length self.old.certificate.now.fates ≤ 100000 }
        requires no_overflow { load self.old.progress < 2 ^ 126 }
        requires count { unheard_load self.old.progress < 2 ^ 63 }
        ensures quiet { YieldsInMemory (mark_taken self.old.judged self.old.table.now (length self.old.entries.items)
            (tied_now self.old.judged self.old.certificate.now (kept_in self.old)) self.old.progress) result
            self.new.progress }
        ensures left { IsListing self.old.progress
            → Leaves (mark_left self.old.judged self.old.table.now (length self.old.entries.items)
            (tied_now self.old.judged self.old.certificate.now (kept_in self.old)) self.old.progress) result
            self.new.progress }
        ensures grows { OnOk result (GrewBy (2 ^ 66) 0 self.old.progress self.new.progress) }
        ensures others { IsSameBesideProgress self.old self.new }
    {
        let entry = self.entries.len();
        let Some(judged) = self.judged else {
            let takes = self.plan.taken.get(entry);
            return self
                .progress
                .take_mark(self.alloc, self.table, None, entry as u64, takes);
        };
        let tied = self.tied_to(judged)?;
        self.progress
            .take_mark(self.alloc, self.table, Some(judged), entry as u64, &tied)
    }

    /// Takes the next entry, a quiet mark. Fails with `FateRange` if its fate is not the next gap, with another reason
    /// for the refusal, or with `Memory`.
    pub(crate) fn take_mark(&mut self) -> Result<(), CheckFault>
        requires ready { IsReady self.old }
        ensures taken { YieldsInMemory (kept_next self.old.judged self.old.table.now self.old.certificate.now
            (Ok Item.Quiet) (kept_in self.old)) result (kept_in self.new) }
        ensures left { IsListed self.old
            → Leaves (entry_left self.old.judged self.old.table.now self.old.certificate.now (Ok Item.Quiet)
            (kept_in self.old)) result self.new.progress }
        ensures ready { OnOk result (IsReady self.new) }
        ensures judged { self.new.judged ≡ self.old.judged }
        ensures table { self.new.table ≡ self.old.table }
        ensures certificate { self.new.certificate ≡ self.old.certificate }
    {
        let fate = self.fate()?;
        let entry = self.entries.len();
        if !is_gap_after(fate, entry) {
            return Err(self.refusal(Reason::FateRange));
        }
        self.pass_gap()?;
        self.be_quiet()?;
        self.since = entry + 1;
        self.keep(Outline::Mark)
    }

    /// Returns the refusal of the next entry, which is no item, for this reason, or `FateCount` if it has no fate.
    pub(crate) fn refuse(&self, reason: Reason) -> CheckFault
        ensures { kept_next self.now.judged self.now.table.now self.now.certificate.now (Err reason) (kept_in self.now)
            ≡ Err result }
    {
        match self.fate() {
            Ok(_) => self.refusal(reason),
            Err(fault) => fault,
        }
    }

    /// Takes the next entry, a message from this end or octets that are no message. Fails with the reason for the
    /// refusal, or with `Memory`.
    pub(crate) fn take_body<M: MessageParts>(
        &mut self,
        side: End,
        body: Result<&M, Fault>,
    ) -> Result<(), CheckFault>
        requires ready { IsReady self.old }
        ensures taken { YieldsInMemory (kept_next self.old.judged self.old.table.now self.old.certificate.now
            (reading side (map_ok (λ m. M.meaning m.now) body.entry)) (kept_in self.old)) result (kept_in self.new) }
        ensures ready { OnOk result (IsReady self.new) }
        ensures judged { self.new.judged ≡ self.old.judged }
        ensures table { self.new.table ≡ self.old.table }
        ensures certificate { self.new.certificate ≡ self.old.certificate }
    {
        match body {
            Ok(message) => self.take_message(side, message, None),
            Err(fault) => Err(self.refuse(Reason::BadMessage(fault))),
        }
    }

    /// Ends the record: makes the steps of the last gap, then the losses of messages still on their way. Fails with
    /// `FateCount` if a fate is left, with the first step that cannot happen, or with `Memory`.
    pub(crate) fn end(&mut self) -> Result<(), CheckFault>
        requires ready { IsReady self.old }
        ensures ended { YieldsInMemory
            (kept_ended self.old.judged self.old.table.now self.old.certificate.now (kept_in self.old)) result
            self.new.progress }
        ensures left { UnlessMemory result (self.new.progress
            ≡ end_left self.old.judged self.old.table.now self.old.certificate.now (kept_in self.old)) }
    {
        if self.entries.len() != self.certificate.fates().len() {
            return Err(self.refusal(Reason::FateCount));
        }
        self.pass_gap()?;
        self.progress.lose_last(self.judged)
    }

    /// Ends the record as `end`, and returns the counts of the run.
    pub(crate) fn finish(self) -> Result<Report, CheckFault>
        requires ready { IsReady self }
        ensures { (listed : Bool) (entries : List (Result Item Why))
            → HasTakenListing listed (checking_of self.entry) entries
            → result ≢ Err (fault_at reasons.Memory 0) → result ≡ map_ok (reported self.entry.judged)
            (run_by self.entry.judged self.entry.table.now self.entry.certificate.now entries) }
    {
        let mut replaying = self;
        match replaying.end() {
            Ok(()) => Ok(Report {
                moves: replaying.progress.moves,
                unheard: replaying.progress.unheard,
            }),
            Err(fault) => Err(fault),
        }
    }

    /// Returns what the replay keeps.
    pub(crate) fn into_progress(self) -> Progress<'r>
        ensures { result ≡ self.entry.progress }
    {
        self.progress
    }
}

/// Returns whether a fate is the gap after this entry.
pub(crate) fn is_gap_after(fate: Fate, entry: usize) -> bool
    requires no_overflow { entry < 2 ^ 63 }
    ensures { result ≡ is_gap (entry + 1) fate }
{
    match fate {
        Fate::Gap(gap) => gap as usize == entry + 1,
        _ => false,
    }
}
