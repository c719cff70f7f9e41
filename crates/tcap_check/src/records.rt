//! The replay of a certificate over a record.

ghost use Rattle.std.specs.Prelude.{◌≡◌, ◌≢◌, ◌++◌, ◌∷◌, [], Bool, true, List, length, map, None, Result, Ok, Err, OnOk};
ghost use Rattle.tcap_record.specs.EntryView.{entry_read};
ghost use Rattle.tcap_check.specs.GivenRun.{IsBounded, RefusesForGood, SaysLawful, ShowsReason};
ghost use Rattle.tcap_certificate.specs.HalfNames.{IsDescribedBy};
ghost use Rattle.tcap_model.specs.Run.{Event, IsRunOf};
ghost use Rattle.tcap_certificate.specs.declared.fault.CheckFault.{CheckFault as Refusal};
ghost use Rattle.tcap_model.specs.declared.reason.Reason.{Reason as Why};
ghost use Rattle.tcap_model.specs.declared.reason.Reason.TheVariants as reasons;
ghost use Rattle.tcap_model.specs.World.{Item};
ghost use Rattle.tcap_model.specs.Entries.{AreItems, item_of};
ghost use Rattle.tcap_certificate.specs.Replay.{fault_at, replay_by, replayed_by};
ghost use Rattle.tcap_check.specs.CheckerMeaning.{HasTaken, HasTakenListing, answer_of, kept_next, map_ok, reported};
ghost use Rattle.tcap_check.specs.Progress.{YieldsInMemory};
ghost use Rattle.tcap_check.specs.ReplayInvariants.{IsReady, checking_of, kept_in};
ghost use Rattle.tcap_check.specs.RunSoFar.{IfRefused, IsListed, ShowsAmong, ShowsItem, IsPartialReplay};
ghost use Rattle.tcap_check.specs.RefusedReplay.{Leaves, entry_left};
ghost use Rattle.tcap_check.specs.declared.checker.Report.{Report as Reported};

use crate::checker::{Checker, Report};
use crate::replaying::Replaying;
use std::alloc::Global;
use tcap_certificate::{Certificate, CheckFault};
use tcap_end::Table;
use tcap_model::Reason;
use tcap_msg::MessageView;
use tcap_record::{Body, BodyView, End, Entry, EntryView, Record};

impl<'a> Checker<'a> {
    /// Takes the next entry of a record: by `mark` if it is a quiet mark, else by `step`.
    ///
    /// # Errors
    ///
    /// `NoItem` if the entry has a message and no end, or a quiet mark and an end. Else as `step` and `mark`.
    pub fn take(&mut self, entry: &EntryView) -> Result<(), CheckFault>
        ensures took { (entries : List (Result Item Why)) → HasTaken self.old entries
            → result ≢ Err (fault_at reasons.Memory 0)
            → HasTaken self.new (entries ++ item_of (entry_read entry.now) ∷ []) }
        ensures refuses { RefusesForGood self.old (item_of (entry_read entry.now)) result }
        ensures answers { result ≡ answer_of self.new.so_far }
        ensures judged { self.new.judged ≡ self.old.judged }
        ensures table { self.new.table ≡ self.old.table }
        ensures certificate { self.new.certificate ≡ self.old.certificate }
        ensures for_ever { (f : Refusal) → self.old.so_far ≡ Err f → self.new ≡ self.old }
    {
        match (entry.side, &entry.body) {
            (Some(side), BodyView::Good(message)) => self.step(side, Ok(message)),
            (_, BodyView::Bad(fault)) => self.step::<MessageView>(End::A, Err(*fault)),
            (None, BodyView::Quiet) => self.mark(),
            _ => self.no_item(),
        }
    }
}

impl<'r> Replaying<'_, 'r> {
    /// Takes the next entry of a record that outlives the replay, so that its message is lent while it waits. Fails
    /// with the reason for the refusal, or with `Memory`.
    #[tactic(auto, using(crate::proofs::refusal_laws::SendShows::mark_shows, crate::proofs::refusal_laws::SendShows::refused_shows))]
    fn take_entry(&mut self, entry: &'r Entry) -> Result<(), CheckFault>
        requires ready { IsReady self.old }
        ensures taken { YieldsInMemory (kept_next self.old.judged self.old.table.now self.old.certificate.now
            (item_of entry.now) (kept_in self.old)) result (kept_in self.new) }
        ensures left { IsListed self.old
            → Leaves (entry_left self.old.judged self.old.table.now self.old.certificate.now (item_of entry.now)
            (kept_in self.old)) result self.new.progress }
        ensures shows { ShowsItem self.old.table.now (length self.old.entries.items) (item_of entry.now) result
            self.new.progress }
        ensures ready { OnOk result (IsReady self.new) }
        ensures judged { self.new.judged ≡ self.old.judged }
        ensures table { self.new.table ≡ self.old.table }
        ensures certificate { self.new.certificate ≡ self.old.certificate }
    {
        match (entry.side, &entry.body) {
            (Some(side), Body::Good(message)) => self.take_lent(side, message),
            (_, Body::Bad(fault)) => Err(self.refuse(Reason::BadMessage(*fault))),
            (None, Body::Quiet) => self.take_mark(),
            _ => Err(self.refuse(Reason::NoItem)),
        }
    }

    /// Takes the entries of a record that outlives the replay. No entry was taken before. Fails at the first that is
    /// refused, or with `Memory`.
    pub(crate) fn take_all(&mut self, record: &'r Record) -> Result<(), CheckFault>
        requires ready { IsReady self.old }
        ensures took { (listed : Bool) → HasTakenListing listed (checking_of self.old) []
            → OnOk result (HasTakenListing listed (checking_of self.new) (map item_of «record».now.entries.items)) }
        ensures refused { (listed : Bool) (f : Refusal) → HasTakenListing listed (checking_of self.old) []
            → result ≡ Err f
            → f ≢ fault_at reasons.Memory 0 → replay_by self.old.judged self.old.table.now self.old.certificate.now
            (map item_of «record».now.entries.items) ≡ Err f }
        ensures so_far { HasTakenListing true (checking_of self.old) []
            → IfRefused result (IsPartialReplay self.old.table.now self.old.certificate.now
            self.old.judged «record».now.entries.items self.new.progress) }
        ensures shows { HasTakenListing true (checking_of self.old) []
            → ShowsAmong self.old.table.now «record».now.entries.items result
            self.new.progress }
        ensures ready { OnOk result (IsReady self.new) }
        ensures judged { self.new.judged ≡ self.old.judged }
        ensures table { self.new.table ≡ self.old.table }
        ensures certificate { self.new.certificate ≡ self.old.certificate }
    {
        for entry in &record.entries {
            self.take_entry(entry)?;
        }
        Ok(())
    }
}

/// Replays a certificate over a record, and returns the counts of the run. Fails with the first refusal, or with
/// `Memory`.
fn replay(
    alloc: Global,
    record: &Record,
    table: &Table,
    certificate: &Certificate,
    judged: Option<End>,
) -> Result<Report, CheckFault>
    ensures { result ≢ Err (fault_at reasons.Memory 0)
        → result ≡ map_ok (reported judged) (replayed_by judged table.now certificate.now «record».now.entries.items) }
{
    let mut replaying = Replaying::new(alloc, table, certificate, judged, false)?;
    replaying.take_all(record)?;
    replaying.finish()
}

/// Checks that a certificate gives a run of a record, and returns the counts of the run (Q.774 3.2 and 3.3).
///
/// The certificate is not trusted.
///
/// With `None` both ends are judged: two ends that keep the rules may have sent exactly the entries of the record, in
/// this order. Their channels keep order and may lose messages, and there may be hidden expiries and closings.
///
/// With `Some(end)` this end is judged alone: some run sends exactly these entries, in this order, and the end keeps
/// the rules in it, no matter what its peer sends. What the certificate lists for the peer, and the fates of messages
/// from the end, are checked only for their ranges. A message of the peer that the end cannot receive is lost.
/// `unheard` counts the messages of the peer that the run loses.
///
/// # Errors
///
/// The first reason why the certificate gives no such run, with an entry. `Memory` if memory runs out, which says
/// nothing about the record.
pub fn check(
    alloc: Global,
    record: &Record,
    table: &Table,
    certificate: &Certificate,
    judged: Option<End>,
) -> Result<Report, CheckFault>
    ensures lawful { (report : Reported) → result ≡ Ok report → (items : List Item)
        × AreItems «record».now.entries.items items
        × SaysLawful judged items table.now report }
    ensures exact { result ≢ Err (fault_at reasons.Memory 0)
        → result ≡ map_ok (reported judged) (replayed_by judged table.now certificate.now «record».now.entries.items) }
    ensures described { (items : List Item) (events : List Event) → AreItems «record».now.entries.items items
        → IsRunOf items table.now events
        → IsDescribedBy table.now certificate.now items events → judged ≡ None
        → result ≢ Err (fault_at reasons.Memory 0)
        → result ≡ Ok (reported None events) }
    ensures refuses { (f : Refusal) → result ≡ Err f → f ≢ fault_at reasons.Memory 0
        → ShowsReason judged table.now certificate.now «record».now.entries.items f }
    ensures bound { (items : List Item) (report : Reported) → AreItems «record».now.entries.items items
        → result ≡ Ok report
        → IsBounded judged certificate.now items report }
{
    replay(alloc, record, table, certificate, judged)
}
