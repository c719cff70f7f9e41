//! Laws of the run of two ends that a certificate gives, and of the reasons why it gives none. Each function has an
//! empty body, and its contract states one law.

ghost use Rattle.std.specs.Prelude.{◌≡◌, ℕ, ℤ, List, [], length, map, filter_map, Contains, IsTrue, is_ok, Option, Some, Result, Ok, Err, None};
ghost use Rattle.std.specs.List.{AllByRecursion};
ghost use Rattle.tcap_msg.specs.declared.message.Message.{Message};
ghost use Rattle.tcap_msg.specs.Parts.{components_in};
ghost use Rattle.tcap_record.specs.declared.entry.End.{End as Side};
ghost use Rattle.tcap_record.specs.declared.entry.Entry.{Entry};
ghost use Rattle.tcap_end.specs.declared.half.HalfName.{HalfName};
ghost use Rattle.tcap_end.specs.End.{End};
ghost use Rattle.tcap_end.specs.Message.{send};
ghost use Rattle.tcap_end.specs.Table.{Table};
ghost use Rattle.tcap_certificate.specs.declared.fault.CheckFault.{CheckFault};
ghost use Rattle.tcap_check.specs.declared.step.Step.{Step};
ghost use Rattle.tcap_check.specs.ReportedSteps.{discards_of, events_of};
ghost use Rattle.tcap_model.specs.World.{Item, Sent, World, end_at};
ghost use Rattle.tcap_model.specs.Run.{BothKeepRules, Event, Expires, IsLawful, IsRunOf, Runs, played};
ghost use Rattle.tcap_certificate.specs.Certificate.{Certificate, IsPrompt, prompt};
ghost use Rattle.tcap_model.specs.Entries.{AreItems};
ghost use Rattle.tcap_certificate.specs.DescribedRun.{Follows, IsImplied, IsPlain, invoke_id, invoking_half};
ghost use Rattle.tcap_certificate.specs.HalfNames.{AreSameEvents, IsDescribedBy};
ghost use Rattle.tcap_check.specs.GivenRun.{DeliversAtOnce, IsGiven, IsInUse, IsReason, IsVisible, MayBeSent};
ghost use Rattle.tcap_check.specs.CheckerMeaning.{CheckerState, HasTaken};
ghost use Rattle.tcap_model.specs.declared.reason.Reason.{Reason};
ghost use Rattle.tcap_certificate.specs.Replay.{replayed_by};

/// States that what a certificate gives is a run of two ends from the empty world. The run sends exactly the items that
/// the entries are, in order, and the certificate describes it. It has at most two steps for each entry, one for each
/// component, and one for each listed event.
pub fn gives_a_run()
    ensures { (table : Table) (c : Certificate) (entries : List Entry) (events : List Event)
        → replayed_by None table c entries ≡ Ok events
        → IsGiven table c entries events }
{}

/// States that two ends that keep the rules may have sent these items, in this order, in that many steps.
pub fn what_is_given_is_lawful()
    ensures { (table : Table) (c : Certificate) (entries : List Entry) (events : List Event)
        → replayed_by None table c entries ≡ Ok events
        → (items : List Item) × AreItems entries items × IsLawful items table (length events) }
{}

/// States that a certificate that describes some run of these items gives a run of them, with as many steps.
pub fn gives_where_a_run_is_described()
    ensures { (table : Table) (c : Certificate) (entries : List Entry) (items : List Item) (events : List Event)
        → AreItems entries items → IsRunOf items table events → IsDescribedBy table c items events
        → (given : List Event) × (replayed_by None table c entries ≡ Ok given) × (length given ≡ length events) }
{}

/// States that a run that a certificate describes leaves nothing on its way: each message is received, answered or
/// lost.
pub fn described_runs_take_all()
    ensures { (table : Table) (c : Certificate) (items : List Item) (events : List Event) (w : World)
        → Runs table events w → w.sent ≡ items → Follows c items events
        → (w.from_a ≡ []) × (w.from_b ≡ []) }
{}

/// States that a certificate describes the events that follow it.
pub fn what_follows_is_described()
    ensures { (table : Table) (c : Certificate) (items : List Item) (events : List Event) → Follows c items events
        → IsDescribedBy table c items events }
{}

/// States that a run may call a half by either of its names: the world after the events is the same.
pub fn names_do_not_matter()
    ensures { (table : Table) (w : World) (events others : List Event) → AreSameEvents table w events others
        → played table others w ≡ played table events w }
{}

/// States that both ends keep the rules in events that follow a certificate.
pub fn described_ends_keep_the_rules()
    ensures { (c : Certificate) (items : List Item) (events : List Event) → Follows c items events
        → BothKeepRules events }
{}

/// States that the expiries that a run makes before a message, because the message implies them, are exactly those that
/// the send needs: of the IDs that the message invokes and that are in use on its half.
pub fn implied_are_needed()
    ensures { (table : Table) (side : Side) (message : Message) (name : HalfName) (implied : List Event)
        (w before : World) (made : End) (id : ℤ)
        → AllByRecursion (IsImplied (Sent side message)) implied → invoking_half message ≡ Some name
        → played table implied w ≡ Some before → send table (end_at side before) message ≡ Ok made
        → Contains (filter_map invoke_id (components_in message)) id
        → (Contains implied (Expires side name id) → IsInUse (end_at side w) name id)
        × (IsInUse (end_at side w) name id → Contains implied (Expires side name id)) }
{}

/// States that a prompt certificate gives a run that delivers each message, the last one too, before the next is sent.
/// The run has no loss, no provider's reply and no closing.
pub fn prompt_certificates_deliver_at_once()
    ensures { (table : Table) (c : Certificate) (entries : List Entry) (events : List Event) → IsPrompt c
        → replayed_by None table c entries ≡ Ok events
        → DeliversAtOnce table events × AllByRecursion IsPlain events }
{}

/// States that the prompt certificate gives a run of these items if some run sends them promptly and without hidden
/// steps.
pub fn prompt_runs_are_given()
    ensures { (table : Table) (entries : List Entry) (items : List Item) (events : List Event)
        → AreItems entries items → IsRunOf items table events → AllByRecursion IsVisible events
        → DeliversAtOnce table events
        → (given : List Event) × (replayed_by None table (prompt (length items)) entries ≡ Ok given) }
{}

/// States what a refusal shows of the certificate and the entries, if both ends are judged or one alone.
pub fn refusals_have_reasons()
    ensures { (judged : Option Side) (table : Table) (c : Certificate) (entries : List Entry) (fault : CheckFault)
        → replayed_by judged table c entries ≡ Err fault
        → IsReason judged table c entries fault.entry fault.reason }
{}

/// States that entries that a checker took, and did not refuse, are items that two ends that keep the rules may have
/// sent, in this order, or the end that is judged alone its part of them. Messages that were sent last may still be on
/// their way.
pub fn what_was_taken_may_be_sent()
    ensures { (checker : CheckerState) (entries : List (Result Item Reason)) → HasTaken checker entries
        → IsTrue (is_ok checker.so_far)
        → (items : List Item) × (map (λ item. Ok item) items ≡ entries) × MayBeSent checker.judged items checker.table }
{}

/// States that the events and the discards of a run determine its list of steps.
pub fn one_list_of_steps()
    ensures { (table : Table) (steps others : List Step) (w : World) → Runs table (events_of steps) w
        → events_of steps ≡ events_of others → discards_of steps ≡ discards_of others → steps ≡ others }
{}

/// States that a run that follows a prompt certificate has no loss, no provider's reply and no closing.
pub fn prompt_runs_are_plain()
    ensures { (certificate : Certificate) (items : List Item) (events : List Event) → IsPrompt certificate
        → Follows certificate items events → AllByRecursion IsPlain events }
{}
