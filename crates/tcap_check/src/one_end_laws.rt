//! Laws of the run that a certificate gives for one end alone. In that run the end keeps the rules, and its peer may
//! send anything. Each function has an empty body, and its contract states one law.

ghost use Rattle.std.specs.Prelude.{◌≡◌, ℕ, List, [], map, length, Contains, Ok, None, Some};
ghost use Rattle.std.specs.List.{AllByRecursion};
ghost use Rattle.tcap_record.specs.declared.entry.End.{End as Side};
ghost use Rattle.tcap_record.specs.declared.entry.Entry.{Entry};
ghost use Rattle.tcap_end.specs.declared.fault.EndFault.{EndFault};
ghost use Rattle.tcap_end.specs.Table.{Table};
ghost use Rattle.tcap_record.specs.Ends.{other};
ghost use Rattle.tcap_model.specs.World.{Item, World, channel_from};
ghost use Rattle.tcap_model.specs.Run.{Event, IsLawfulFor, Loses, Runs};
ghost use Rattle.tcap_certificate.specs.Certificate.{Certificate};
ghost use Rattle.tcap_model.specs.Entries.{AreItems, item_of};
ghost use Rattle.tcap_certificate.specs.DescribedRun.{losses_from};
ghost use Rattle.tcap_certificate.specs.Replay.{discards_by, replayed_by};
ghost use Rattle.tcap_check.specs.ReportedSteps.{IsDiscarded, IsReportedLoss};
ghost use Rattle.tcap_certificate.specs.LossCounts.{unheard_of};
ghost use Rattle.tcap_check.specs.OneEndRun.{DiscardsNothing, IsGivenFor};

/// States that what a certificate gives for one end is a run from the empty world. The run sends exactly the items that
/// the entries are, in order, the end keeps the rules in it, and it leaves nothing on its way to the end. Apart from
/// the losses of the end's own messages, the run has at most three steps for each entry and one for each component. It
/// loses at most as many of the peer's messages as there are entries.
pub fn gives_a_run_of_one_end()
    ensures { (side : Side) (table : Table) (c : Certificate) (entries : List Entry) (events : List Event)
        → replayed_by (Some side) table c entries ≡ Ok events
        → IsGivenFor side table entries events }
{}

/// States that a certificate that gives a run of both ends also gives a run of each end alone. That run loses only
/// those messages of the peer whose fates are losses, and discards none.
pub fn both_give_each()
    ensures { (side : Side) (table : Table) (c : Certificate) (entries : List Entry) (items : List Item)
        (events : List Event)
        → AreItems entries items → replayed_by None table c entries ≡ Ok events
        → (own : List Event) × (replayed_by (Some side) table c entries ≡ Ok own) × DiscardsNothing side c items own
        × (discards_by (Some side) table c (map item_of entries) ≡ Ok []) }
{}

/// States that the end of such a run may have sent its part of the items, no matter what its peer sent.
pub fn what_one_end_is_given_is_lawful()
    ensures { (side : Side) (table : Table) (c : Certificate) (entries : List Entry) (events : List Event)
        → replayed_by (Some side) table c entries ≡ Ok events
        → (items : List Item) × AreItems entries items × IsLawfulFor side items table }
{}

/// States that the run discards a message only when the message is the oldest on its way to the end. The end cannot
/// receive the message then, for the reason that the discard gives.
pub fn discards_have_reasons()
    ensures { (side : Side) (table : Table) (c : Certificate) (entries : List Entry) (events : List Event)
        (discards : List (ℕ × EndFault))
        → replayed_by (Some side) table c entries ≡ Ok events
        → discards_by (Some side) table c (map item_of entries) ≡ Ok discards
        → AllByRecursion (λ x. IsDiscarded side table events x.0 x.1) discards }
{}

/// States that each message of the peer that the run loses has a loss as its fate, or is among the discards.
pub fn losses_are_reported()
    ensures { (side : Side) (table : Table) (c : Certificate) (entries : List Entry) (events : List Event)
        (discards : List (ℕ × EndFault))
        → replayed_by (Some side) table c entries ≡ Ok events
        → discards_by (Some side) table c (map item_of entries) ≡ Ok discards
        → (number : ℕ) → Contains events (Loses (other side) number) → IsReportedLoss c discards number }
{}

/// States that the run leaves none of the peer's messages on its way: the end receives each, its provider answers it,
/// or it is lost. So the unheard messages are exactly those that are lost.
pub fn nothing_waits_for_the_end()
    ensures { (side : Side) (table : Table) (c : Certificate) (entries : List Entry) (events : List Event) (w : World)
        → replayed_by (Some side) table c entries ≡ Ok events → Runs table events w
        → (channel_from (other side) w ≡ [])
        × (unheard_of side events ≡ length (losses_from (other side) events)) }
{}
