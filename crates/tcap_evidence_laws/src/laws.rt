//! What it means that entries show a fault. The contract of each function is a theorem about the definitions: the
//! lists of entries, the record, and what the kinds of faults compare.

ghost use Rattle.std.specs.Prelude.{◌≡◌, ◌≢◌, ◌⊎◌, ℕ, ℤ, Bool, true, false, List, [], ◌∷◌, Contains, Some, None, Ok, map, slice_get};
ghost use Rattle.tcap_parts.specs.declared.component.Component.{Component};
ghost use Rattle.tcap_msg.specs.declared.message.Message.{Message};
ghost use Rattle.tcap_msg.specs.Parts.{cause_in, dtid_in};
ghost use Rattle.tcap_record.specs.declared.entry.End.{End as Side};
ghost use Rattle.tcap_record.specs.declared.entry.Entry.{Entry};
ghost use Rattle.tcap_end.specs.Table.{Table};
ghost use Rattle.tcap_model.specs.World.{Item, Sent};
ghost use Rattle.tcap_model.specs.Entries.{item_of};
ghost use Rattle.tcap_refute.specs.declared.kind.Kind.{Kind};
ghost use Rattle.tcap_refute.specs.declared.kind.Kind.TheVariants as kinds;
ghost use Rattle.tcap_refute.specs.declared.kind.Refutation.{Refutation};
ghost use Rattle.tcap_faults.specs.declared.dialogue.half_origin.HalfOrigin.TheVariants.{Nowhere};
ghost use Rattle.tcap_faults.specs.declared.component.component_sort.Sort.{Sort};
ghost use Rattle.tcap_faults.specs.declared.verdict.fault_subject.Subject.{Subject};
ghost use Rattle.tcap_faults.specs.Fault.{is_fault, is_open_at_mark};
ghost use Rattle.tcap_faults.specs.HalfByPeerId.{half_of};
ghost use Rattle.tcap_faults.specs.InvokeCounts.{is_sort};
ghost use Rattle.tcap_faults.specs.SentToId.{is_begin_from};
ghost use Rattle.tcap_evidence.specs.declared.operations.Invocation.{Invocation};
ghost use Rattle.tcap_evidence.specs.declared.shown_facts.ShownFact.{ShownFact};
ghost use Rattle.tcap_evidence.specs.declared.shown_facts.ShownFact.TheVariants as facts;
ghost use Rattle.tcap_evidence_laws.specs.ComponentEvidence.{ShowsAnswered, ShowsBadLink, ShowsBusy, ShowsRejected, ShowsUnasked, ShowsWrongOperation};
ghost use Rattle.tcap_evidence.specs.Evidence.{grounds_of, mark_scene, scene_of};
ghost use Rattle.tcap_evidence_laws.specs.GivenLists.{AreAllGiven, IsAscending, IsInvoke, invokes_listed, listed_facts};
ghost use Rattle.tcap_evidence_laws.specs.HalfEvidence.{ShowsMisplaced, ShowsWrongDialogue, ShowsWrongHalf, ShowsWrongReply};
ghost use Rattle.tcap_evidence.specs.Operations.{invocations_at};
ghost use Rattle.tcap_evidence.specs.Partners.{paired_before, partner_in};
ghost use Rattle.tcap_evidence.specs.Scene.{shown};
ghost use Rattle.tcap_evidence_laws.specs.ListedEntries.{AreListsComplete, AreCounted, HasKind, IsPaired, IsSentBefore, IsShown, ListsOne, ShowsReused, ShowsUnknown, SortsAre, component_with, has_kind_by, is_of_component, is_incoming_or_invoked, items_before, scene_at};
ghost use Rattle.tcap_evidence.specs.EvidenceWords.{sender_of};

/// Shows that the entries given as grounds are those of `shown`.
///
/// For a message, the scene has the half and the component that have the kind; for a quiet mark, it has the messages
/// before the mark.
pub fn grounds_are_listed()
    ensures message { (of_one : Bool) (table : Table) (side sender : Side) (entries : List Entry) (r : Refutation)
        (m : Message)
        (fact : ShownFact) (numbers : List ℕ) → slice_get (map item_of entries) r.entry ≡ Some (Ok (Sent sender m))
        → Contains (grounds_of of_one table side entries r) (fact, numbers)
        → numbers ≡ shown (scene_at of_one table side entries r.entry m r.kind) fact }
    ensures mark { (of_one : Bool) (table : Table) (side : Side) (entries : List Entry) (r : Refutation)
        (fact : ShownFact) (numbers : List ℕ) → slice_get (map item_of entries) r.entry ≡ Some (Ok Item.Quiet)
        → Contains (grounds_of of_one table side entries r) (fact, numbers)
        → numbers ≡ shown (mark_scene table side entries r.entry) fact }
{}

/// Shows that the lists have as many entries as the kinds count: components of an invoke ID, of each sort, and
/// messages.
pub fn grounds_are_counts()
    ensures components { (of_one : Bool) (table : Table) (side : Side) (entries : List Entry) (number : ℕ) (m : Message)
        (kind : Kind) (to : List ℕ) (id : ℤ) (sort : Sort) → dtid_in m ≡ Some to
        → (scene_at of_one table side entries number m kind).id ≡ Some id
        → AreCounted side (items_before entries number) to m (scene_at of_one table side entries number m kind) sort
        (is_sort table id sort) }
    ensures messages { (table : Table) (side : Side) (entries : List Entry) (number : ℕ) (m : Message) (kind : Kind)
        (about : Subject) (to : List ℕ) → dtid_in m ≡ Some to
        → AreListsComplete side (items_before entries number) to (scene_of table side entries number m kind about) }
{}

/// Shows that the sorts count the same components as the definitions of the kinds.
pub fn sorts_are_counts()
    ensures { (table : Table) (id : ℤ) (cs : List Component) → SortsAre table id cs }
{}

/// Shows that a message with a destination ID and one of the kinds F10 to F13 has a half. So the counts of the half's
/// messages and invocations apply to it.
pub fn components_have_a_half()
    ensures { (table : Table) (side : Side) (items : List Item) (m : Message) (kind : Kind) (to : List ℕ)
        → dtid_in m ≡ Some to → is_of_component kind ≡ true → is_fault table side items m kind ≡ true
        → (half_of side items to).origin ≢ Nowhere }
{}

/// Shows that each listed number is that of a matching entry.
///
/// The entry is before the one at fault and after the last quiet mark. The end whose messages the list has sent it,
/// and its message is one that the list is for. The number may also be that of the entry at fault itself, if the
/// message has such a component before the one at fault or, for `Whole`, anywhere.
pub fn entries_are_there()
    ensures message { (table : Table) (side : Side) (entries : List Entry) (number : ℕ) (m : Message) (kind : Kind)
        (about : Subject) (fact : ShownFact) (n : ℕ)
        → Contains (shown (scene_of table side entries number m kind about) fact) n
        → IsShown entries (scene_of table side entries number m kind about) fact n }
    ensures mark { (table : Table) (side : Side) (entries : List Entry) (number : ℕ) (fact : ShownFact) (n : ℕ)
        → Contains (shown (mark_scene table side entries number) fact) n
        → IsShown entries (mark_scene table side entries number) fact n }
{}

/// Shows that each such entry is listed, unless the list is restricted to what one half heard or invoked.
pub fn entries_are_listed()
    ensures message { (table : Table) (side : Side) (entries : List Entry) (number : ℕ) (m : Message) (kind : Kind)
        (about : Subject) (fact : ShownFact) (n : ℕ) → is_incoming_or_invoked fact ≡ false
        → IsShown entries (scene_of table side entries number m kind about) fact n
        → Contains (shown (scene_of table side entries number m kind about) fact) n }
    ensures mark { (table : Table) (side : Side) (entries : List Entry) (number : ℕ) (fact : ShownFact) (n : ℕ)
        → is_incoming_or_invoked fact ≡ false → IsShown entries (mark_scene table side entries number) fact n
        → Contains (shown (mark_scene table side entries number) fact) n }
{}

/// Shows what the lists contain for the kinds F2 to F4, F7 and F14 of a message, and F15 of a quiet mark.
///
/// For F2 they are empty. For F3, F4 and F15 they have an entry. For F7 and F14 they contradict the dialogue portion
/// or the cause of the Abort.
pub fn kinds_show()
    ensures unknown { (table : Table) (side : Side) (entries : List Entry) (number : ℕ) (m : Message) (about : Subject)
        → HasKind table side (items_before entries number) m kinds.UnknownTransaction
        → ShowsUnknown (scene_of table side entries number m kinds.UnknownTransaction about) (cause_in m) }
    ensures reused { (table : Table) (side : Side) (entries : List Entry) (number : ℕ) (m : Message) (about : Subject)
        → HasKind table side (items_before entries number) m kinds.ReusedId
        → ShowsReused (scene_of table side entries number m kinds.ReusedId about) m }
    ensures ended { (table : Table) (side : Side) (entries : List Entry) (number : ℕ) (m : Message) (about : Subject)
        → HasKind table side (items_before entries number) m kinds.AfterEnd
        → ListsOne (scene_of table side entries number m kinds.AfterEnd about) facts.Ended }
    ensures misplaced { (table : Table) (side : Side) (entries : List Entry) (number : ℕ) (m : Message)
        (about : Subject)
        → HasKind table side (items_before entries number) m kinds.MisplacedDialogue
        → ShowsMisplaced (scene_of table side entries number m kinds.MisplacedDialogue about) m }
    ensures wrong_reply { (table : Table) (side : Side) (entries : List Entry) (number : ℕ) (m : Message)
        (about : Subject)
        → HasKind table side (items_before entries number) m kinds.WrongReply
        → ShowsWrongReply (scene_of table side entries number m kinds.WrongReply about) (cause_in m) }
    ensures left_open { (table : Table) (side : Side) (entries : List Entry) (number : ℕ)
        → is_open_at_mark table side (items_before entries number) ≡ true
        → ListsOne (mark_scene table side entries number) facts.Open }
{}

/// Shows which Begins and Continues are listed for a transaction ID of an end.
///
/// Each Begin from the ID is listed. For each Continue from it or to it, a Continue of the same end with the same
/// partner is listed. The listed one is no later, and no Begin from the ID is between the two. Nothing else is listed.
///
/// So the list shows how often the ID was begun, and with which partners it was used. It does not show what the other
/// end began or used.
pub fn pairs_are_listed()
    ensures begins { (of : Side) (id : List ℕ) (entries : List Entry) (number n : ℕ) (m : Message)
        → IsSentBefore entries number of n m → is_begin_from id m ≡ true
        → Contains (paired_before of id entries number) n }
    ensures continues { (of sender : Side) (id partner : List ℕ) (entries : List Entry) (number n : ℕ) (m : Message)
        → IsSentBefore entries number sender n m → partner_in of id sender m ≡ Some partner
        → IsPaired of id entries number sender partner n }
    ensures listed { (of : Side) (id : List ℕ) (entries : List Entry) (number n : ℕ)
        → Contains (paired_before of id entries number) n → (sender : Side) × (m : Message)
        × IsSentBefore entries number sender n m
        × ((sender ≡ of) × (is_begin_from id m ≡ true) ⊎ (partner : List ℕ)
        × (partner_in of id sender m ≡ Some partner)) }
{}

/// Shows that each list is given that `kinds_show`, `halves_show` and `components_show` use.
///
/// There are two exceptions. For F8, the list of the end's Begins with an AARQ is not given. For a message without a
/// destination ID, the lists of the peer's messages from there are not given, because they are empty.
pub fn lists_are_given()
    ensures message { (of_one : Bool) (table : Table) (side sender : Side) (entries : List Entry) (r : Refutation)
        (m : Message)
        → slice_get (map item_of entries) r.entry ≡ Some (Ok (Sent sender m))
        → AreAllGiven (scene_at of_one table side entries r.entry m r.kind) (grounds_of of_one table side entries r)
        (listed_facts (dtid_in m) (scene_at of_one table side entries r.entry m r.kind).origin
        (component_with of_one table side entries r.entry m r.kind) r.kind) }
    ensures mark { (of_one : Bool) (table : Table) (side : Side) (entries : List Entry) (r : Refutation)
        → slice_get (map item_of entries) r.entry ≡ Some (Ok Item.Quiet)
        → AreAllGiven (mark_scene table side entries r.entry) (grounds_of of_one table side entries r)
        (facts.Open ∷ []) }
{}

/// Shows that each list of entries, and the list of the invocations' entries, is in ascending order.
pub fn lists_ascend()
    ensures grounds { (of_one : Bool) (table : Table) (side : Side) (entries : List Entry) (r : Refutation)
        (fact : ShownFact)
        (numbers : List ℕ) → Contains (grounds_of of_one table side entries r) (fact, numbers) → IsAscending numbers }
    ensures invocations { (of_one : Bool) (table : Table) (side : Side) (entries : List Entry) (r : Refutation)
        → IsAscending (map (λ i. i.entry) (invocations_at of_one table side entries r)) }
{}

/// Shows that the given invocations are the Invokes in the messages that the kind compares, in order.
///
/// For F6 of an answer, these are the peer's messages from the destination ID. For F10, and F13 of a Reject of an
/// answer, they are those with the half's own invocations. For F11, F12, and F13 of another Reject, they are those
/// that the half heard. Each invocation is an Invoke of its entry, with its operation and its linked ID. Other kinds
/// have no invocations.
pub fn invocations_are_listed()
    ensures listed { (of_one : Bool) (table : Table) (side sender : Side) (entries : List Entry) (r : Refutation)
        (m : Message)
        (fact : ShownFact) → slice_get (map item_of entries) r.entry ≡ Some (Ok (Sent sender m))
        → invokes_listed r.kind (component_with of_one table side entries r.entry m r.kind) ≡ Some fact
        → map (λ i. i.entry) (invocations_at of_one table side entries r)
        ≡ shown (scene_at of_one table side entries r.entry m r.kind) fact }
    ensures each { (of_one : Bool) (table : Table) (side sender : Side) (entries : List Entry) (r : Refutation)
        (m : Message)
        (fact : ShownFact) (i : Invocation) → slice_get (map item_of entries) r.entry ≡ Some (Ok (Sent sender m))
        → invokes_listed r.kind (component_with of_one table side entries r.entry m r.kind) ≡ Some fact
        → Contains (invocations_at of_one table side entries r) i
        → IsInvoke entries r.entry (sender_of side fact) (scene_at of_one table side entries r.entry m r.kind).id i }
    ensures none { (of_one : Bool) (table : Table) (side sender : Side) (entries : List Entry) (r : Refutation)
        (m : Message)
        → slice_get (map item_of entries) r.entry ≡ Some (Ok (Sent sender m))
        → invokes_listed r.kind (component_with of_one table side entries r.entry m r.kind) ≡ None
        → invocations_at of_one table side entries r ≡ [] }
{}

/// Shows what the lists contain for the kinds F8 and F9 of a message, by how its half began.
pub fn halves_show()
    ensures wrong_half { (of_one : Bool) (table : Table) (side : Side) (entries : List Entry) (number : ℕ) (m : Message)
        → HasKind table side (items_before entries number) m kinds.WrongHalf
        → ShowsWrongHalf (scene_at of_one table side entries number m kinds.WrongHalf)
        (scene_at of_one table side entries number m kinds.WrongHalf).origin }
    ensures wrong_dialogue { (of_one : Bool) (table : Table) (side : Side) (entries : List Entry) (number : ℕ)
        (m : Message)
        → HasKind table side (items_before entries number) m kinds.WrongDialogue
        → ShowsWrongDialogue (scene_at of_one table side entries number m kinds.WrongDialogue)
        (scene_at of_one table side entries number m kinds.WrongDialogue).origin m }
{}

/// Shows that a message with F5, F6 or one of F10 to F13 has a component with this kind, and what the lists contain
/// for it.
///
/// For F5 the list is empty; for F6 no listed Invoke allows the answer; for the others, the lists have more or fewer
/// entries than the component requires. If the kind compares nothing for a component, nothing is shown.
pub fn components_show()
    ensures answers_nothing { (of_one : Bool) (table : Table) (side : Side) (entries : List Entry) (number : ℕ)
        (m : Message)
        → has_kind_by of_one table side (items_before entries number) m kinds.AnswersNothing ≡ true
        → ShowsUnasked (scene_at of_one table side entries number m kinds.AnswersNothing)
        (component_with of_one table side entries number m kinds.AnswersNothing) }
    ensures wrong_operation { (of_one : Bool) (table : Table) (side : Side) (entries : List Entry) (number : ℕ)
        (m : Message)
        → HasKind table side (items_before entries number) m kinds.WrongOperation
        → ShowsWrongOperation (scene_at of_one table side entries number m kinds.WrongOperation)
        (component_with of_one table side entries number m kinds.WrongOperation) }
    ensures busy { (of_one : Bool) (table : Table) (side : Side) (entries : List Entry) (number : ℕ) (m : Message)
        → HasKind table side (items_before entries number) m kinds.InvokeIdBusy
        → ShowsBusy (scene_at of_one table side entries number m kinds.InvokeIdBusy) (dtid_in m)
        (component_with of_one table side entries number m kinds.InvokeIdBusy) }
    ensures bad_link { (of_one : Bool) (table : Table) (side : Side) (entries : List Entry) (number : ℕ) (m : Message)
        → HasKind table side (items_before entries number) m kinds.BadLink
        → ShowsBadLink (scene_at of_one table side entries number m kinds.BadLink) (dtid_in m)
        (component_with of_one table side entries number m kinds.BadLink) }
    ensures answered { (of_one : Bool) (table : Table) (side : Side) (entries : List Entry) (number : ℕ) (m : Message)
        → HasKind table side (items_before entries number) m kinds.AnsweredAlready
        → ShowsAnswered (scene_at of_one table side entries number m kinds.AnsweredAlready)
        (component_with of_one table side entries number m kinds.AnsweredAlready) }
    ensures rejected { (of_one : Bool) (table : Table) (side : Side) (entries : List Entry) (number : ℕ) (m : Message)
        → HasKind table side (items_before entries number) m kinds.RejectNotAllowed
        → ShowsRejected (scene_at of_one table side entries number m kinds.RejectNotAllowed)
        (component_with of_one table side entries number m kinds.RejectNotAllowed) }
{}
