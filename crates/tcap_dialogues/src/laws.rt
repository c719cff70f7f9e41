//! Laws over all runs. Each function has an empty body, and its contract is the law.

ghost use Rattle.std.specs.Prelude.{◌≡◌, ◌+◌, ◌<◌, ℕ, Bool, true, false, List, ◌++◌, ◌∷◌, [], Contains, Some, filter, length, map, slice_get, take};
ghost use Rattle.tcap_record.specs.declared.entry.End.{End as Side};
ghost use Rattle.tcap_end.specs.Table.{Table};
ghost use Rattle.tcap_model.specs.World.{Item};
ghost use Rattle.tcap_model.specs.Run.{IsLawful, IsLawfulFor};
ghost use Rattle.tcap_msg.specs.declared.message.Message.{Message};
ghost use Rattle.tcap_model.specs.World.{Sent, has_quiet};
ghost use Rattle.tcap_dialogues.specs.Course.{Course, Heading, bare, courses_of, courses_so_far, has_entry, headings_of, is_free};
ghost use Rattle.tcap_dialogues.specs.declared.reuse.Reuse.{Reuse};
ghost use Rattle.tcap_dialogues.specs.declared.reuse.Reuse.TheVariants as reuses;
ghost use Rattle.tcap_dialogues.specs.DialoguesOfList.{Dialogue, IdOf, dialogues_of, is_among, is_of};
ghost use Rattle.tcap_dialogues.specs.CutDialogues.{AreCompleteDialogues};
ghost use Rattle.tcap_dialogues.specs.Part.{IsClosed, part_of};
ghost use Rattle.tcap_dialogues.specs.declared.complete_dialogue.CompleteDialogue.{CompleteDialogue};

/// Shows that a lawful end may have sent its part of each part of a list, with the quiet marks, if this part shares no
/// transaction ID with the rest (Q.774 3.3). So a fault in a dialogue is a fault in the record.
pub fn part_keeps_rules()
    ensures { (side : Side) (items : List Item) (table : Table) (keeps : ℕ → Bool) → IsClosed keeps items
        → IsLawfulFor side items table → IsLawfulFor side (part_of keeps 0 items) table }
{}

/// Shows that two lawful ends may have sent each part of a list that shares no transaction ID with the rest, with the
/// quiet marks.
pub fn part_is_lawful()
    ensures { (items : List Item) (table : Table) (keeps : ℕ → Bool) (moves : ℕ) → IsClosed keeps items
        → IsLawful items table moves → (fewer : ℕ) × IsLawful (part_of keeps 0 items) table fewer }
{}

/// Shows that an end may have sent the items after a quiet mark alone, since all IDs are free again after the mark.
pub fn segment_keeps_rules()
    ensures { (side : Side) (before items : List Item) (table : Table)
        → IsLawfulFor side (before ++ Item.Quiet ∷ items) table → IsLawfulFor side items table }
{}

/// Shows that a dialogue of a list shares no transaction ID with the rest of the list.
pub fn dialogues_share_nothing()
    ensures { (items : List Item) (d : Dialogue) → Contains (dialogues_of items) d → IsClosed (is_of d) items }
{}

/// Shows that each part that shares no ID with the rest has all messages of a dialogue, or none. So a dialogue cannot
/// be divided further.
pub fn dialogues_are_whole()
    ensures { (items : List Item) (keeps : ℕ → Bool) (d : Dialogue) (i j : ℕ) → IsClosed keeps items
        → Contains (dialogues_of items) d → is_of d i ≡ true → is_of d j ≡ true → keeps i ≡ keeps j }
{}

/// Shows that each message is in exactly one dialogue.
pub fn each_message_has_one()
    ensures { (items : List Item) (n : ℕ) (side : Side) (m : Message) → slice_get items n ≡ Some (Sent side m)
        → (d : Dialogue) × Contains (dialogues_of items) d × (is_of d n ≡ true)
        × ((other : Dialogue) → Contains (dialogues_of items) other → is_of other n ≡ true → other ≡ d) }
{}

/// Shows that a lawful end may have sent its part of each dialogue of a list.
pub fn dialogue_keeps_rules()
    ensures { (side : Side) (items : List Item) (table : Table) (d : Dialogue) → Contains (dialogues_of items) d
        → IsLawfulFor side items table → IsLawfulFor side (part_of (is_of d) 0 items) table }
{}

/// Shows that each entry of a segment is in exactly one dialogue, if transaction IDs may be reused.
pub fn each_entry_has_one()
    ensures { (reuse : Reuse) (headings : List Heading) (n : ℕ) → n < length headings
        → (d : Course) × Contains (courses_of reuse headings) d × (has_entry d n ≡ true)
        × ((other : Course) → Contains (courses_of reuse headings) other → has_entry other n ≡ true → other ≡ d) }
{}

/// Shows that a dialogue without reused IDs shares no ID with the rest of the segment up to each of its entries.
pub fn course_is_closed()
    ensures { (reuse : Reuse) (items : List Item) (headings : List Heading) (d : Course) (n : ℕ)
        → has_quiet items ≡ false
        → map bare headings ≡ headings_of items → Contains (courses_of reuse headings) d → d.again ≡ false
        → has_entry d n ≡ true → IsClosed (has_entry d) (take (n + 1) items) }
{}

/// Shows that a lawful end may have sent its part of a dialogue without reused IDs, up to each of its entries. So a
/// fault in the dialogue is a fault in the segment.
pub fn course_keeps_rules()
    ensures { (side : Side) (reuse : Reuse) (items : List Item) (headings : List Heading) (table : Table) (d : Course)
        (n : ℕ)
        → has_quiet items ≡ false → map bare headings ≡ headings_of items → Contains (courses_of reuse headings) d
        → d.again ≡ false → has_entry d n ≡ true → IsLawfulFor side (take (n + 1) items) table
        → IsLawfulFor side (part_of (has_entry d) 0 (take (n + 1) items)) table }
{}

/// Shows that, if an ID of a dialogue came again, another dialogue of the segment has this ID.
pub fn again_is_shared()
    ensures { (reuse : Reuse) (headings : List Heading) (d : Course) → Contains (courses_of reuse headings) d
        → d.again ≡ true → (e : Course) × Contains (courses_of reuse headings) e
        × ((n : ℕ) × (has_entry e n ≡ true) × (has_entry d n ≡ false))
        × ((id : IdOf) × (is_among d.ids id ≡ true) × (is_among e.ids id ≡ true)) }
{}

/// Shows that, if IDs are not reused, the dialogues of a segment are those of the list of its messages.
pub fn once_is_the_cut()
    ensures { (items : List Item) (headings : List Heading) → has_quiet items ≡ false
        → map bare headings ≡ headings_of items
        → map (λ d. record { numbers = d.numbers; ids = d.ids }) (courses_of reuses.Once headings)
        ≡ dialogues_of items }
{}

/// Shows that all that a [`Cut`](crate::Cut) hands over represents the dialogues of the segment. The dialogues handed
/// over so far represent those that are done. They still do with those handed over at the next entry, and at the end
/// they represent all dialogues of the segment.
pub fn handed_over_are_all()
    ensures next { (reuse : Reuse) (headings : List Heading) (before given : List CompleteDialogue)
        → AreCompleteDialogues (courses_so_far reuse headings).done before → (h : Heading)
        → let s = courses_so_far reuse headings in AreCompleteDialogues
        (filter (is_free reuse (length headings) s h) s.live) given
        → AreCompleteDialogues (courses_so_far reuse (headings ++ h ∷ [])).done (before ++ given) }
    ensures end { (reuse : Reuse) (headings : List Heading) (before given : List CompleteDialogue)
        → AreCompleteDialogues (courses_so_far reuse headings).done before
        → AreCompleteDialogues (courses_so_far reuse headings).live given
        → AreCompleteDialogues (courses_of reuse headings) (before ++ given) }
{}
