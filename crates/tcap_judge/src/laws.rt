//! Laws that relate blame, certificates, and octets with the items that are read from them. Each function has an empty
//! body, and its contract is the law.

ghost use Rattle.std.specs.Prelude.{◌≡◌, ◌≤◌, ℕ, List, length, Result, Some, Ok, None};
ghost use Rattle.std.specs.List.{AllByRecursion};
ghost use Rattle.tcap_record.specs.declared.entry.End.{End as Side};
ghost use Rattle.tcap_record.specs.declared.entry.Entry.{Entry};
ghost use Rattle.tcap_record.specs.declared.fault.FeedFault.{FeedFault};
ghost use Rattle.tcap_record.specs.RecordOctets.{entry_limit};
ghost use Rattle.tcap_record.specs.Reading.{IsReadAs};
ghost use Rattle.tcap_end.specs.Table.{Table};
ghost use Rattle.tcap_model.specs.Entries.{AreItems};
ghost use Rattle.tcap_model.specs.Run.{Event, IsRunOf};
ghost use Rattle.tcap_model.specs.World.{Item};
ghost use Rattle.tcap_certificate.specs.Certificate.{Certificate, IsPrompt, prompt};
ghost use Rattle.tcap_certificate.specs.DescribedRun.{IsPlain};
ghost use Rattle.tcap_check.specs.GivenRun.{DeliversAtOnce, IsVisible};
ghost use Rattle.tcap_certificate.specs.Replay.{replayed_by};
ghost use Rattle.tcap_refute.specs.declared.kind.Refutation.{Refutation};
ghost use Rattle.tcap_faults.specs.Fault.{blamed};
ghost use Rattle.tcap_judge.specs.LawfulRecord.{SpellsRecord};
ghost use Rattle.tcap_judge.specs.RecordReading.{IsOfOctets};

/// Shows that no certificate gives a run for an end on which an entry is blamed: no end is both lawful alone and at
/// fault.
pub fn blamed_is_never_given()
    ensures { (table : Table) (side : Side) (c : Certificate) (entries : List Entry) (r : Refutation)
        (events : List Event)
        → blamed table side entries ≡ Some r → replayed_by (Some side) table c entries ≡ Ok events → ⊥ }
{}

/// Shows that octets which at most 100,000 items spell are read as these items without a fault, unless memory runs out
/// or the reader fails.
pub fn octets_are_read_as_their_items()
    ensures { (items : List Item) (octets : List ℕ) (entries : List Entry) (end : Result (Unit {0}) FeedFault)
        → SpellsRecord items octets → length items ≤ entry_limit → IsReadAs entries end octets → IsOfOctets end
        → (end ≡ Ok tt) × AreItems entries items }
{}

/// Shows the converse: octets that are read as entries which are items spell these items.
pub fn what_is_read_spells_its_items()
    ensures { (items : List Item) (octets : List ℕ) (entries : List Entry)
        → IsReadAs entries (Ok tt) octets → AreItems entries items → SpellsRecord items octets }
{}

/// Shows that octets spell at most one list of items.
pub fn octets_spell_one_list()
    ensures { (items others : List Item) (octets : List ℕ)
        → SpellsRecord items octets → SpellsRecord others octets → items ≡ others }
{}

/// Shows when the prompt certificate gives a run for the octets of at most 100,000 items: if some run without hidden
/// steps sends these items and delivers each message before the next. So `check` finds the record lawful, unless memory
/// runs out.
pub fn prompt_octets_are_given()
    ensures { (table : Table) (items : List Item) (octets : List ℕ) (entries : List Entry) (events : List Event)
        → SpellsRecord items octets → length items ≤ entry_limit → IsReadAs entries (Ok tt) octets
        → IsRunOf items table events → AllByRecursion IsVisible events → DeliversAtOnce table events
        → (given : List Event) × (replayed_by None table (prompt (length items)) entries ≡ Ok given) }
{}

/// Shows the converse: if a prompt certificate gives a run for the entries read from octets, the octets spell items,
/// and some run sends exactly these. This run delivers each message before the next is sent, and has no loss, no
/// provider's reply and no closing.
pub fn prompt_certificates_say_so_of_octets()
    ensures { (table : Table) (c : Certificate) (octets : List ℕ) (entries : List Entry) (events : List Event)
        → IsReadAs entries (Ok tt) octets → IsPrompt c → replayed_by None table c entries ≡ Ok events
        → (items : List Item) × SpellsRecord items octets × IsRunOf items table events
        × DeliversAtOnce table events × AllByRecursion IsPlain events }
{}
