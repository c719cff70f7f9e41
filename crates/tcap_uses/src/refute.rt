ghost use Rattle.std.specs.Prelude.{◌≡◌, List, map, Some, Ok, None};
ghost use Rattle.tcap_record.specs.declared.entry.Entry.{Entry};
ghost use Rattle.tcap_end.specs.Table.{Table};
ghost use Rattle.tcap_certificate.specs.Certificate.{Certificate};
ghost use Rattle.tcap_model.specs.Entries.{item_of};
ghost use Rattle.tcap_model.specs.Run.{Event};
ghost use Rattle.tcap_certificate.specs.Replay.{replayed_by};
ghost use Rattle.tcap_refute.specs.declared.kind.Refutation.{Refutation};
ghost use Rattle.tcap_refute.specs.Kind.{refuted};

use tcap_check::given_run_laws;
use tcap_refute::laws;

/// Shows that no certificate gives a run for a record that is refuted.
pub fn no_certificate_helps()
    ensures { (table : Table) (c : Certificate) (entries : List Entry) (r : Refutation) (events : List Event)
        → refuted table (map item_of entries) ≡ Some r → replayed_by None table c entries ≡ Ok events → ⊥ }
{
    given_run_laws::what_is_given_is_lawful();
    laws::refuted_is_never_lawful();
}
