ghost use Rattle.std.specs.Prelude.{◌≡◌, [], List};
ghost use Rattle.tcap_record.specs.declared.entry.End.{End as Side};
ghost use Rattle.tcap_end.specs.Table.{Table};
ghost use Rattle.tcap_model.specs.World.{World, channel_from};
ghost use Rattle.tcap_model.specs.Run.{Event, Runs, numbers_sent, numbers_taken};

use tcap_model::laws;

/// Shows that the messages taken from a channel are all messages that its end sent, in order, if none is in transit.
pub fn all_taken()
    ensures { (table : Table) (events : List Event) (w : World) (side : Side) → Runs table events w
        → channel_from side w ≡ [] → numbers_taken side events ≡ numbers_sent side 0 w.sent }
{
    laws::channels_are_whole();
}
