//! Laws of one end. The contract of each function is a theorem about the steps.

ghost use Rattle.std.specs.Prelude.{◌≡◌, ℤ, Ok};
ghost use Rattle.tcap_msg.specs.declared.message.Message.{Message};
ghost use Rattle.tcap_end.specs.Table.{Table};
ghost use Rattle.tcap_end.specs.declared.half.HalfName.{HalfName};
ghost use Rattle.tcap_end.specs.declared.half.Phase.TheVariants as Phase;
ghost use Rattle.tcap_end.specs.End.{End, KeyedHalf, nothing, quiet};
ghost use Rattle.tcap_end.specs.Message.{receive, send};
ghost use Rattle.tcap_end.specs.HiddenSteps.{close, expire};
ghost use Rattle.tcap_end.specs.ReachableEnd.{HasHalf, IsEnd};

use crate::end_state::EndState;

/// Shows that the value of an `EndState` is an end for which the laws below hold.
pub fn is_end(end: &EndState)
    ensures { IsEnd end.now }
{
    end.is_end();
}

/// Shows that an end without halves is sound.
pub fn nothing_is_sound()
    ensures { IsEnd nothing }
{}

/// Shows that an end is still sound after it sends a message: no two halves have the same own transaction ID, and no
/// two the same peer's ID.
pub fn sent_is_sound()
    ensures { (table : Table) (e next : End) (m : Message) → IsEnd e → send table e m ≡ Ok next → IsEnd next }
{}

/// Shows that an end is still sound after it receives a message.
pub fn received_is_sound()
    ensures { (table : Table) (e next : End) (m : Message) → IsEnd e → receive table e m ≡ Ok next → IsEnd next }
{}

/// Shows that an end is still sound after an invocation expires.
pub fn expired_is_sound()
    ensures { (table : Table) (e next : End) (name : HalfName) (id : ℤ) → IsEnd e → expire table e name id ≡ Ok next
        → IsEnd next }
{}

/// Shows that an end is still sound after a half closes without a message.
pub fn closed_is_sound()
    ensures { (table : Table) (e next : End) (name : HalfName) → IsEnd e → close table e name ≡ Ok next → IsEnd next }
{}

/// Shows that an end is still sound after a quiet mark.
pub fn quieted_is_sound()
    ensures { (e next : End) → quiet e ≡ Ok next → IsEnd next }
{}

/// Shows that no message that the end sends changes a closed half.
pub fn closed_while_sending()
    ensures { (table : Table) (e next : End) (m : Message) (f : KeyedHalf) → IsEnd e → HasHalf e f
        → f.half.phase ≡ Phase.Closed
        → send table e m ≡ Ok next → HasHalf next f }
{}

/// Shows that no message that the end receives changes a closed half.
pub fn closed_while_receiving()
    ensures { (table : Table) (e next : End) (m : Message) (f : KeyedHalf) → IsEnd e → HasHalf e f
        → f.half.phase ≡ Phase.Closed
        → receive table e m ≡ Ok next → HasHalf next f }
{}

/// Shows that the expiry of an invocation changes no closed half.
pub fn closed_while_expiring()
    ensures { (table : Table) (e next : End) (name : HalfName) (id : ℤ) (f : KeyedHalf) → IsEnd e → HasHalf e f
        → f.half.phase ≡ Phase.Closed
        → expire table e name id ≡ Ok next → HasHalf next f }
{}

/// Shows that closing a half without a message changes no closed half.
pub fn closed_while_closing()
    ensures { (table : Table) (e next : End) (name : HalfName) (f : KeyedHalf) → IsEnd e → HasHalf e f
        → f.half.phase ≡ Phase.Closed
        → close table e name ≡ Ok next → HasHalf next f }
{}
