//! NULL (X.690 8.8).

ghost use Rattle.std.specs.Prelude.{◌≡◌, ◌↔◌, [], Err, IsOk};
ghost use Rattle.tcap_ber.specs.declared.fault.Fault.{Fault};
ghost use Rattle.tcap_ber.specs.SmallInteger.{null};
ghost use Rattle.tcap_ber.specs.Reading.{Gives, element, span, null_at};

use crate::element::Tlv;
use crate::fault::{Fault, Reason};

#[tactic(auto, unfolding(crate::specs::Reading::null_at))]
fn read_null(tlv: Tlv) -> Result<(), Fault>
    ensures exact { Gives (λ x. x) result (null_at (element tlv.entry)) }
{
    if tlv.content.octets.is_empty() {
        Ok(())
    } else {
        Err(tlv.refused(Reason::BadSize))
    }
}

/// Checks that an element is NULL, which has no content (X.690 8.8.2).
///
/// # Errors
///
/// `BadSize` at the element's first octet if it has content.
pub fn null(tlv: Tlv) -> Result<(), Fault>
    ensures ok { IsOk result ↔ (tlv.entry.content.octets.now ≡ []) }
    ensures faulty { (fault : Fault) → (result ≡ Err fault)
        ↔ null.faulty tlv.entry.start (span tlv.entry.content) fault.reason fault.place }
    ensures exact { Gives (λ x. x) result (null_at (element tlv.entry)) }
{
    read_null(tlv)
}
