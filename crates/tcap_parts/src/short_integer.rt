//! INTEGERs of one octet after a header of two octets, a fast path: most invoke IDs and local codes have this form.

ghost use Rattle.std.specs.Prelude.{◌≡◌, ◌∷◌, [], IfSome};
ghost use Rattle.tcap_ber.specs.Integer.{signed};
ghost use Rattle.tcap_parts.specs.ShortInteger.{BeginsWithOctet};

use crate::tags::INTEGER;

/// Returns the number of one octet in two's complement (X.690 8.3.3).
fn number(octet: u8) -> i8
    ensures { result ≡ signed (octet ∷ []) }
{
    if octet < 0x80 {
        octet as i8
    } else {
        -1 - (0xff - octet) as i8
    }
}

/// Returns the number of the INTEGER at the front if it has a header of two octets and one octet of content, else
/// `None`.
pub(crate) fn short_integer(octets: &[u8]) -> Option<i8>
    ensures found { IfSome result (λ n. BeginsWithOctet n octets.now) }
{
    match octets {
        [INTEGER, 1, octet, ..] => Some(number(*octet)),
        _ => None,
    }
}
