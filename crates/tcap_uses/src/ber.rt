ghost use Rattle.std.specs.Prelude.{◌≡◌, ◌∷◌, [], ◌++◌, ℕ, List, IfOk, IsOkAnd};
ghost use Rattle.tcap_ber.specs.Element.{IsElement};
ghost use Rattle.tcap_ber.specs.Integer.{IsInteger};

use tcap_ber::{Fault, Window, integer, required};

/// Reads the INTEGER element (tag 02, X.690 8.3) at the front of `octets`. Returns its contents.
pub fn integer_content(octets: &[u8]) -> Result<&[u8], Fault>
    // `octets` begin with such an element, and these are its contents.
    ensures found { IfOk result (λ content. IsInteger content.now
        × ((element rest : List ℕ) × IsElement (0x02 ∷ []) content.now element
        × (octets.now ≡ element ++ rest))) }
    // If `octets` begin with such an element, its contents are returned.
    ensures only { (content element rest : List ℕ) → IsElement (0x02 ∷ []) content element → IsInteger content
        → octets.now ≡ element ++ rest → IsOkAnd result (λ found. found.now ≡ content) }
{
    let (found, _) = required(Window::new(octets), 0x02)?;
    integer(found)
}
