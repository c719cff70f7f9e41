ghost use Rattle.std.specs.Prelude.{◌≡◌, ◌++◌, ℕ, List, Some, IfOk, IfSome};
ghost use Rattle.tcap_parts.specs.declared.component.Component.{Component};
ghost use Rattle.tcap_parts.specs.Component.{SpellsComponent};

use std::alloc::{AllocError, Global};
use tcap_ber::Window;
use tcap_parts::{Component, view_component};

/// Copies the component (Q.773 4.2.2) at the front of `octets`. Returns `None` if they begin with no component.
pub fn first_component(alloc: Global, octets: &[u8]) -> Result<Option<Component>, AllocError>
    // The octets begin with a spelling of the component that is returned.
    ensures found { IfOk result (λ answer. IfSome answer (λ component. (front rest : List ℕ)
        × SpellsComponent component front × (octets.now ≡ front ++ rest))) }
    // If the octets begin with a spelling of a component, it is returned, unless memory runs out.
    ensures only { (component : Component) (front rest : List ℕ) → SpellsComponent component front
        → octets.now ≡ front ++ rest → IfOk result (λ answer. answer ≡ Some component) }
{
    match view_component(Window::new(octets)) {
        Ok((view, _)) => Ok(Some(view.to_component(alloc)?)),
        Err(_) => Ok(None),
    }
}
