//! Iterators over the components of a portion.

ghost use Rattle.std.specs.Prelude.{◌≡◌, true};
ghost use Rattle.tcap_ber.specs.Reading.{span, is_read};
ghost use Rattle.tcap_parts.specs.Reading.{components_at};

use crate::component::{Component, ComponentView};
use crate::reading::view_component;
use tcap_ber::Window;

/// An iterator over the components that octets spell. Each call of `next` reads one component again.
#[derive(Debug, Drop)]
pub struct OctetComponents<'a> {
    pub(crate) rest: Window<'a>,
    pub ghost whole: { is_read (components_at (span rest)) ≡ true },
}

/// An iterator over the components of a portion, which are octets or values.
#[derive(Debug, Drop)]
pub enum Components<'a> {
    /// Components as octets.
    Octets(OctetComponents<'a>),
    /// Components as values.
    Values(&'a [Component]),
}

impl<'a> Iterator for OctetComponents<'a> {
    ghost use Rattle.std.specs.Iterator.{item_count, YieldsFirstBy};
    ghost use Rattle.tcap_parts.specs.Meaning.{component_of, octet_components_left};

    type Item = ComponentView<'a>;

    ghost next_gives = { YieldsFirstBy component_of octet_components_left };

    ghost remaining = { item_count octet_components_left };

    fn next(&mut self) -> Option<ComponentView<'a>> {
        if self.rest.octets.is_empty() {
            return None;
        }
        let Ok((component, rest)) = view_component(self.rest) else {
            unreachable!()
        };
        self.rest = rest;
        Some(component)
    }
}

impl<'a> Iterator for Components<'a> {
    ghost use Rattle.std.specs.Iterator.{item_count, YieldsFirstBy};
    ghost use Rattle.tcap_parts.specs.Meaning.{component_of, components_left};

    type Item = ComponentView<'a>;

    ghost next_gives = { YieldsFirstBy component_of components_left };

    ghost remaining = { item_count components_left };

    fn next(&mut self) -> Option<ComponentView<'a>> {
        match self {
            Components::Octets(components) => components.next(),
            Components::Values(components) => {
                let (first, rest) = components.split_first()?;
                *components = rest;
                Some(first.view())
            }
        }
    }
}
