//! The component portion (Q.773 4.2.2): one component after the other, and at least one.

ghost use Rattle.std.specs.Prelude.{◌≡◌, ◌≢◌, [], ◌<◌, ◌↔◌, length, slice_get, true, IfOk, IfSome, IsSome, OnOk, IfErr, Err, List, IsOkAnd, Some};
ghost use Rattle.tcap_ber.specs.declared.fault.Fault.{Fault};
ghost use Rattle.tcap_parts.specs.declared.component.Component.{Component};
ghost use Rattle.tcap_parts.specs.Component.{portion, SpellsPortion};
ghost use Rattle.tcap_ber.specs.Reading.{Gives, span, element, is_read, read_or_none};
ghost use Rattle.tcap_parts.specs.Reading.{components_at, portion_at};

use crate::component::{Component, ComponentView};
use crate::components::{Components, OctetComponents};
use crate::reading::view_component;
use std::alloc::{AllocError, Global};
use std::fmt;
use std::marker::Model;
use tcap_ber::{Fault, Reason, Tlv, Window};

/// The octets of a component portion, which are all components.
#[derive(Clone, Copy)]
pub struct OctetPortion<'a> {
    content: Window<'a>,
    // The number of components.
    count: usize,
    pub ghost whole: { is_read (components_at (span content)) ≡ true },
    pub ghost some: { 0 < length content.octets.now },
    pub ghost counted: { count ≡ length (read_or_none (components_at (span content))) },
}

// Prints the octets only: the count follows from them.
impl fmt::Debug for OctetPortion<'_> {
    fn fmt<W: fmt::Write>(&self, f: &mut fmt::Formatter<W>) -> fmt::Result {
        f.debug_struct("OctetPortion")
            .field("content", &self.content)
            .finish()
    }
}

/// A borrowed component portion, which is octets or a value.
#[derive(Clone, Copy, Debug)]
pub enum PortionView<'a> {
    /// A portion as octets.
    Octets(OctetPortion<'a>),
    /// A portion as a value.
    Value(&'a Portion),
}

/// An owned component portion: at least one component.
#[derive(Debug, Drop)]
pub struct Portion {
    components: Vec<Component>,
}

impl Model for Portion {
    ghost use Rattle.std.specs.Prelude.{List, ◌≢◌, []};
    ghost use Rattle.tcap_parts.specs.declared.component.Component.{Component};

    ghost Value = { List Component };

    ghost view = { λ a. a.components.items };

    ghost invariant = { λ a. a.components.items ≢ [] };
}

impl Portion {
    ghost use Rattle.tcap_parts.specs.Meaning.{components_of};

    /// Returns the components as a portion, or `None` if there are none.
    pub fn new(components: Vec<Component>) -> Option<Portion>
        ensures found { IfSome result (λ portion. portion ≡ components.items) }
        ensures exact { IsSome result ↔ (components.items ≢ []) }
    {
        if components.is_empty() {
            None
        } else {
            Some(Portion { components })
        }
    }

    /// Returns the components in their order.
    pub fn items(&self) -> &[Component]
        ensures value { result.now ≡ self.now }
        ensures some { result.now ≢ [] }
    {
        self.components.as_slice()
    }

    /// Returns a view of the portion.
    pub fn view(&self) -> PortionView<'_>
        ensures { components_of result ≡ self.now }
    {
        PortionView::Value(self)
    }

    /// Copies the portion.
    ///
    /// # Errors
    ///
    /// `AllocError` if memory runs out.
    pub fn copy(&self, alloc: Global) -> Result<Portion, AllocError>
        ensures { IfOk result (λ portion. portion ≡ self.now) }
    {
        self.view().to_portion(alloc)
    }
}

/// Reads each component of `content`. Returns their number, or the first fault.
fn check_components(content: Window) -> Result<usize, Fault>
    ensures ok { OnOk result (is_read (components_at (span content.entry)) ≡ true) }
    ensures counted { IfOk result (λ n. n ≡ length (read_or_none (components_at (span content.entry)))) }
    ensures err { IfErr result (λ fault. components_at (span content.entry) ≡ Err fault) }
{
    let mut rest = content;
    let mut count = 0;
    while !rest.octets.is_empty() {
        let (_, behind) = view_component(rest)?;
        rest = behind;
        count += 1;
    }
    Ok(count)
}

impl<'a> PortionView<'a> {
    ghost use Rattle.tcap_parts.specs.Meaning.{component_of, components_of, components_left};

    #[tactic(auto, unfolding(crate::specs::Reading::portion_at))]
    fn from_content(tlv: Tlv<'a>) -> Result<PortionView<'a>, Fault>
        ensures exact { Gives components_of result (portion_at (element tlv.entry)) }
    {
        if tlv.content.octets.is_empty() {
            return Err(Fault {
                reason: Reason::EmptyComponents,
                place: tlv.start,
            });
        }
        let count = check_components(tlv.content)?;
        Ok(PortionView::Octets(OctetPortion {
            content: tlv.content,
            count,
        }))
    }

    /// Reads the component portion in an element of tag 6C, and returns a view that borrows its octets (Q.773 4.2.2).
    /// The tag is not checked.
    ///
    /// # Errors
    ///
    /// `EmptyComponents` at the element if it has no content, else the first fault from left to right in its content.
    pub fn read(tlv: Tlv<'a>) -> Result<PortionView<'a>, Fault>
        // On success, all of the content spells the components.
        ensures found { IfOk result (λ view. SpellsPortion (components_of view) tlv.entry.content.octets.now) }
        // Components that all of the content spells are read.
        ensures only { (components : List Component) → SpellsPortion components tlv.entry.content.octets.now
            → IsOkAnd result (λ view. components_of view ≡ components) }
        // The result is a fault exactly if the element has that fault.
        ensures faulty { (fault : Fault) → (result ≡ Err fault)
            ↔ portion.faulty tlv.entry.start (span tlv.entry.content) fault.reason fault.place }
        ensures exact { Gives components_of result (portion_at (element tlv.entry)) }
    {
        PortionView::from_content(tlv)
    }

    fn some_components(self) -> Components<'a>
        ensures left { components_left result ≡ components_of self.entry }
        ensures some { components_of self.entry ≢ [] }
    {
        match self {
            PortionView::Octets(portion) => Components::Octets(OctetComponents {
                rest: portion.content,
            }),
            PortionView::Value(portion) => Components::Values(portion.items()),
        }
    }

    /// Returns an iterator over the components.
    pub fn components(self) -> Components<'a>
        ensures { components_left result ≡ components_of self.entry }
    {
        self.some_components()
    }

    /// Returns the number of components.
    pub fn count(self) -> usize
        ensures { result ≡ length (components_of self.entry) }
    {
        match self {
            PortionView::Octets(portion) => portion.count,
            PortionView::Value(portion) => portion.items().len(),
        }
    }

    /// Returns the component at `index`, counted from 0. There must be one. If the portion is octets, the components
    /// before it are read too.
    pub fn component(self, index: usize) -> ComponentView<'a>
        requires { index < length (components_of self) }
        ensures { slice_get (components_of self.entry) index ≡ Some (component_of result) }
    {
        match self {
            PortionView::Octets(_) => self.components().nth(index).unwrap(),
            PortionView::Value(portion) => portion.items()[index].view(),
        }
    }

    /// Copies the components into an owned portion.
    ///
    /// # Errors
    ///
    /// `AllocError` if memory runs out.
    pub fn to_portion(self, alloc: Global) -> Result<Portion, AllocError>
        ensures { IfOk result (λ portion. portion ≡ components_of self.entry) }
    {
        let mut components = Vec::with_capacity(alloc, self.count())?;
        for component in self.some_components() {
            components.push(component.to_component(alloc)?)?;
        }
        Ok(Portion { components })
    }
}
