//! OBJECT IDENTIFIER elements (X.690 8.19).

ghost use Rattle.std.specs.Prelude.{◌≡◌, ℕ, List, Err, true, IfOk, IsOkAnd, IfSome, IsSome, ◌↔◌, IsTrue};
ghost use Rattle.tcap_ber.specs.declared.fault.Fault.{Fault};
ghost use Rattle.tcap_ber.specs.ObjectId.{IsObjectId, object_id};
ghost use Rattle.tcap_ber.specs.Reading.{Gives, element, span, is_object_id, object_id_at};

use crate::element::Tlv;
use crate::fault::{Fault, Reason};
use std::alloc::{AllocError, Global};
use std::marker::Model;

/// The borrowed contents of an OBJECT IDENTIFIER (X.690 8.19).
#[derive(Clone, Copy, Debug)]
pub struct ObjectIdView<'a> {
    /// The octets: one subidentifier after the other, and at least one (X.690 8.19.2).
    pub octets: &'a [u8],
    pub ghost valid: { is_object_id octets.now ≡ true },
}

/// The owned, valid contents of an OBJECT IDENTIFIER (X.690 8.19). Two are equal if their octets are.
#[derive(Debug, Drop)]
pub struct ObjectId {
    octets: Vec<u8>,
}

impl Model for ObjectId {
    ghost use Rattle.std.specs.Prelude.{List, ℕ, ◌≡◌, true};
    ghost use Rattle.tcap_ber.specs.Reading.{is_object_id};

    ghost Value = { List ℕ };

    ghost view = { λ a. a.octets.items };

    ghost invariant = { λ a. is_object_id a.octets.items ≡ true };
}

/// Returns whether `octets` are whole subidentifiers, and at least one.
fn is_read_object_id(octets: &[u8]) -> bool
    ensures { result ≡ is_object_id octets.now }
{
    // whether the next octet begins a subidentifier
    let mut start = true;
    for octet in octets {
        if start && *octet == 0x80 {
            return false;
        }
        start = *octet < 0x80;
    }
    start && !octets.is_empty()
}

fn is_object_id(octets: &[u8]) -> bool
    ensures id { IsTrue result ↔ IsObjectId octets.now }
    ensures exact { result ≡ is_object_id octets.now }
{
    is_read_object_id(octets)
}

#[tactic(auto, unfolding(crate::specs::Reading::object_id_at))]
fn read_object_id<'a>(tlv: Tlv<'a>) -> Result<ObjectIdView<'a>, Fault>
    ensures exact { Gives (λ id. id.octets.now) result (object_id_at (element tlv.entry)) }
{
    let octets = tlv.content.octets;
    if !is_object_id(octets) {
        return Err(Fault {
            reason: Reason::BadObjectId,
            place: tlv.start,
        });
    }
    Ok(ObjectIdView { octets })
}

/// Returns the contents of an OBJECT IDENTIFIER (X.690 8.19.2): at least one subidentifier, none with a needless
/// leading octet 80, and the last one complete. The tag is not checked.
///
/// # Errors
///
/// `BadObjectId` at the element's first octet if the contents are not an OBJECT IDENTIFIER.
pub fn object_id<'a>(tlv: Tlv<'a>) -> Result<ObjectIdView<'a>, Fault>
    // On success, the result is the contents, which are an OBJECT IDENTIFIER.
    ensures found { IfOk result (λ id. object_id.spells id.octets.now tlv.entry.content.octets.now) }
    // Contents that are an OBJECT IDENTIFIER are read.
    ensures only { (value : List ℕ) → object_id.spells value tlv.entry.content.octets.now
        → IsOkAnd result (λ id. id.octets.now ≡ value) }
    // The result is a fault exactly if the element has that fault.
    ensures faulty { (fault : Fault) → (result ≡ Err fault)
        ↔ object_id.faulty tlv.entry.start (span tlv.entry.content) fault.reason fault.place }
    ensures exact { Gives (λ id. id.octets.now) result (object_id_at (element tlv.entry)) }
{
    read_object_id(tlv)
}

impl<'a> ObjectIdView<'a> {
    /// Returns a view of `octets` if they are the contents of an OBJECT IDENTIFIER, else `None`.
    pub fn new(octets: &'a [u8]) -> Option<ObjectIdView<'a>>
        ensures found { IfSome result (λ id. id.octets.now ≡ octets.entry.now) }
        ensures exact { IsSome result ↔ IsObjectId octets.entry.now }
    {
        if is_object_id(octets) {
            Some(ObjectIdView { octets })
        } else {
            None
        }
    }

    /// Copies the octets into an owned [`ObjectId`].
    ///
    /// # Errors
    ///
    /// `AllocError` if memory runs out.
    pub fn to_object_id(self, alloc: Global) -> Result<ObjectId, AllocError>
        ensures { IfOk result (λ id. id ≡ self.entry.octets.now) }
    {
        Ok(ObjectId {
            octets: Vec::from_slice(alloc, self.octets)?,
        })
    }
}

impl ObjectId {
    /// Copies `octets` if they are the contents of an OBJECT IDENTIFIER, else returns `None`.
    ///
    /// # Errors
    ///
    /// `AllocError` if memory runs out.
    pub fn new(alloc: Global, octets: &[u8]) -> Result<Option<ObjectId>, AllocError>
        ensures found { IfOk result (λ made. IfSome made (λ id. id ≡ octets.now)) }
        ensures exact { IfOk result (λ made. IsSome made ↔ IsObjectId octets.now) }
    {
        match ObjectIdView::new(octets) {
            Some(view) => Ok(Some(view.to_object_id(alloc)?)),
            None => Ok(None),
        }
    }

    /// Returns the octets of the contents.
    pub fn octets(&self) -> &[u8]
        ensures value { result.now ≡ self.now }
        ensures valid { IsObjectId result.now }
    {
        self.octets.as_slice()
    }

    /// Returns a view of the octets.
    pub fn view(&self) -> ObjectIdView<'_>
        ensures { result.octets.now ≡ self.now }
    {
        ObjectIdView {
            octets: &self.octets,
        }
    }

    /// Copies this identifier.
    ///
    /// # Errors
    ///
    /// `AllocError` if memory runs out.
    pub fn copy(&self, alloc: Global) -> Result<ObjectId, AllocError>
        ensures { IfOk result (λ id. id ≡ self.now) }
    {
        self.view().to_object_id(alloc)
    }
}

impl PartialEq for ObjectId {
    ghost use Rattle.std.specs.Prelude.{nat_eq};
    ghost use Rattle.std.specs.Cmp.{partial_equiv_from_equiv};
    ghost use Rattle.std.specs.Cmp.Lexicographic.{pointwise, nat_list_eq_equiv};

    ghost eq = { pointwise nat_eq };

    ghost laws = { partial_equiv_from_equiv nat_list_eq_equiv };

    fn eq(&self, other: &ObjectId) -> bool {
        self.octets() == other.octets()
    }
}

impl Eq for ObjectId {
    ghost use Rattle.std.specs.Cmp.Lexicographic.{nat_list_eq_equiv};

    ghost laws = { nat_list_eq_equiv };
}
