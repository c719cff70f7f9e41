//! The own invocations of a half.

ghost use Rattle.std.specs.Prelude.{◌≡◌, ◌≤◌, OnErr, OnOk};
ghost use Rattle.std.specs.Ordering.{int_cmp};
ghost use Rattle.std.specs.List.{insert};
ghost use Rattle.std.specs.Map.{keys_of};
ghost use Rattle.std.specs.Vec.{vec_len};
ghost use Rattle.std.specs.List.Sorted.{IsStrictlySortedBy, IsStrictlySortedBy-prop};

use crate::half::InvocationState;
use std::alloc::{AllocError, Global};
use std::cmp::Ordering;
use std::mem;
use tcap_parts::Code;

/// An own invocation: its operation, and its state.
#[derive(Debug, Drop)]
pub(crate) struct OwnInvocation {
    pub(crate) code: Code,
    pub(crate) state: InvocationState,
}

/// Own invocations by their invoke IDs. Once an ID has a place, changing the invocation there does not allocate.
#[derive(Debug, Drop)]
pub(crate) struct Outs {
    // In the order of the IDs: at most 256.
    places: Vec<(i8, Option<OwnInvocation>)>,
    ghost ordered: { IsStrictlySortedBy int_cmp (keys_of places.items) } by { IsStrictlySortedBy-prop int_cmp
        (keys_of places.items) },
}

/// Inserts a place. The first place reserves memory for itself alone, because many halves have only one.
fn insert_at(
    places: &mut Vec<(i8, Option<OwnInvocation>)>,
    at: usize,
    place: (i8, Option<OwnInvocation>),
) -> Result<(), AllocError>
    requires { at ≤ vec_len places.old }
    ensures put { OnOk result (places.new.items ≡ insert places.old.items at place) }
    ensures kept { OnErr result (places.new.items ≡ places.old.items) }
{
    if places.is_empty() {
        places.try_reserve_exact(1)?;
    }
    places.insert(at, place)?;
    Ok(())
}

impl Outs {
    ghost use Rattle.std.specs.Prelude.{ℤ, [], Some, option_copied, IfOk};
    ghost use Rattle.std.specs.List.Sorted.{IsSearchInRange};
    ghost use Rattle.std.specs.Map.{lookup};
    ghost use Rattle.std.specs.BTreeMap.{is_at};
    ghost use Rattle.tcap_end.specs.OwnInvocations.{HasPlace, found_at, kept_outs, with_state, with_out};

    /// Creates a list without invocations.
    pub(crate) fn new(alloc: Global) -> Outs
        ensures { kept_outs result ≡ [] }
    {
        Outs {
            places: Vec::new(alloc),
        }
    }

    /// Returns the index of an ID's place, or as an error the index at which it would be inserted.
    fn find(&self, id: i8) -> Result<usize, usize>
        ensures value { result ≡ found_at id self.now.places.items }
        ensures range { IsSearchInRange result (vec_len self.now.places) }
    {
        self.places.binary_search_by(
            |place: &(i8, Option<OwnInvocation>)| -> Ordering
                ensures { result ≡ int_cmp place.now.0 id }
            { place.0.cmp(&id) },
        )
    }

    /// Returns the invocation of an ID.
    pub(crate) fn get(&self, id: i8) -> Option<&OwnInvocation>
        ensures { option_copied result ≡ lookup (is_at (int_cmp id)) (kept_outs self.now) }
    {
        match self.find(id) {
            Ok(at) => self.places[at].1.as_ref(),
            Err(_) => None,
        }
    }

    /// Puts an invocation in the place of an ID, which is made if there is none, and returns the invocation that was
    /// there.
    pub(crate) fn join(
        &mut self,
        id: i8,
        invocation: OwnInvocation,
    ) -> Result<Option<OwnInvocation>, AllocError>
        ensures was { IfOk result (λ was. was ≡ lookup (is_at (int_cmp id)) (kept_outs self.old)) }
        ensures put { OnOk result (kept_outs self.new ≡ with_out id (Some invocation) (kept_outs self.old)) }
        ensures kept { OnErr result (kept_outs self.new ≡ kept_outs self.old) }
        ensures made { OnOk result (HasPlace id self.new) }
        ensures others { (other : ℤ) → HasPlace other self.old → HasPlace other self.new }
    {
        match self.find(id) {
            Ok(at) => Ok(mem::replace(&mut self.places[at].1, Some(invocation))),
            Err(at) => {
                insert_at(&mut self.places, at, (id, Some(invocation)))?;
                Ok(None)
            }
        }
    }

    /// Puts an invocation, or none, in the place of an ID, and returns the invocation that was there.
    pub(crate) fn put(&mut self, id: i8, invocation: Option<OwnInvocation>) -> Option<OwnInvocation>
        requires made { HasPlace id self.old }
        ensures was { result ≡ lookup (is_at (int_cmp id)) (kept_outs self.old) }
        ensures put { kept_outs self.new ≡ with_out id invocation (kept_outs self.old) }
        ensures others { (other : ℤ) → HasPlace other self.old → HasPlace other self.new }
    {
        match self.find(id) {
            Ok(at) => mem::replace(&mut self.places[at].1, invocation),
            Err(_) => unreachable!(),
        }
    }

    /// Sets the state of the invocation of an ID, if there is one.
    pub(crate) fn set_state(&mut self, id: i8, state: InvocationState)
        requires made { HasPlace id self.old }
        ensures in_state { kept_outs self.new ≡ with_state id state (kept_outs self.old) }
        ensures others { (other : ℤ) → HasPlace other self.old → HasPlace other self.new }
    {
        if let Some(OwnInvocation { code, .. }) = self.put(id, None) {
            self.put(id, Some(OwnInvocation { code, state }));
        }
    }
}
