//! Elements that are kept verbatim.

ghost use Rattle.std.specs.Prelude.{◌≡◌, ◌<◌, ◌+◌, ◌++◌, ℕ, List, Option, Err, length, true, IfOk, IsOkAnd, IfSome, IsSome, ◌↔◌, IsTrue};
ghost use Rattle.std.specs.Option.{option_map};
ghost use Rattle.tcap_ber.specs.declared.fault.Fault.{Fault};
ghost use Rattle.tcap_ber.specs.Element.{IsRaw};
ghost use Rattle.tcap_ber.specs.Grammar.{IsElementFault, parameter, verbatim};
ghost use Rattle.tcap_ber.specs.FrontElement.{Taken};
ghost use Rattle.tcap_ber.specs.Reading.{Gives, span, is_raw, raw_at, verbatim_at, parameter_at};

use crate::element::{Outer, Window};
use crate::fault::Fault;
use crate::window::{next_tlv, outer, required};
use std::alloc::{AllocError, Global};
use std::marker::Model;

/// Borrowed octets that are exactly one element.
#[derive(Clone, Copy, Debug)]
pub struct RawView<'a> {
    /// The element's octets.
    pub octets: &'a [u8],
    pub ghost whole: { is_raw octets.now ≡ true },
}

/// Owned octets that are exactly one element, with any tag.
#[derive(Debug, Drop)]
pub struct Raw {
    octets: Vec<u8>,
}

impl Model for Raw {
    ghost use Rattle.std.specs.Prelude.{List, ℕ, ◌≡◌, true};
    ghost use Rattle.tcap_ber.specs.Reading.{is_raw};

    ghost Value = { List ℕ };

    ghost view = { λ a. a.octets.items };

    ghost invariant = { λ a. is_raw a.octets.items ≡ true };
}

#[tactic(auto, unfolding(crate::specs::Reading::is_raw))]
fn is_read_whole(octets: &[u8]) -> bool
    ensures { result ≡ is_raw octets.now }
{
    match outer(octets) {
        Ok(Outer::Whole(len)) => len == octets.len(),
        _ => false,
    }
}

fn is_whole(octets: &[u8]) -> bool
    ensures raw { IsTrue result ↔ IsRaw octets.now }
    ensures exact { result ≡ is_raw octets.now }
{
    is_read_whole(octets)
}

impl<'a> RawView<'a> {
    /// Returns a view of `octets` if they are exactly one element, else `None`.
    pub fn new(octets: &'a [u8]) -> Option<RawView<'a>>
        ensures found { IfSome result (λ raw. raw.octets.now ≡ octets.entry.now) }
        ensures exact { IsSome result ↔ IsRaw octets.entry.now }
    {
        if is_whole(octets) {
            Some(RawView { octets })
        } else {
            None
        }
    }

    #[tactic(auto, unfolding(crate::specs::Reading::raw_at))]
    fn read_next(window: Window<'a>) -> Result<(RawView<'a>, Window<'a>), Fault>
        requires { 0 < length window.octets.now }
        ensures exact { Gives (λ x. (x.0.octets.now, span x.1)) result (raw_at (span window.entry)) }
    {
        let (_, rest) = next_tlv(window)?;
        let len = window.octets.len() - rest.octets.len();
        let raw = RawView {
            octets: &window.octets[..len],
        };
        Ok((raw, rest))
    }

    /// Reads the element at the front of a non-empty window verbatim (X.690 8.1.1). Returns its octets and the window
    /// after it.
    ///
    /// # Errors
    ///
    /// The faults of [`next_tlv`].
    pub fn next(window: Window<'a>) -> Result<(RawView<'a>, Window<'a>), Fault>
        requires { 0 < length window.octets.now }
        // On success, the octets are those of the element at the front.
        ensures found { IfOk result (λ x. IsRaw x.0.octets.now
            × (window.entry.octets.now ≡ x.0.octets.now ++ x.1.octets.now)
            × (x.1.place ≡ window.entry.place + length x.0.octets.now)) }
        // An element at the front is read.
        ensures only { (octets rest : List ℕ) → IsRaw octets → window.entry.octets.now ≡ octets ++ rest
            → IsOkAnd result (λ x. (x.0.octets.now ≡ octets) × (x.1.octets.now ≡ rest)) }
        // The result is a fault exactly if the window has that fault.
        ensures faulty { (fault : Fault) → (result ≡ Err fault)
            ↔ IsElementFault (span window.entry) fault.reason fault.place }
        ensures exact { Gives (λ x. (x.0.octets.now, span x.1)) result (raw_at (span window.entry)) }
    {
        RawView::read_next(window)
    }

    #[tactic(auto, unfolding(crate::specs::Reading::verbatim_at))]
    fn read_required(window: Window<'a>, tag: u8) -> Result<(RawView<'a>, Window<'a>), Fault>
        ensures exact { Gives (λ x. (x.0.octets.now, span x.1)) result (verbatim_at tag (span window.entry)) }
    {
        let (_, rest) = required(window, tag)?;
        let count = window.octets.len() - rest.octets.len();
        let raw = RawView {
            octets: &window.octets[..count],
        };
        Ok((raw, rest))
    }

    /// Reads the element with this tag of one octet at the front of a window, verbatim (X.690 8.1.1). Returns its
    /// octets and the window after it.
    ///
    /// # Errors
    ///
    /// The faults of [`required`](crate::required).
    pub fn required(window: Window<'a>, tag: u8) -> Result<(RawView<'a>, Window<'a>), Fault>
        // On success, the octets are those of the element at the front, which has this tag.
        ensures found { IfOk result (λ x. Taken (verbatim tag) (span window.entry) x.0.octets.now (span x.1)) }
        // An element of this tag at the front is read.
        ensures only { (value octets rest : List ℕ) → (verbatim tag).spells value octets rest
            → window.entry.octets.now ≡ octets ++ rest
            → IsOkAnd result (λ x. (x.0.octets.now ≡ value) × (x.1.octets.now ≡ rest)) }
        // The result is a fault exactly if the window has that fault.
        ensures faulty { (fault : Fault) → (result ≡ Err fault)
            ↔ (verbatim tag).faulty (span window.entry) fault.reason fault.place }
        ensures exact { Gives (λ x. (x.0.octets.now, span x.1)) result (verbatim_at tag (span window.entry)) }
    {
        RawView::read_required(window, tag)
    }

    #[tactic(auto, unfolding(crate::specs::Reading::parameter_at))]
    fn read_parameter(window: Window<'a>) -> Result<(Option<RawView<'a>>, Window<'a>), Fault>
        ensures exact { Gives (λ x. (option_map (λ raw. raw.octets.now) x.0, span x.1)) result
            (parameter_at (span window.entry)) }
    {
        if window.octets.is_empty() {
            return Ok((None, window));
        }
        let (raw, rest) = RawView::next(window)?;
        Ok((Some(raw), rest))
    }

    /// Reads a parameter: the first element of a window, verbatim, or `None` if the window is empty. Returns it and the
    /// window after it.
    ///
    /// # Errors
    ///
    /// The faults of [`next_tlv`].
    #[inline(always)]
    pub fn parameter(window: Window<'a>) -> Result<(Option<RawView<'a>>, Window<'a>), Fault>
        // On success, the octets at the front spell the value, and the window after them is returned.
        ensures found { IfOk result (λ x. Taken parameter (span window.entry) (option_map (λ raw. raw.octets.now) x.0)
            (span x.1)) }
        // A value that the front spells is read.
        ensures only { (value : Option (List ℕ)) → (octets rest : List ℕ) → parameter.spells value octets rest
            → window.entry.octets.now ≡ octets ++ rest
            → IsOkAnd result (λ x. (option_map (λ raw. raw.octets.now) x.0 ≡ value) × (x.1.octets.now ≡ rest)) }
        // The result is a fault exactly if the window has that fault.
        ensures faulty { (fault : Fault) → (result ≡ Err fault)
            ↔ parameter.faulty (span window.entry) fault.reason fault.place }
        ensures exact { Gives (λ x. (option_map (λ raw. raw.octets.now) x.0, span x.1)) result
            (parameter_at (span window.entry)) }
    {
        RawView::read_parameter(window)
    }

    /// Copies the octets into an owned [`Raw`].
    ///
    /// # Errors
    ///
    /// `AllocError` if memory runs out.
    pub fn to_raw(self, alloc: Global) -> Result<Raw, AllocError>
        ensures { IfOk result (λ raw. raw ≡ self.entry.octets.now) }
    {
        Ok(Raw {
            octets: Vec::from_slice(alloc, self.octets)?,
        })
    }
}

impl Raw {
    /// Copies `octets` if they are exactly one element, else returns `None`.
    ///
    /// # Errors
    ///
    /// `AllocError` if memory runs out.
    pub fn new(alloc: Global, octets: &[u8]) -> Result<Option<Raw>, AllocError>
        ensures found { IfOk result (λ made. IfSome made (λ raw. raw ≡ octets.now)) }
        ensures exact { IfOk result (λ made. IsSome made ↔ IsRaw octets.now) }
    {
        match RawView::new(octets) {
            Some(view) => Ok(Some(view.to_raw(alloc)?)),
            None => Ok(None),
        }
    }

    /// Returns the element's octets.
    pub fn octets(&self) -> &[u8]
        ensures value { result.now ≡ self.now }
        ensures whole { IsRaw result.now }
    {
        self.octets.as_slice()
    }

    /// Returns a view of the octets.
    pub fn view(&self) -> RawView<'_>
        ensures { result.octets.now ≡ self.now }
    {
        RawView {
            octets: &self.octets,
        }
    }
}
