//! User information (Q.773 4.2.3): EXTERNALs, one after the other.

ghost use Rattle.std.specs.Prelude.{◌≡◌, ◌↔◌, ℕ, List, length, true, Err, IfOk, IfErr, IfSome, IsOkAnd, IsSome, IsTrue};
ghost use Rattle.tcap_ber.specs.declared.fault.Fault.{Fault};
ghost use Rattle.tcap_ber.specs.Grammar.{each};
ghost use Rattle.tcap_ber.specs.Reading.{Gives, span, element};
ghost use Rattle.tcap_parts.specs.Info.{external, info, AreExternals};
ghost use Rattle.tcap_parts.specs.InfoReading.{external_at, externals_at, info_of, are_externals, externals_of};

use crate::tags::EXTERNAL;
use std::alloc::{AllocError, Global};
use std::marker::Model;
use tcap_ber::{Fault, RawView, Tlv, Window};

/// Borrowed user information.
#[derive(Clone, Copy, Debug)]
pub struct InfoView<'a> {
    /// The octets of the EXTERNALs, one after the other; there may be none.
    pub octets: &'a [u8],
    pub ghost externals: { are_externals octets.now ≡ true },
}

/// Owned user information: the octets of its EXTERNALs, verbatim; there may be none.
#[derive(Debug, Drop)]
pub struct Info {
    octets: Vec<u8>,
}

impl Model for Info {
    ghost use Rattle.std.specs.Prelude.{List, ℕ, ◌≡◌, true};
    ghost use Rattle.tcap_parts.specs.InfoReading.{are_externals};

    ghost Value = { List ℕ };

    ghost view = { λ a. a.octets.items };

    ghost invariant = { λ a. are_externals a.octets.items ≡ true };
}

/// Reads the EXTERNAL at the front of a window. Returns its octets and the window after it.
#[tactic(auto, unfolding(crate::specs::InfoReading::external_at))]
fn read_external(window: Window) -> Result<(RawView, Window), Fault>
    ensures exact { Gives (λ x. (x.0.octets.now, span x.1)) result (external_at (span window.entry)) }
{
    RawView::required(window, EXTERNAL)
}

/// Reads each EXTERNAL of `content`. Returns their number, or the first fault.
fn count_externals(content: Window) -> Result<usize, Fault>
    ensures ok { IfOk result (λ n. (externals : List (List ℕ)) × (externals_at (span content.entry) ≡ Ok externals)
        × (n ≡ length externals)) }
    ensures err { IfErr result (λ fault. externals_at (span content.entry) ≡ Err fault) }
{
    let mut rest = content;
    let mut count = 0;
    while !rest.octets.is_empty() {
        let (_, behind) = read_external(rest)?;
        rest = behind;
        count += 1;
    }
    Ok(count)
}

/// Returns whether `octets` are EXTERNALs one after the other.
fn are_externals(octets: &[u8]) -> bool
    ensures all { IsTrue result ↔ AreExternals octets.now }
    ensures exact { result ≡ are_externals octets.now }
{
    count_externals(Window::new(octets)).is_ok()
}

impl<'a> InfoView<'a> {
    /// Returns a view of `octets` if they are EXTERNALs one after the other, else `None`.
    pub fn new(octets: &'a [u8]) -> Option<InfoView<'a>>
        ensures found { IfSome result (λ info. info.octets.now ≡ octets.entry.now) }
        ensures exact { IsSome result ↔ AreExternals octets.entry.now }
    {
        if are_externals(octets) {
            Some(InfoView { octets })
        } else {
            None
        }
    }

    #[tactic(auto, unfolding(crate::specs::InfoReading::info_of))]
    fn from_content(tlv: Tlv<'a>) -> Result<InfoView<'a>, Fault>
        ensures exact { Gives (λ info. info.octets.now) result (info_of (element tlv.entry)) }
    {
        count_externals(tlv.content)?;
        Ok(InfoView {
            octets: tlv.content.octets,
        })
    }

    /// Reads the user information in an element of tag BE, and returns a view that borrows its octets (Q.773 4.2.3).
    /// The tag is not checked.
    ///
    /// # Errors
    ///
    /// The first fault from left to right in the content: one of [`RawView::required`] at an EXTERNAL, but never
    /// `Missing`.
    pub fn read(tlv: Tlv<'a>) -> Result<InfoView<'a>, Fault>
        // On success, all of the content spells the user information.
        ensures found { IfOk result (λ view. info.spells view.octets.now tlv.entry.content.octets.now) }
        // User information that all of the content spells is read.
        ensures only { (value : List ℕ) → info.spells value tlv.entry.content.octets.now
            → IsOkAnd result (λ view. view.octets.now ≡ value) }
        // The result is a fault exactly if the element has that fault.
        ensures faulty { (fault : Fault) → (result ≡ Err fault)
            ↔ info.faulty tlv.entry.start (span tlv.entry.content) fault.reason fault.place }
        ensures exact { Gives (λ info. info.octets.now) result (info_of (element tlv.entry)) }
    {
        InfoView::from_content(tlv)
    }

    /// Returns the number of EXTERNALs. This reads their headers again, and walks those of indefinite length.
    pub fn count(self) -> usize
        ensures spelled { (externals : List (List ℕ)) × (each external).spells externals self.entry.octets.now
            × (result ≡ length externals) }
        ensures exact { result ≡ length (externals_of self.entry.octets.now) }
    {
        let Ok(count) = count_externals(Window::new(self.octets)) else {
            unreachable!()
        };
        count
    }

    /// Copies the user information into an owned value.
    ///
    /// # Errors
    ///
    /// `AllocError` if memory runs out.
    pub fn to_info(self, alloc: Global) -> Result<Info, AllocError>
        ensures { IfOk result (λ info. info ≡ self.entry.octets.now) }
    {
        Ok(Info {
            octets: Vec::from_slice(alloc, self.octets)?,
        })
    }
}

impl Info {
    /// Returns `octets` as user information if they are EXTERNALs one after the other, else `None`.
    pub fn new(octets: Vec<u8>) -> Option<Info>
        ensures found { IfSome result (λ info. info ≡ octets.items) }
        ensures exact { IsSome result ↔ AreExternals octets.items }
    {
        if are_externals(&octets) {
            Some(Info { octets })
        } else {
            None
        }
    }

    /// Returns the octets of the EXTERNALs.
    pub fn octets(&self) -> &[u8]
        ensures value { result.now ≡ self.now }
        ensures externals { AreExternals result.now }
    {
        self.octets.as_slice()
    }

    /// Returns a view of the user information.
    pub fn view(&self) -> InfoView<'_>
        ensures { result.octets.now ≡ self.now }
    {
        InfoView {
            octets: &self.octets,
        }
    }
}
