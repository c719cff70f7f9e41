//! Entries that borrow from octets.

ghost use Rattle.std.specs.Prelude.{◌≡◌, ◌+◌, ◌^◌, ◌<◌, [], ℕ, length, take, None, IfSome};
ghost use Rattle.tcap_ber.specs.Reading.{span};
ghost use Rattle.tcap_record.specs.RecordOctets.{IsEntry};
ghost use Rattle.tcap_record.specs.FramingResult.{body_at};
ghost use Rattle.tcap_record.specs.FrontEntry.{entry_room, front_at, whole_in};
ghost use Rattle.tcap_record.specs.PartialRecord.{IsWhole};
ghost use Rattle.tcap_record.specs.LentEntry.{IsLent};
ghost use Rattle.tcap_record.specs.EntryView.{body_read, entry_read};

use crate::entry::{BodyView, EntryView};
use crate::entry_octets::{QUIET_OCTET, end_of};
use tcap_ber::{Fault, Outer, Window, outer};
use tcap_msg::view;

/// Reads one element as the content of an entry. Faults get their offset in the record.
#[tactic(auto, unfolding(crate::specs::FramingResult::body_at))]
fn body_view(element: Window) -> BodyView
    ensures { body_read result ≡ body_at (span element.entry) }
{
    match view(element.octets) {
        Ok((message, _)) => BodyView::Good(message),
        Err(fault) => BodyView::Bad(Fault {
            reason: fault.reason,
            place: element.place + fault.place,
        }),
    }
}

/// Returns the entry that `octets` are exactly, as a view. `place` is the offset of their first octet.
pub(crate) fn entry_view(octets: &[u8], place: u64) -> EntryView<'_>
    requires whole { IsWhole octets.now }
    requires fits { place + length octets.now < 2 ^ 64 }
    ensures { IsEntry place (entry_read result) octets.now [] }
{
    if octets[0] == QUIET_OCTET {
        return EntryView {
            side: None,
            place,
            body: BodyView::Quiet,
        };
    }
    let element = Window {
        octets: &octets[1..],
        place: place + 1,
    };
    EntryView {
        side: end_of(octets[0]),
        place: element.place,
        body: body_view(element),
    }
}

/// Returns the length in octets of the whole entry at the front, or `None` if there is none.
fn whole_len(octets: &[u8]) -> Option<usize>
    ensures { result ≡ whole_in (front_at 0 octets.now) }
{
    let (first, element) = octets.split_first()?;
    if *first == QUIET_OCTET {
        return Some(1);
    }
    if end_of(*first).is_none() {
        return None;
    }
    match outer(element) {
        Ok(Outer::Whole(len)) => Some(len + 1),
        _ => None,
    }
}

/// Returns the whole entry at the front as a view, and its length in octets, or `None` if there is none. `place` is the
/// offset of the first octet.
#[inline(never)]
pub(crate) fn front_view(octets: &[u8], place: u64) -> Option<(EntryView<'_>, usize)>
    requires fits { place + entry_room < 2 ^ 64 }
    ensures found { IfSome result (λ x. IsLent place octets.now (entry_read x.0) x.1) }
    ensures none { result ≡ None → (n : ℕ) → IsWhole (take n octets.now) → ⊥ }
{
    let (first, element) = octets.split_first()?;
    if let (Some(side), Ok((message, len))) = (end_of(*first), view(element)) {
        let entry = EntryView {
            side: Some(side),
            place: place + 1,
            body: BodyView::Good(message),
        };
        return Some((entry, len + 1));
    }
    let len = whole_len(octets)?;
    Some((entry_view(&octets[..len], place), len))
}
