//! Looks at values that are made from octets and lists, and at the texts for debugging.

use std::alloc::Global;
use tcap_ber::{CONTENT_LIMIT, DEPTH_LIMIT, ObjectId, Raw, Small};
use tcap_msg::{TransactionId, view};
use tcap_parts::{Info, InfoView, Portion, Source};
use tcap_record::{BodyView, End, EntryView};
use tcap_vectors::octets_of;

/// Returns whether the octets are a transaction ID as the row says, and its view makes the same ID again.
fn is_id(octets: &[u8], wanted: &str) -> bool {
    match TransactionId::new(octets) {
        Some(id) => {
            wanted == "yes"
                && id.octets() == octets
                && id.view().octets == octets
                && id.view().to_transaction_id() == id
        }
        None => wanted == "no",
    }
}

/// Returns whether the octets are one whole element as the row says.
fn is_raw(alloc: Global, octets: &[u8], wanted: &str) -> Option<bool> {
    Some(match Raw::new(alloc, octets).ok()? {
        Some(raw) => wanted == "yes" && raw.octets() == octets,
        None => wanted == "no",
    })
}

/// Returns whether the octets are an OBJECT IDENTIFIER as the row says, which equals its copy and not the one of the
/// octet 2A.
fn is_object(alloc: Global, octets: &[u8], wanted: &str) -> Option<bool> {
    let other = ObjectId::new(alloc, &[0x2A]).ok()??;
    Some(match ObjectId::new(alloc, octets).ok()? {
        Some(id) => {
            wanted == "yes"
                && id.octets() == octets
                && id.view().octets == octets
                && id.copy(alloc).ok()? == id
                && id != other
        }
        None => wanted == "no",
    })
}

/// Returns whether the octets are user information with as many EXTERNALs as the row says, owned and lent, and its
/// view makes the same value again.
fn is_info(alloc: Global, octets: &[u8], wanted: &str) -> Option<bool> {
    let wanted = if wanted == "no" {
        None
    } else {
        Some(wanted.parse::<usize>().ok()?)
    };
    let Some(info) = Info::new(octets.to_vec(alloc).ok()?) else {
        return Some(wanted.is_none() && InfoView::new(octets).is_none());
    };
    let Some(lent) = InfoView::new(octets) else {
        return Some(false);
    };
    Some(
        wanted == Some(info.view().count())
            && wanted == Some(lent.count())
            && info.octets() == octets
            && info.view().octets == octets
            && lent.octets == octets
            && info.view().to_info(alloc).ok()?.octets() == octets
            && lent.to_info(alloc).ok()?.octets() == octets,
    )
}

/// Returns whether the octet is a small number as the row says, and its view makes the same number again, and two
/// diagnostics, of the user and of the provider.
fn is_small(octets: &[u8], wanted: &str) -> Option<bool> {
    let [number] = octets else {
        return None;
    };
    let Some(small) = Small::new(*number) else {
        return Some(wanted == "no");
    };
    let user = Source::User(small);
    let provider = Source::Provider(small);
    Some(
        wanted == "yes"
            && small.number() == *number
            && small.view().to_small() == small
            && user.view().to_source() == user
            && provider.view().to_source() == provider
            && user != provider,
    )
}

/// Looks at a row of `values`.
pub(crate) fn is_value(alloc: Global, kind: &str, octets: &str, wanted: &str) -> Option<bool> {
    let octets = octets_of(alloc, octets)?;
    match kind {
        "id" => Some(is_id(&octets, wanted)),
        "raw" => is_raw(alloc, &octets, wanted),
        "object" => is_object(alloc, &octets, wanted),
        "info" => is_info(alloc, &octets, wanted),
        "small" => is_small(&octets, wanted),
        _ => None,
    }
}

/// Returns whether two transaction IDs compare as their places in the row do.
fn compare_as(alloc: Global, ids: (&str, &str), places: (usize, usize)) -> Option<bool> {
    let id = TransactionId::new(&octets_of(alloc, ids.0)?)?;
    let other = TransactionId::new(&octets_of(alloc, ids.1)?)?;
    let wanted = places.0.cmp(&places.1);
    Some(
        id.cmp(&other) == wanted
            && id.partial_cmp(&other) == Some(wanted)
            && (id < other) == (places.0 < places.1)
            && (id == other) == (places.0 == places.1),
    )
}

/// Looks at a row of `transaction IDs in order`. Each is less than all after it.
pub(crate) fn are_in_order(alloc: Global, ids: &str) -> Option<bool> {
    for (place, id) in ids.split(' ').enumerate() {
        for (other_place, other) in ids.split(' ').enumerate() {
            if !compare_as(alloc, (id, other), (place, other_place))? {
                return Some(false);
            }
        }
    }
    Some(true)
}

/// Looks at a row of `limits`, and at a portion without components, which is refused.
pub(crate) fn are_limits(alloc: Global, depth: &str, content: &str) -> Option<bool> {
    Some(
        depth.parse::<usize>().ok()? == DEPTH_LIMIT
            && content.parse::<usize>().ok()? == CONTENT_LIMIT
            && Portion::new(Vec::new(alloc)).is_none(),
    )
}

/// Looks at a row of `texts for debugging`.
pub(crate) fn is_text(alloc: Global, octets: &[u8], wanted: &str) -> Option<bool> {
    let (message, _) = view(octets).ok()?;
    let entry = EntryView {
        side: Some(End::A),
        place: 1,
        body: BodyView::Good(message),
    };
    Some(format!(in alloc; "{entry:?}").ok()?.as_str() == wanted)
}
