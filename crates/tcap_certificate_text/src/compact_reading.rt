//! Reads a certificate octet by octet from a text in the layout in which certificates are written.

ghost use Rattle.std.specs.Prelude.{◌≡◌, ◌≤◌, ◌<◌, ◌++◌, ◌⊎◌, codes, decimal, IfOk, IfSome, IsTrue};
ghost use Rattle.std.specs.List.{AllByRecursion};
ghost use Rattle.serde_json.specs.Data.{Data};
ghost use Rattle.serde_json.specs.Written.{compact_text};
ghost use Rattle.tcap_certificate_text.specs.CertificateText.{IsCertificateText};
ghost use Rattle.tcap_certificate.specs.Certificate.{ClosingFits, ExpiryFits, FateFits};
ghost use Rattle.tcap_certificate_text.specs.CertificateText.{closing_data, expiry_data, fate_data, list_data};
ghost use Rattle.tcap_certificate.specs.Certificate.{number_limit};
ghost use Rattle.tcap_certificate_text.specs.CertificateText.{side_data};

use std::alloc::{AllocError, Global};
use tcap_certificate::{Certificate, Closing, Expiry, FATES_LIMIT, Fate, NUMBER_LIMIT};
use tcap_record::End;

/// An item of a list of a certificate, in this layout.
trait Piece: Sized + Drop {
    ghost piece_data: { Self → Data };

    ghost piece_fits: { Self → Type 0 };

    /// Reads an item from the front of the octets, and returns it with the rest.
    fn read(octets: &[u8]) -> Option<(Self, &[u8])>
        ensures text { IfSome result (λ x. octets.now ≡ compact_text (piece_data x.0) ++ x.1.now) }
        ensures fits { IfSome result (λ x. piece_fits x.0) };
}

/// Returns the octets after a text with which they begin.
fn after<'o>(octets: &'o [u8], text: &[u8]) -> Option<&'o [u8]>
    ensures { IfSome result (λ rest. octets.now ≡ text.now ++ rest.now) }
{
    octets.strip_prefix(text)
}

/// Reads the digits after the first ones, whose number is `first`, and returns the whole number with the rest.
fn more_digits(first: u32, octets: &[u8]) -> Option<(u32, &[u8])>
    requires { (0 < first) × (first ≤ number_limit) }
    ensures text { IfSome result (λ x. decimal first ++ octets.now ≡ decimal x.0 ++ x.1.now) }
    ensures fits { IfSome result (λ x. x.0 ≤ number_limit) }
{
    let mut number = first;
    let mut left = octets;
    while let [digit @ b'0'..=b'9', rest @ ..] = left {
        number = number * 10 + u32::from(*digit - b'0');
        if number > NUMBER_LIMIT {
            return None;
        }
        left = rest;
    }
    Some((number, left))
}

/// Reads a number without leading zeros from the front of the octets, and returns it with the rest.
fn read_number(octets: &[u8]) -> Option<(u32, &[u8])>
    ensures text { IfSome result (λ x. octets.now ≡ decimal x.0 ++ x.1.now) }
    ensures fits { IfSome result (λ x. x.0 ≤ number_limit) }
{
    match octets {
        [b'0', rest @ ..] => Some((0, rest)),
        [digit @ b'1'..=b'9', rest @ ..] => more_digits(u32::from(*digit - b'0'), rest),
        _ => None,
    }
}

/// Reads this text and a number from the front of the octets, and returns the number with the rest.
fn number_after<'o>(octets: &'o [u8], text: &[u8]) -> Option<(u32, &'o [u8])>
    ensures text { IfSome result (λ x. octets.now ≡ text.now ++ (decimal x.0 ++ x.1.now)) }
    ensures fits { IfSome result (λ x. x.0 ≤ number_limit) }
{
    read_number(after(octets, text)?)
}

/// Reads the letter of an end, in quotes, from the front of the octets, and returns the end with the rest.
#[tactic(auto, unfolding(json::specs::Print::escape_byte))]
fn read_side(octets: &[u8]) -> Option<(End, &[u8])>
    ensures { IfSome result (λ x. octets.now ≡ compact_text (side_data x.0) ++ x.1.now) }
{
    if let Some(rest) = after(octets, b"\"A\"") {
        return Some((End::A, rest));
    }
    let rest = after(octets, b"\"B\"")?;
    Some((End::B, rest))
}

/// Reads the fate `"lost"` from the front of the octets, and returns it with the rest.
#[tactic(auto, unfolding(json::specs::Print::escape_byte))]
fn read_lost(octets: &[u8]) -> Option<(Fate, &[u8])>
    ensures text { IfSome result (λ x. octets.now ≡ compact_text (fate_data x.0) ++ x.1.now) }
    ensures fits { IfSome result (λ x. FateFits x.0) }
{
    let rest = after(octets, b"\"lost\"")?;
    Some((Fate::Lost, rest))
}

/// Reads a fate `{"by":N}` from the front of the octets, and returns it with the rest.
#[tactic(auto, unfolding(json::specs::Print::escape_byte))]
fn read_by(octets: &[u8]) -> Option<(Fate, &[u8])>
    ensures text { IfSome result (λ x. octets.now ≡ compact_text (fate_data x.0) ++ x.1.now) }
    ensures fits { IfSome result (λ x. FateFits x.0) }
{
    let (reply, rest) = number_after(octets, b"{\"by\":")?;
    let rest = after(rest, b"}")?;
    Some((Fate::By(reply), rest))
}

impl Piece for Fate {
    ghost piece_data = { fate_data };

    ghost piece_fits = { FateFits };

    fn read(octets: &[u8]) -> Option<(Fate, &[u8])> {
        match octets {
            [b'"', ..] => read_lost(octets),
            [b'{', ..] => read_by(octets),
            _ => {
                let (gap, rest) = read_number(octets)?;
                Some((Fate::Gap(gap), rest))
            }
        }
    }
}

impl Piece for Closing {
    ghost piece_data = { closing_data };

    ghost piece_fits = { ClosingFits };

    #[tactic(auto, unfolding(json::specs::Print::escape_byte))]
    fn read(octets: &[u8]) -> Option<(Closing, &[u8])> {
        let (gap, rest) = number_after(octets, b"{\"at\":")?;
        let (side, rest) = read_side(after(rest, b",\"end\":")?)?;
        let (entry, rest) = number_after(rest, b",\"entry\":")?;
        let rest = after(rest, b"}")?;
        Some((Closing { gap, side, entry }, rest))
    }
}

impl Piece for Expiry {
    ghost piece_data = { expiry_data };

    ghost piece_fits = { ExpiryFits };

    #[tactic(auto, unfolding(json::specs::Print::escape_byte))]
    fn read(octets: &[u8]) -> Option<(Expiry, &[u8])> {
        let (gap, rest) = number_after(octets, b"{\"at\":")?;
        let (component, rest) = number_after(rest, b",\"component\":")?;
        let (side, rest) = read_side(after(rest, b",\"end\":")?)?;
        let (entry, rest) = number_after(rest, b",\"entry\":")?;
        let rest = after(rest, b"}")?;
        let expiry = Expiry {
            gap,
            component,
            side,
            entry,
        };
        Some((expiry, rest))
    }
}

/// Reads a list of items from the front of the octets, and returns it with the rest. Fails if memory runs out.
fn read_list<T: Piece>(alloc: Global, octets: &[u8]) -> Result<Option<(Vec<T>, &[u8])>, AllocError>
    ensures text { IfOk result (λ found. IfSome found
        (λ x. octets.now ≡ compact_text (list_data T.piece_data x.0.items) ++ x.1.now)) }
    ensures fits { IfOk result (λ found. IfSome found (λ x. AllByRecursion T.piece_fits x.0.items)) }
{
    let mut parts = Vec::new(alloc);
    let Some(mut left) = after(octets, b"[") else {
        return Ok(None);
    };
    if let Some(rest) = after(left, b"]") {
        return Ok(Some((parts, rest)));
    }
    loop {
        let Some((part, rest)) = T::read(left) else {
            return Ok(None);
        };
        parts.push(part)?;
        match rest {
            [b',', more @ ..] => left = more,
            [b']', more @ ..] => return Ok(Some((parts, more))),
            _ => return Ok(None),
        }
    }
}

/// Reads this text and a list of items from the front of the octets, and returns the list with the rest. Fails if
/// memory runs out.
fn list_after<'o, T: Piece>(
    alloc: Global,
    octets: &'o [u8],
    text: &[u8],
) -> Result<Option<(Vec<T>, &'o [u8])>, AllocError>
    ensures text { IfOk result (λ found. IfSome found
        (λ x. octets.now ≡ text.now ++ (compact_text (list_data T.piece_data x.0.items) ++ x.1.now))) }
    ensures fits { IfOk result (λ found. IfSome found (λ x. AllByRecursion T.piece_fits x.0.items)) }
{
    match after(octets, text) {
        Some(list) => read_list(alloc, list),
        None => Ok(None),
    }
}

/// Returns whether the octets are the end of a certificate, with or without a line feed.
fn is_end(octets: &[u8]) -> bool
    ensures { IsTrue result → (octets.now ≡ codes ",\"version\":1}") ⊎ (octets.now ≡ codes ",\"version\":1}\n") }
{
    octets == b",\"version\":1}".as_slice() || octets == b",\"version\":1}\n".as_slice()
}

/// Reads a certificate from the layout in which certificates are written, with or without a line feed after it. Returns
/// `None` for other octets, which may still represent a certificate. Fails if memory runs out.
pub(crate) fn read_compact(alloc: Global, octets: &[u8]) -> Result<Option<Certificate>, AllocError>
    ensures { IfOk result (λ found. IfSome found (λ c. IsCertificateText octets.now c)) }
{
    let Some((close, rest)) = list_after(alloc, octets, b"{\"close\":")? else {
        return Ok(None);
    };
    let Some((expire, rest)) = list_after(alloc, rest, b",\"expire\":")? else {
        return Ok(None);
    };
    let Some((fates, rest)) = list_after(alloc, rest, b",\"fates\":")? else {
        return Ok(None);
    };
    if fates.len() > FATES_LIMIT || !is_end(rest) {
        return Ok(None);
    }
    Ok(Some(Certificate::of_parts(fates, expire, close)))
}
