//! Reads a certificate from a JSON text (RFC 8259), and writes one.

ghost use Rattle.std.specs.Prelude.{◌≡◌, ◌≢◌, ◌&&◌, codes, Option, Some, None, Ok, Err, IfOk, option_map, string_bytes};
ghost use Rattle.serde_json.specs.Data.{Data, object};
ghost use Rattle.serde_json.specs.Find.{get_member};
ghost use Rattle.serde_json.specs.Written.{compact_text};
ghost use Rattle.serde_json.specs.View.{view, items_view, members_view};
ghost use Rattle.tcap_end.specs.TableText.{has_only};
ghost use Rattle.tcap_certificate_text.specs.CertificateText.{IsCertificateText, certificate_in, certificate_keys, closing_in};
ghost use Rattle.tcap_certificate_text.specs.CertificateText.{each_in, expiry_in, fate_in, if_text, is_version, list_at};
ghost use Rattle.tcap_certificate_text.specs.CertificateText.{number_at, number_in, side_at, side_in};
ghost use Rattle.tcap_certificate_text.specs.CertificateText.{certificate_data, closing_data, expiry_data, fate_data};
ghost use Rattle.tcap_certificate_text.specs.CertificateText.{list_data, side_data};
ghost use Rattle.tcap_certificate.specs.Certificate.{Certificate as Meant};
ghost use Rattle.tcap_certificate.specs.Replay.{fault_at};
ghost use Rattle.tcap_certificate.specs.declared.fault.CheckFault.{CheckFault};
ghost use Rattle.tcap_model.specs.declared.reason.Reason.TheVariants as reasons;

use crate::compact_reading::read_compact;
use serde_json::{Map, Value, json};
use std::alloc::{AllocError, Global};
use tcap_certificate::{
    Certificate, CheckFault, Closing, Expiry, FATES_LIMIT, Fate, NUMBER_LIMIT, Reason,
};
use tcap_end::has_only;
use tcap_record::End;

/// An item of a list of a certificate.
trait Part: Sized + Drop {
    ghost part_in: { Data → Option Self };

    ghost part_data: { Self → Data };

    /// Returns the item that a value represents, or `None` if the value has not its shape.
    fn read(value: &Value) -> Option<Self>
        ensures { result ≡ part_in (view value.now) };

    /// Returns the value written for this item. Fails if memory runs out.
    fn to_value(&self, alloc: Global) -> Result<Value, AllocError>
        ensures { IfOk result (λ v. view v ≡ part_data self.now) };
}

/// Returns the number that a value represents, or `None` unless it is a whole number from 0 to `NUMBER_LIMIT`.
fn number_in(value: &Value) -> Option<u32>
    ensures { result ≡ number_in (view value.now) }
{
    let number = u32::try_from(value.as_number()?.as_i128()?).ok()?;
    if number > NUMBER_LIMIT {
        return None;
    }
    Some(number)
}

/// Returns the value at a key of an object.
fn member<'v>(members: &'v Map<String, Value>, key: &str) -> Option<&'v Value>
    ensures { option_map (λ v. view v.now) result ≡ get_member key.now (members_view members.now.entries) }
{
    members.get(key)
}

/// Returns the number at a key of an object.
fn number_at(members: &Map<String, Value>, key: &str) -> Option<u32>
    ensures { result ≡ number_at key.now (members_view members.now.entries) }
{
    number_in(member(members, key)?)
}

/// Returns the end that a value represents: the text `"A"` or `"B"`.
fn side_in(value: &Value) -> Option<End>
    ensures { result ≡ side_in (view value.now) }
{
    match value.as_str()? {
        "A" => Some(End::A),
        "B" => Some(End::B),
        _ => None,
    }
}

/// Returns the end at a key of an object.
fn side_at(members: &Map<String, Value>, key: &str) -> Option<End>
    ensures { result ≡ side_at key.now (members_view members.now.entries) }
{
    side_in(member(members, key)?)
}

/// Returns the JSON text of an end: its letter. Fails if memory runs out.
fn side_value(alloc: Global, side: End) -> Result<Value, AllocError>
    ensures { IfOk result (λ v. view v ≡ side_data side) }
{
    match side {
        End::A => Value::try_from_str(alloc, "A"),
        End::B => Value::try_from_str(alloc, "B"),
    }
}

/// Returns the loss that the text `"lost"` represents, or `None` for another text.
fn lost_in(text: &str) -> Option<Fate>
    ensures { result ≡ if_text (codes "lost") Fate.Lost text.now None }
{
    match text {
        "lost" => Some(Fate::Lost),
        _ => None,
    }
}

/// Returns the fate that an object `{"by":N}` represents: the Abort in entry N answered the message.
fn by_in(members: &Map<String, Value>) -> Option<Fate>
    ensures { result ≡ fate_in (object (members_view members.now.entries)) }
{
    if !has_only(&["by"], members) {
        return None;
    }
    Some(Fate::By(number_at(members, "by")?))
}

impl Part for Fate {
    ghost part_in = { fate_in };

    ghost part_data = { fate_data };

    fn read(value: &Value) -> Option<Fate> {
        match value {
            Value::String(text) => lost_in(text),
            Value::Object(members) => by_in(members),
            _ => Some(Fate::Gap(number_in(value)?)),
        }
    }

    fn to_value(&self, alloc: Global) -> Result<Value, AllocError> {
        match *self {
            Fate::Gap(gap) => Ok(Value::from(gap)),
            Fate::Lost => Value::try_from_str(alloc, "lost"),
            Fate::By(reply) => json!(in alloc; {"by": reply}),
        }
    }
}

/// Returns the closing that an object represents.
fn closing_of(members: &Map<String, Value>) -> Option<Closing>
    ensures { result ≡ closing_in (object (members_view members.now.entries)) }
{
    if !has_only(&["at", "end", "entry"], members) {
        return None;
    }
    Some(Closing {
        gap: number_at(members, "at")?,
        side: side_at(members, "end")?,
        entry: number_at(members, "entry")?,
    })
}

impl Part for Closing {
    ghost part_in = { closing_in };

    ghost part_data = { closing_data };

    fn read(value: &Value) -> Option<Closing> {
        match value {
            Value::Object(members) => closing_of(members),
            _ => None,
        }
    }

    fn to_value(&self, alloc: Global) -> Result<Value, AllocError> {
        let side = side_value(alloc, self.side)?;
        json!(in alloc; {"at": self.gap, "end": side, "entry": self.entry})
    }
}

/// Returns the expiry that an object represents.
fn expiry_of(members: &Map<String, Value>) -> Option<Expiry>
    ensures { result ≡ expiry_in (object (members_view members.now.entries)) }
{
    if !has_only(&["at", "component", "end", "entry"], members) {
        return None;
    }
    Some(Expiry {
        gap: number_at(members, "at")?,
        component: number_at(members, "component")?,
        side: side_at(members, "end")?,
        entry: number_at(members, "entry")?,
    })
}

impl Part for Expiry {
    ghost part_in = { expiry_in };

    ghost part_data = { expiry_data };

    fn read(value: &Value) -> Option<Expiry> {
        match value {
            Value::Object(members) => expiry_of(members),
            _ => None,
        }
    }

    fn to_value(&self, alloc: Global) -> Result<Value, AllocError> {
        let side = side_value(alloc, self.side)?;
        json!(in alloc; {"at": self.gap, "component": self.component, "end": side, "entry": self.entry})
    }
}

/// Returns the items of a list, or `None` if a value represents no item. Fails if memory runs out.
fn each_in<T: Part>(alloc: Global, items: &[Value]) -> Result<Option<Vec<T>>, AllocError>
    ensures { IfOk result (λ parts. option_map (λ v. v.items) parts ≡ each_in T.part_in (items_view items.now)) }
{
    let mut found = Vec::new(alloc);
    for item in items {
        let Some(part) = T::read(item) else {
            return Ok(None);
        };
        found.push(part)?;
    }
    Ok(Some(found))
}

/// Returns the items of the list at a key of an object. Fails if memory runs out.
fn list_at<T: Part>(
    alloc: Global,
    key: &str,
    members: &Map<String, Value>,
) -> Result<Option<Vec<T>>, AllocError>
    ensures { IfOk result (λ parts. option_map (λ v. v.items) parts
        ≡ list_at T.part_in key.now (members_view members.now.entries)) }
{
    let Some(items) = member(members, key).and_then(Value::as_array) else {
        return Ok(None);
    };
    each_in(alloc, items)
}

/// Returns the list written for these items. Fails if memory runs out.
fn list_value<T: Part>(alloc: Global, parts: &[T]) -> Result<Value, AllocError>
    ensures { IfOk result (λ v. view v ≡ list_data T.part_data parts.now) }
{
    let mut items = Vec::new(alloc);
    for part in parts {
        items.push(part.to_value(alloc)?)?;
    }
    Ok(Value::Array(items))
}

/// Returns the value written for a certificate with these parts. Fails if memory runs out.
fn certificate_value(
    alloc: Global,
    fates: &[Fate],
    expire: &[Expiry],
    close: &[Closing],
) -> Result<Value, AllocError>
    ensures { IfOk result (λ v. view v
        ≡ certificate_data (record { fates = fates.now; expire = expire.now; close = close.now })) }
{
    let close = list_value(alloc, close)?;
    let expire = list_value(alloc, expire)?;
    let fates = list_value(alloc, fates)?;
    json!(in alloc; {"close": close, "expire": expire, "fates": fates, "version": 1u32})
}

/// Returns whether an object has only the keys of a certificate, and its version.
fn is_certificate(members: &Map<String, Value>) -> bool
    ensures { result ≡ (has_only certificate_keys (members_view members.now.entries)
        && is_version (number_at (codes "version") (members_view members.now.entries))) }
{
    has_only(&["close", "expire", "fates", "version"], members)
        && number_at(members, "version") == Some(1)
}

/// Returns the certificate that a JSON value represents. Fails if memory runs out.
fn certificate_in(alloc: Global, value: &Value) -> Result<Option<Certificate>, AllocError>
    ensures { IfOk result (λ c. c ≡ certificate_in (view value.now)) }
{
    let Some(members) = value.as_object() else {
        return Ok(None);
    };
    if !is_certificate(members) {
        return Ok(None);
    }
    let close = list_at(alloc, "close", members)?;
    let expire = list_at(alloc, "expire", members)?;
    let fates = list_at(alloc, "fates", members)?;
    let (Some(close), Some(expire), Some(fates)) = (close, expire, fates) else {
        return Ok(None);
    };
    if fates.len() > FATES_LIMIT {
        return Ok(None);
    }
    Ok(Some(Certificate::of_parts(fates, expire, close)))
}

/// Creates a fault with this reason, at entry 0.
fn refused(reason: Reason) -> CheckFault
    ensures { result ≡ fault_at reason 0 }
{
    CheckFault { reason, entry: 0 }
}

/// Reads a certificate from a JSON text in any layout. Fails if the text is not a certificate, or if memory runs out.
fn read_any(alloc: Global, octets: &[u8]) -> Result<Certificate, CheckFault>
    ensures read { (c : Meant) → result ≡ Ok c → IsCertificateText octets.now c }
    ensures refused { (f : CheckFault) → result ≡ Err f → f ≢ fault_at reasons.Memory 0
        → (f ≡ fault_at reasons.CertificateShape 0) × ((c : Meant) → IsCertificateText octets.now c → ⊥) }
{
    let value = match Value::from_slice(alloc, octets) {
        Ok(value) => value,
        Err(error) if error.is_memory() => return Err(refused(Reason::Memory)),
        Err(_) => return Err(refused(Reason::CertificateShape)),
    };
    match certificate_in(alloc, &value) {
        Ok(Some(certificate)) => Ok(certificate),
        Ok(None) => Err(refused(Reason::CertificateShape)),
        Err(AllocError) => Err(refused(Reason::Memory)),
    }
}

/// Reads a certificate from a JSON text, whose shape is in FORMAT.md. A text in the layout of `to_json` is read without
/// a tree of values.
///
/// # Errors
///
/// `CertificateShape` if the text is not a certificate, `Memory` if memory runs out, both with entry 0.
pub fn from_json(alloc: Global, octets: &[u8]) -> Result<Certificate, CheckFault>
    ensures read { (c : Meant) → result ≡ Ok c → IsCertificateText octets.now c }
    ensures refused { (f : CheckFault) → result ≡ Err f → f ≢ fault_at reasons.Memory 0
        → (f ≡ fault_at reasons.CertificateShape 0) × ((c : Meant) → IsCertificateText octets.now c → ⊥) }
{
    match read_compact(alloc, octets) {
        Ok(Some(certificate)) => Ok(certificate),
        Ok(None) => read_any(alloc, octets),
        Err(AllocError) => Err(refused(Reason::Memory)),
    }
}

/// Writes a certificate as a JSON text without spaces, with its keys in order.
///
/// # Errors
///
/// `AllocError` if memory runs out.
pub fn to_json(alloc: Global, certificate: &Certificate) -> Result<String, AllocError>
    ensures text { IfOk result (λ text. string_bytes text ≡ compact_text (certificate_data certificate.now)) }
    ensures read_again { IfOk result (λ text. IsCertificateText (string_bytes text) certificate.now) }
{
    let fates = certificate.fates();
    certificate_value(alloc, fates, certificate.expiries(), certificate.closings())?.to_string(
        alloc,
    )
}
