//! Rows about certificates: their texts, read and written again.

use std::alloc::Global;
use tcap_certificate::{Certificate, Closing, Expiry, Fate};
use tcap_certificate_text::{from_json, to_json};
use tcap_record::End;

/// Octets around a text that change nothing.
const AROUND: [(&[u8], &[u8]); 7] = [
    (b"", b""),
    (b"", b"\n"),
    (b"", b"\n\n"),
    (b"", b"\r\n"),
    (b"", b" "),
    (b" ", b""),
    (b"\n\t", b"\n"),
];

/// Octets after a text that make it invalid.
const AFTER: [&[u8]; 5] = [b"}", b"1", b"\n,", b"\n\0", b"\n{}"];

/// Octets that replace an octet of a text.
const OTHERS: &[u8] = b"019AB,]}\" \n\xFF";

/// Returns this many fates: 1, and then each greater than the one before by `step`.
fn fates(alloc: Global, count: &str, step: u32) -> Option<String> {
    let count = count.parse::<u32>().ok()?;
    let mut text = String::from_str(alloc, "[1").ok()?;
    let mut fate = 1_u32;
    for _ in 1..count {
        fate = fate.saturating_add(step);
        write!(text, ",{fate}").ok()?;
    }
    text.push_str("]").ok()?;
    Some(text)
}

/// Returns the text of a certificate with only these fates.
fn with_fates(alloc: Global, fates: &str) -> Option<String> {
    format!(in alloc; "{{\"close\":[],\"expire\":[],\"fates\":{fates},\"version\":1}}").ok()
}

/// Returns the text of the certificate that a column describes.
pub(crate) fn certificate_of(alloc: Global, column: &str) -> Option<String> {
    if let Some(fates) = column.strip_prefix("fates ") {
        return with_fates(alloc, fates);
    }
    if let Some(count) = column.strip_prefix("ones ") {
        return with_fates(alloc, &fates(alloc, count, 0)?);
    }
    if let Some(count) = column.strip_prefix("prompt ") {
        return with_fates(alloc, &fates(alloc, count, 1)?);
    }
    String::from_str(alloc, column).ok()
}

/// Returns the certificate of this text, written again, or the number of the reason why the text is no certificate.
/// Returns `None` if memory runs out.
fn written(alloc: Global, text: &[u8]) -> Option<String> {
    match from_json(alloc, text) {
        Ok(certificate) => to_json(alloc, &certificate).ok(),
        Err(fault) => {
            let number = fault.reason.number();
            format!(in alloc; "{number}").ok()
        }
    }
}

/// Returns whether a text with these octets around it gives the expected result.
fn is_same(alloc: Global, before: &[u8], text: &[u8], after: &[u8], wanted: &str) -> Option<bool> {
    let mut all = Vec::from_slice(alloc, before).ok()?;
    all.extend_from_slice(text).ok()?;
    all.extend_from_slice(after).ok()?;
    Some(written(alloc, &all)?.as_str() == wanted)
}

/// Checks a row of `certificates alone` or `certificates of octets`: a text, and the certificate written again, or `=`
/// if that is the text.
pub(crate) fn is_written(alloc: Global, text: &[u8], wanted: &str) -> Option<bool> {
    let written = written(alloc, text)?;
    Some(if wanted == "=" {
        written.as_bytes() == text
    } else {
        written.as_str() == wanted
    })
}

/// Checks a row of `certificates`, with other octets around the text too.
pub(crate) fn is_certificate(alloc: Global, text: &[u8], wanted: &str) -> Option<bool> {
    let written = written(alloc, text)?;
    for (before, after) in AROUND {
        if !is_same(alloc, before, text, after, &written)? {
            return Some(false);
        }
    }
    for after in AFTER {
        if !is_same(alloc, b"", text, after, "60")? {
            return Some(false);
        }
    }
    is_written(alloc, text, wanted)
}

/// Checks a row of `beginnings`: a text, and how many of its proper beginnings are refused as no certificate.
pub(crate) fn are_refused(alloc: Global, text: &[u8], wanted: usize) -> Option<bool> {
    let mut count = 0_usize;
    for len in 0..text.len() {
        if written(alloc, text.get(..len)?)?.as_str() == "60" {
            count = count.saturating_add(1);
        }
    }
    Some(count == wanted)
}

/// Checks a row of `other octets`: a text, and the count of changes of one octet after which a space before the text
/// makes no difference. The space leads to another reader.
pub(crate) fn are_same(alloc: Global, text: &[u8], wanted: usize) -> Option<bool> {
    let mut octets = Vec::from_slice(alloc, text).ok()?;
    let mut count = 0_usize;
    for place in 0..text.len() {
        let kept = *octets.get(place)?;
        for other in OTHERS {
            *octets.get_mut(place)? = *other;
            let written = written(alloc, &octets)?;
            if is_same(alloc, b" ", &octets, b"", &written)? {
                count = count.saturating_add(1);
            }
        }
        *octets.get_mut(place)? = kept;
    }
    Some(count == wanted)
}

/// Returns the fate that these words describe.
fn fate_of(words: &str) -> Option<Fate> {
    if let Some(gap) = words.strip_prefix("gap ") {
        return Some(Fate::Gap(gap.parse::<u32>().ok()?));
    }
    if let Some(gap) = words.strip_prefix("by ") {
        return Some(Fate::By(gap.parse::<u32>().ok()?));
    }
    if words == "lost" {
        Some(Fate::Lost)
    } else {
        None
    }
}

/// Checks a row of `made certificates`: a fate, the component of an expiry of A, the gap of a closing of B, and the
/// text of the certificate with these, or `none`.
pub(crate) fn is_made(
    alloc: Global,
    fate: &str,
    (component, gap): (u32, u32),
    wanted: &str,
) -> Option<bool> {
    let expiry = Expiry {
        gap: 1,
        component,
        side: End::A,
        entry: 0,
    };
    let closing = Closing {
        gap,
        side: End::B,
        entry: 0,
    };
    let fates = [fate_of(fate)?].to_vec(alloc).ok()?;
    let expire = [expiry].to_vec(alloc).ok()?;
    let close = [closing].to_vec(alloc).ok()?;
    let Some(made) = Certificate::new(fates, expire, close) else {
        return Some(wanted == "none");
    };
    let counts = (
        made.fates().len(),
        made.expiries().len(),
        made.closings().len(),
    );
    Some(counts == (1, 1, 1) && to_json(alloc, &made).ok()?.as_str() == wanted)
}
