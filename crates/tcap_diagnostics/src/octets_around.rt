//! The octets around an offset.

use std::alloc::AllocError;

/// The most octets shown on each side of the offset.
pub(crate) const SIDE: usize = 8;

/// Appends octets, with a space after each.
fn push_before(text: &mut String, octets: &[u8]) -> Result<(), AllocError> {
    for octet in octets {
        let octet = *octet;
        write!(text, "{octet:02x} ")?;
    }
    Ok(())
}

/// Appends octets, with a space before each.
fn push_after(text: &mut String, octets: &[u8]) -> Result<(), AllocError> {
    for octet in octets {
        let octet = *octet;
        write!(text, " {octet:02x}")?;
    }
    Ok(())
}

/// Appends the octet at offset `at` in brackets, and at most `SIDE` octets before and after it. The brackets are empty
/// if `at` is the end.
pub(crate) fn push_around(text: &mut String, octets: &[u8], at: usize) -> Result<(), AllocError> {
    let (before, rest) = octets.split_at(at.min(octets.len()));
    push_before(text, &before[before.len().saturating_sub(SIDE)..])?;
    match rest {
        [marked, behind @ ..] => {
            let marked = *marked;
            write!(text, "[{marked:02x}]")?;
            push_after(text, &behind[..SIDE.min(behind.len())])
        }
        [] => text.push_str("[]"),
    }
}
