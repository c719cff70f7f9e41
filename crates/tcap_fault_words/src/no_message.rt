//! The reason why octets are no message, in words.

use std::alloc::AllocError;
use tcap_ber::Fault;
use tcap_diagnostics::name_of;

/// Appends the reason why an entry is no message, and the offset of the fault in the entry.
///
/// # Errors
/// `AllocError` if memory runs out.
pub fn push_no_message(text: &mut String, fault: Fault) -> Result<(), AllocError> {
    text.push_str(name_of(fault.reason))?;
    let place = fault.place;
    write!(text, ", at octet {place} of it")
}
