//! Elements of definite length (X.690 8.1.3), and parts of the messages of Q.773.

use std::alloc::AllocError;

/// The dialogue portion with AARQ, up to the application context name without its last two octets.
const REQUEST: [u8; 30] = [
    0x6B, 0x1E, 0x28, 0x1C, 0x06, 0x07, 0x00, 0x11, 0x86, 0x05, 0x01, 0x01, 0x01, 0xA0, 0x11, 0x60,
    0x0F, 0x80, 0x02, 0x07, 0x80, 0xA1, 0x09, 0x06, 0x07, 0x04, 0x00, 0x00, 0x01, 0x00,
];

/// The dialogue portion with AARE, up to the application context name without its last two octets.
const RESPONSE: [u8; 30] = [
    0x6B, 0x2A, 0x28, 0x28, 0x06, 0x07, 0x00, 0x11, 0x86, 0x05, 0x01, 0x01, 0x01, 0xA0, 0x1D, 0x61,
    0x1B, 0x80, 0x02, 0x07, 0x80, 0xA1, 0x09, 0x06, 0x07, 0x04, 0x00, 0x00, 0x01, 0x00,
];

/// The rest of AARE after its application context name: result accepted, and the user's diagnostic "null".
const ACCEPTED: [u8; 12] = [
    0xA2, 0x03, 0x02, 0x01, 0x00, 0xA3, 0x05, 0xA1, 0x03, 0x02, 0x01, 0x00,
];

/// The dialogue portion with a user's ABRT.
pub(crate) const ABORT: [u8; 20] = [
    0x6B, 0x12, 0x28, 0x10, 0x06, 0x07, 0x00, 0x11, 0x86, 0x05, 0x01, 0x01, 0x01, 0xA0, 0x05, 0x64,
    0x03, 0x80, 0x01, 0x00,
];

/// Appends an element with this tag and content.
pub(crate) fn push_element(
    octets: &mut Vec<u8>,
    tag: u8,
    content: &[u8],
) -> Result<(), AllocError> {
    octets.push(tag)?;
    let [.., high, low] = content.len().to_be_bytes();
    if high == 0 && low < 0x80 {
        octets.push(low)?;
    } else if high == 0 {
        octets.extend_from_slice(&[0x81, low])?;
    } else {
        octets.extend_from_slice(&[0x82, high, low])?;
    }
    octets.extend_from_slice(content)
}

/// Appends a transaction ID of four octets, with tag 48 for an originating or 49 for a destination ID.
pub(crate) fn push_id(octets: &mut Vec<u8>, tag: u8, id: u32) -> Result<(), AllocError> {
    push_element(octets, tag, &id.to_be_bytes())
}

/// Appends an invoke ID or a local code of one octet.
pub(crate) fn push_number(octets: &mut Vec<u8>, number: u8) -> Result<(), AllocError> {
    octets.extend_from_slice(&[0x02, 0x01, number])
}

/// Appends a dialogue request with this application context.
pub(crate) fn push_request(octets: &mut Vec<u8>, context: u8) -> Result<(), AllocError> {
    octets.extend_from_slice(&REQUEST)?;
    octets.extend_from_slice(&[context, 0x03])
}

/// Appends the dialogue response that accepts this application context.
pub(crate) fn push_response(octets: &mut Vec<u8>, context: u8) -> Result<(), AllocError> {
    octets.extend_from_slice(&RESPONSE)?;
    octets.extend_from_slice(&[context, 0x03])?;
    octets.extend_from_slice(&ACCEPTED)
}
