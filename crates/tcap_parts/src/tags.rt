//! The tags of components and of dialogue portions (Q.773 4.2.2, 4.2.3).

/// The tag of an INTEGER: an invoke ID, a local code or a number of a dialogue portion.
pub(crate) const INTEGER: u8 = 0x02;

/// The tag of NULL, which replaces the invoke ID of a Reject if it is unknown.
pub(crate) const NULL: u8 = 0x05;

/// The tag of an OBJECT IDENTIFIER: a global code or the name of a syntax or an application context.
pub(crate) const OBJECT_ID: u8 = 0x06;

/// The tag of a linked ID.
pub(crate) const LINKED_ID: u8 = 0x80;

/// The tag of a Return Result's body.
pub(crate) const SEQUENCE: u8 = 0x30;

/// The tag of an Invoke.
pub(crate) const INVOKE: u8 = 0xA1;

/// The tag of a Return Result that is the last one.
pub(crate) const RETURN_RESULT_LAST: u8 = 0xA2;

/// The tag of a Return Error.
pub(crate) const RETURN_ERROR: u8 = 0xA3;

/// The tag of a Reject.
pub(crate) const REJECT: u8 = 0xA4;

/// The tag of a Return Result that is not the last one.
pub(crate) const RETURN_RESULT_NOT_LAST: u8 = 0xA7;

/// The tag of an EXTERNAL: of the dialogue portion, or in user information.
pub(crate) const EXTERNAL: u8 = 0x28;

/// The tag of an EXTERNAL's single ASN.1 type, which contains a PDU.
pub(crate) const SINGLE_TYPE: u8 = 0xA0;

/// The tag of a dialogue request, AARQ.
pub(crate) const REQUEST: u8 = 0x60;

/// The tag of a dialogue response, AARE.
pub(crate) const RESPONSE: u8 = 0x61;

/// The tag of a dialogue abort, ABRT.
pub(crate) const ABORT: u8 = 0x64;

/// The tag of the PDU of a Unidirectional, AUDT.
pub(crate) const UNI: u8 = 0x60;

/// The tag of a protocol version.
pub(crate) const VERSION: u8 = 0x80;

/// The tag of an application context name.
pub(crate) const CONTEXT: u8 = 0xA1;

/// The tag of a result.
pub(crate) const RESULT: u8 = 0xA2;

/// The tag of a diagnostic.
pub(crate) const DIAGNOSTIC: u8 = 0xA3;

/// The tag of a diagnostic from the dialogue service user.
pub(crate) const USER: u8 = 0xA1;

/// The tag of a diagnostic from the dialogue service provider.
pub(crate) const PROVIDER: u8 = 0xA2;

/// The tag of an abort source.
pub(crate) const ABORT_SOURCE: u8 = 0x80;

/// The tag of user information.
pub(crate) const USER_INFORMATION: u8 = 0xBE;

/// The contents of dialogue-as-id, the name of the abstract syntax of structured dialogues.
pub(crate) const DIALOGUE_AS_ID: [u8; 7] = [0x00, 0x11, 0x86, 0x05, 0x01, 0x01, 0x01];

/// The contents of unidialogue-as-id, the name of the abstract syntax of Unidirectional messages.
pub(crate) const UNIDIALOGUE_AS_ID: [u8; 7] = [0x00, 0x11, 0x86, 0x05, 0x01, 0x02, 0x01];
