//! The tags of messages and of their parts (Q.773 4.2.1).

/// The tag of a Unidirectional.
pub const UNIDIRECTIONAL: u8 = 0x61;

/// The tag of a Begin.
pub const BEGIN: u8 = 0x62;

/// The tag of an End.
pub const END: u8 = 0x64;

/// The tag of a Continue.
pub const CONTINUE: u8 = 0x65;

/// The tag of an Abort.
pub const ABORT: u8 = 0x67;

/// The tag of an originating transaction ID.
pub const OTID: u8 = 0x48;

/// The tag of a destination transaction ID.
pub const DTID: u8 = 0x49;

/// The tag of a P-Abort cause.
pub const CAUSE: u8 = 0x4A;

/// The tag of a dialogue portion.
pub const DIALOGUE_PORTION: u8 = 0x6B;

/// The tag of a component portion.
pub const COMPONENT_PORTION: u8 = 0x6C;
