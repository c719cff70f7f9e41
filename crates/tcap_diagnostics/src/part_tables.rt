//! The parts of messages in their order (Q.773).

use crate::parts::Holder::{
    Abort, Begin, Components, ContextName, Continue, Diagnostic, DialogueAbort, DialogueExternal,
    DialoguePdu, DialoguePortion, DialogueRequest, DialogueResponse, End, Invoke, Nothing, Opaque,
    Reject, ResultBody, ResultNumber, ReturnError, ReturnResult, Unidirectional, UserInformation,
};
use crate::parts::PartRule::{Any, Each, Needed, Once, Only, Others};
use crate::parts::{Holder, PartRule};

/// A row of a part table: the position of the part, the elements allowed there, its name, and what it holds.
pub(crate) type Part = (u8, PartRule, &'static str, Holder);

static WHOLE_PARTS: [Part; 6] = [
    (0, Once(0x61), "Unidirectional", Unidirectional),
    (0, Once(0x62), "Begin", Begin),
    (0, Once(0x64), "End", End),
    (0, Once(0x65), "Continue", Continue),
    (0, Once(0x67), "Abort", Abort),
    (0, Needed, "message", Nothing),
];

static UNIDIRECTIONAL_PARTS: [Part; 3] = [
    (0, Once(0x6B), "dialogue portion", DialoguePortion),
    (1, Once(0x6C), "components", Components),
    (1, Needed, "components", Nothing),
];

static BEGIN_PARTS: [Part; 4] = [
    (0, Once(0x48), "originating transaction ID", Nothing),
    (0, Needed, "originating transaction ID", Nothing),
    (1, Once(0x6B), "dialogue portion", DialoguePortion),
    (2, Once(0x6C), "components", Components),
];

static END_PARTS: [Part; 4] = [
    (0, Once(0x49), "destination transaction ID", Nothing),
    (0, Needed, "destination transaction ID", Nothing),
    (1, Once(0x6B), "dialogue portion", DialoguePortion),
    (2, Once(0x6C), "components", Components),
];

static CONTINUE_PARTS: [Part; 6] = [
    (0, Once(0x48), "originating transaction ID", Nothing),
    (0, Needed, "originating transaction ID", Nothing),
    (1, Once(0x49), "destination transaction ID", Nothing),
    (1, Needed, "destination transaction ID", Nothing),
    (2, Once(0x6B), "dialogue portion", DialoguePortion),
    (3, Once(0x6C), "components", Components),
];

static ABORT_PARTS: [Part; 4] = [
    (0, Once(0x49), "destination transaction ID", Nothing),
    (0, Needed, "destination transaction ID", Nothing),
    (1, Once(0x4A), "P-Abort cause", Nothing),
    (1, Once(0x6B), "dialogue portion", DialoguePortion),
];

static DIALOGUE_PORTION_PARTS: [Part; 2] = [
    (0, Once(0x28), "EXTERNAL", DialogueExternal),
    (0, Needed, "EXTERNAL", Nothing),
];

static DIALOGUE_EXTERNAL_PARTS: [Part; 4] = [
    (0, Once(0x06), "abstract syntax", Nothing),
    (0, Needed, "abstract syntax", Nothing),
    (1, Once(0xA0), "single ASN.1 type", DialoguePdu),
    (1, Needed, "single ASN.1 type", Nothing),
];

static DIALOGUE_PDU_PARTS: [Part; 4] = [
    (0, Once(0x60), "AARQ or AUDT", DialogueRequest),
    (0, Once(0x61), "AARE", DialogueResponse),
    (0, Once(0x64), "ABRT", DialogueAbort),
    (0, Needed, "PDU", Nothing),
];

static DIALOGUE_REQUEST_PARTS: [Part; 4] = [
    (0, Once(0x80), "protocol version", Nothing),
    (1, Once(0xA1), "application context name", ContextName),
    (1, Needed, "application context name", Nothing),
    (2, Once(0xBE), "user information", UserInformation),
];

static DIALOGUE_RESPONSE_PARTS: [Part; 8] = [
    (0, Once(0x80), "protocol version", Nothing),
    (1, Once(0xA1), "application context name", ContextName),
    (1, Needed, "application context name", Nothing),
    (2, Once(0xA2), "result", ResultNumber),
    (2, Needed, "result", Nothing),
    (3, Once(0xA3), "diagnostic", Diagnostic),
    (3, Needed, "diagnostic", Nothing),
    (4, Once(0xBE), "user information", UserInformation),
];

static DIALOGUE_ABORT_PARTS: [Part; 3] = [
    (0, Once(0x80), "abort source", Nothing),
    (0, Needed, "abort source", Nothing),
    (1, Once(0xBE), "user information", UserInformation),
];

static CONTEXT_NAME_PARTS: [Part; 2] = [
    (0, Once(0x06), "name", Nothing),
    (0, Needed, "name", Nothing),
];

static RESULT_NUMBER_PARTS: [Part; 2] = [
    (0, Once(0x02), "number", Nothing),
    (0, Needed, "number", Nothing),
];

static DIAGNOSTIC_PARTS: [Part; 3] = [
    (0, Once(0xA1), "dialogue service user", ResultNumber),
    (0, Once(0xA2), "dialogue service provider", ResultNumber),
    (0, Needed, "source", Nothing),
];

static USER_INFORMATION_PARTS: [Part; 2] = [
    (0, Each(0x28), "EXTERNAL", Opaque),
    (0, Only, "EXTERNAL", Nothing),
];

static COMPONENTS_PARTS: [Part; 6] = [
    (0, Each(0xA1), "Invoke", Invoke),
    (0, Each(0xA2), "ReturnResultLast", ReturnResult),
    (0, Each(0xA3), "ReturnError", ReturnError),
    (0, Each(0xA4), "Reject", Reject),
    (0, Each(0xA7), "ReturnResultNotLast", ReturnResult),
    (0, Only, "component", Nothing),
];

static INVOKE_PARTS: [Part; 7] = [
    (0, Once(0x02), "invoke ID", Nothing),
    (0, Needed, "invoke ID", Nothing),
    (1, Once(0x80), "linked ID", Nothing),
    (2, Once(0x02), "operation code", Nothing),
    (2, Once(0x06), "operation code", Nothing),
    (2, Needed, "operation code", Nothing),
    (3, Any, "parameter", Opaque),
];

static RETURN_RESULT_PARTS: [Part; 3] = [
    (0, Once(0x02), "invoke ID", Nothing),
    (0, Needed, "invoke ID", Nothing),
    (1, Once(0x30), "result", ResultBody),
];

static RESULT_BODY_PARTS: [Part; 4] = [
    (0, Once(0x02), "operation code", Nothing),
    (0, Once(0x06), "operation code", Nothing),
    (0, Needed, "operation code", Nothing),
    (1, Any, "parameter", Opaque),
];

static RETURN_ERROR_PARTS: [Part; 6] = [
    (0, Once(0x02), "invoke ID", Nothing),
    (0, Needed, "invoke ID", Nothing),
    (1, Once(0x02), "error code", Nothing),
    (1, Once(0x06), "error code", Nothing),
    (1, Needed, "error code", Nothing),
    (2, Any, "parameter", Opaque),
];

static REJECT_PARTS: [Part; 8] = [
    (0, Once(0x02), "invoke ID", Nothing),
    (0, Once(0x05), "NULL", Nothing),
    (0, Needed, "invoke ID", Nothing),
    (1, Once(0x80), "general problem", Nothing),
    (1, Once(0x81), "invoke problem", Nothing),
    (1, Once(0x82), "return result problem", Nothing),
    (1, Once(0x83), "return error problem", Nothing),
    (1, Needed, "problem", Nothing),
];

static OPAQUE_PARTS: [Part; 1] = [(0, Others, "element", Opaque)];

/// Returns the parts of a holder.
pub(crate) fn parts_of(holder: Holder) -> &'static [Part] {
    match holder {
        Holder::Whole => WHOLE_PARTS.as_slice(),
        Holder::Unidirectional => UNIDIRECTIONAL_PARTS.as_slice(),
        Holder::Begin => BEGIN_PARTS.as_slice(),
        Holder::End => END_PARTS.as_slice(),
        Holder::Continue => CONTINUE_PARTS.as_slice(),
        Holder::Abort => ABORT_PARTS.as_slice(),
        Holder::DialoguePortion => DIALOGUE_PORTION_PARTS.as_slice(),
        Holder::DialogueExternal => DIALOGUE_EXTERNAL_PARTS.as_slice(),
        Holder::DialoguePdu => DIALOGUE_PDU_PARTS.as_slice(),
        Holder::DialogueRequest => DIALOGUE_REQUEST_PARTS.as_slice(),
        Holder::DialogueResponse => DIALOGUE_RESPONSE_PARTS.as_slice(),
        Holder::DialogueAbort => DIALOGUE_ABORT_PARTS.as_slice(),
        Holder::ContextName => CONTEXT_NAME_PARTS.as_slice(),
        Holder::ResultNumber => RESULT_NUMBER_PARTS.as_slice(),
        Holder::Diagnostic => DIAGNOSTIC_PARTS.as_slice(),
        Holder::UserInformation => USER_INFORMATION_PARTS.as_slice(),
        Holder::Components => COMPONENTS_PARTS.as_slice(),
        Holder::Invoke => INVOKE_PARTS.as_slice(),
        Holder::ReturnResult => RETURN_RESULT_PARTS.as_slice(),
        Holder::ResultBody => RESULT_BODY_PARTS.as_slice(),
        Holder::ReturnError => RETURN_ERROR_PARTS.as_slice(),
        Holder::Reject => REJECT_PARTS.as_slice(),
        Holder::Opaque => OPAQUE_PARTS.as_slice(),
        Holder::Nothing => &[],
    }
}
