//! Hints on files that were given by mistake.

ghost use Rattle.std.specs.Prelude.{◌≡◌, OnOk, OnErr};
ghost use Rattle.tcap_ber.specs.Device.{one_more};

use tcap_ber::Write;
use tcap_lines::WriteFailed;

/// The appearance of octets.
#[derive(Clone, Copy, PartialEq, Eq)]
enum FileFormat {
    /// A record.
    Record,
    /// Lines of hexadecimal digits.
    Lines,
    /// TCAP of ANSI T1.114.
    Ansi,
    /// A message of SCCP (Q.713).
    Sccp,
    /// A message of M3UA (RFC 4666).
    M3ua,
    /// A capture in the format pcap or pcapng.
    Capture,
    /// A file compressed by gzip (RFC 1952).
    Gzip,
    /// A text after a byte order mark of UTF-8.
    Marked,
    /// An operation table.
    Table,
    /// A set of operation tables (a book).
    Book,
    /// A certificate.
    Certificate,
    /// Another JSON text.
    Json,
}

/// The use that a file was given for.
#[derive(Clone, Copy, Debug, PartialEq, Eq)]
pub enum Role {
    /// A record whose entries are shown.
    Shown,
    /// A record that is judged.
    Record,
    /// Lines of hexadecimal digits.
    Lines,
    /// A trace: a record, or lines of hexadecimal digits.
    Trace,
    /// One operation table.
    Table,
    /// An operation table, or a set of them.
    Book,
    /// A certificate.
    Certificate,
}

/// Returns whether an octet is a hexadecimal digit.
fn is_digit(octet: u8) -> bool {
    octet.is_ascii_hexdigit()
}

/// Returns the octets after the first line.
fn after_line(octets: &[u8]) -> &[u8] {
    match octets.iter().position(|octet| *octet == b'\n') {
        Some(end) => &octets[end.saturating_add(1).min(octets.len())..],
        None => &[],
    }
}

/// Returns whether octets begin like lines of digits: lines to skip, then a quiet mark, or an end, a space and a digit.
fn are_lines(octets: &[u8]) -> bool {
    let mut rest = octets;
    for _ in 0..octets.len() {
        match rest {
            [b'#' | b'\n', ..] | [b'\r', b'\n', ..] => rest = after_line(rest),
            [b'Q', b'\n', ..] | [b'Q', b'\r', b'\n', ..] => return true,
            [b'A' | b'B', b' ', digit, ..] => return is_digit(*digit),
            // As far as the octets go, there are only lines to skip.
            [] => return true,
            _ => return false,
        }
    }
    rest.is_empty() && !octets.is_empty()
}

/// Returns the octets after quiet marks.
fn after_marks(octets: &[u8]) -> &[u8] {
    let mut rest = octets;
    while let [b'Q', more @ ..] = rest {
        rest = more;
    }
    rest
}

/// Returns whether octets begin like a message (Q.773): the tag of a message, a length, and the tag of a transaction
/// ID, of the dialogue portion or of the component portion.
fn is_message(octets: &[u8]) -> bool {
    let [0x61 | 0x62 | 0x64 | 0x65 | 0x67, length, rest @ ..] = octets else {
        return false;
    };
    let more = match length {
        0x81 => 1,
        0x82 => 2,
        0x83 => 3,
        0x84 => 4,
        _ => 0,
    };
    matches!(rest.get(more), Some(0x48 | 0x49 | 0x6B | 0x6C))
}

/// Returns whether octets begin like a record: quiet marks, then the octet of an end and a message.
fn is_record(octets: &[u8]) -> bool {
    match after_marks(octets) {
        [b'A' | b'B', message @ ..] => is_message(message),
        _ => false,
    }
}

/// Returns the octets that should be a message: those after quiet marks and the octet of an end, if there are any.
fn message_in(octets: &[u8]) -> &[u8] {
    match after_marks(octets) {
        [b'A' | b'B', message @ ..] => message,
        rest => rest,
    }
}

/// Returns the octets after white space (RFC 8259 2).
fn after_space(octets: &[u8]) -> &[u8] {
    let mut rest = octets;
    while let [b' ' | b'\t' | b'\n' | b'\r', more @ ..] = rest {
        rest = more;
    }
    rest
}

/// Returns the first key of a JSON object, or no octets if it has none or the end of the key is not among these octets.
/// None if the octets do not begin like an object.
fn first_key(octets: &[u8]) -> Option<&[u8]> {
    let [b'{', behind @ ..] = after_space(octets) else {
        return None;
    };
    let [b'"', key @ ..] = after_space(behind) else {
        return Some(&[]);
    };
    let end = key.iter().position(|octet| *octet == b'"');
    Some(&key[..end.unwrap_or(0).min(key.len())])
}

/// Returns the appearance of a message of another protocol.
fn format_of_message(octets: &[u8]) -> Option<FileFormat> {
    match octets {
        // A package: Unidirectional, Query, Response, Conversation, Abort.
        [0xE1..=0xE6 | 0xF6, ..] => Some(FileFormat::Ansi),
        // Version 1, a reserved octet, and a message class.
        [0x01, 0x00, 0x00..=0x09, ..] => Some(FileFormat::M3ua),
        // UDT, XUDT and LUDT with a protocol class of connectionless service.
        [0x09 | 0x11 | 0x13, 0x00 | 0x01 | 0x80 | 0x81, ..] => Some(FileFormat::Sccp),
        // Empty lines.
        [b'\n', b'\n' | b'\r', ..] => None,
        // UDTS, XUDTS and LUDTS with a return cause.
        [0x0A | 0x12 | 0x14, 0x00..=0x0E, ..] => Some(FileFormat::Sccp),
        _ => None,
    }
}

/// The keys of an operation table, and (`CERTIFICATE_KEYS`) of a certificate.
static TABLE_KEYS: [&str; 2] = ["operations", "prearranged"];

static CERTIFICATE_KEYS: [&str; 4] = ["close", "expire", "fates", "version"];

/// Returns whether a key is one of these.
fn is_one_of(names: &[&str], key: &[u8]) -> bool {
    names.iter().any(|name| name.as_bytes() == key)
}

/// Returns the appearance of a JSON object with this first key.
fn format_of_key(key: &[u8]) -> FileFormat {
    if is_one_of(&TABLE_KEYS, key) {
        FileFormat::Table
    } else if is_one_of(&CERTIFICATE_KEYS, key) {
        FileFormat::Certificate
    } else if is_one_of(&["tables"], key) {
        FileFormat::Book
    } else {
        FileFormat::Json
    }
}

/// Returns the appearance of a file that begins with these octets.
fn format_of(octets: &[u8]) -> Option<FileFormat> {
    match octets {
        [] => return None,
        // The magic numbers of pcap, with times in microseconds or nanoseconds and in either octet order, and of
        // pcapng.
        [0xD4, 0xC3, 0xB2, 0xA1, ..]
        | [0xA1, 0xB2, 0xC3, 0xD4, ..]
        | [0x4D, 0x3C, 0xB2, 0xA1, ..]
        | [0xA1, 0xB2, 0x3C, 0x4D, ..]
        | [0x0A, 0x0D, 0x0D, 0x0A, ..] => return Some(FileFormat::Capture),
        [0x1F, 0x8B, ..] => return Some(FileFormat::Gzip),
        [0xEF, 0xBB, 0xBF, ..] => return Some(FileFormat::Marked),
        _ => {}
    }
    if are_lines(octets) {
        return Some(FileFormat::Lines);
    }
    if is_record(octets) {
        return Some(FileFormat::Record);
    }
    match first_key(octets) {
        Some(key) => Some(format_of_key(key)),
        None => format_of_message(message_in(octets)),
    }
}

/// Returns whether a file of this appearance can be used in this role.
fn is_right(role: Role, look: FileFormat) -> bool {
    match role {
        Role::Shown | Role::Record => look == FileFormat::Record,
        Role::Lines => look == FileFormat::Lines,
        Role::Trace => matches!(look, FileFormat::Record | FileFormat::Lines),
        Role::Table => matches!(look, FileFormat::Table | FileFormat::Json),
        Role::Book => matches!(
            look,
            FileFormat::Table | FileFormat::Book | FileFormat::Json
        ),
        Role::Certificate => matches!(look, FileFormat::Certificate | FileFormat::Json),
    }
}

/// The beginning of a hint.
const HINT: &str = "  hint: ";

/// Returns the hint for a file of this appearance in this role.
fn words_of(role: Role, look: FileFormat) -> &'static str {
    match look {
        FileFormat::Lines if role == Role::Shown => {
            "this looks like lines of hexadecimal digits, which `tcapjudge show --lines` reads"
        }
        FileFormat::Lines => {
            "this looks like lines of hexadecimal digits, of which `tcapjudge pack` makes a record"
        }
        FileFormat::Record => "this looks like a record, which `tcapjudge show` prints",
        FileFormat::Ansi => {
            "this looks like TCAP of ANSI (T1.114), and a record holds that of ITU-T (Q.773)"
        }
        FileFormat::Sccp =>
            "this looks like SCCP, and an entry of a record holds the TCAP message in it",
        FileFormat::M3ua =>
            "this looks like M3UA, and an entry of a record holds the TCAP message in it",
        FileFormat::Capture =>
            "this looks like a capture, which `lines_of_capture` reads (in the repository: tools/lines_of_capture.py)",
        FileFormat::Gzip => "this looks like a compressed file, which `gunzip` unpacks",
        FileFormat::Marked => {
            "this looks like a text after a byte order mark, EF BB BF, which is not allowed"
        }
        FileFormat::Table => "this looks like an operation table, which `tcapjudge table` prints",
        FileFormat::Book => {
            "this looks like a book of operation tables, which `tcapjudge test --table` takes"
        }
        FileFormat::Certificate => {
            "this looks like a certificate, which `tcapjudge check` takes after the table"
        }
        FileFormat::Json => "this looks like JSON, as an operation table or a certificate is",
    }
}

/// Returns the appearance to report. If a record to show, or a trace, is expected, all JSON objects are
/// reported as JSON.
fn reported_format(role: Role, look: FileFormat) -> FileFormat {
    match (role, look) {
        (
            Role::Shown | Role::Trace,
            FileFormat::Table | FileFormat::Book | FileFormat::Certificate,
        ) => FileFormat::Json,
        _ => look,
    }
}

/// Returns the hint for a file that begins with these octets, if it cannot be used in this role.
fn words_on(role: Role, first: &[u8]) -> Option<&'static str> {
    match format_of(first) {
        Some(look) if !is_right(role, look) => Some(words_of(role, reported_format(role, look))),
        _ => None,
    }
}

/// Returns a hint on the first octets of a trace, if they look neither like lines of digits nor like a record. The hint
/// is for the line after a fault.
pub fn hint_of(first: &[u8]) -> Option<&'static str> {
    words_on(Role::Trace, first)
}

/// Writes octets.
fn write<W: Write>(octets: &[u8], writer: &mut W) -> Result<(), WriteFailed>
    ensures counts { OnOk result (W.failures writer.new ≡ W.failures writer.old) }
    ensures failed { OnErr result (W.failures writer.new ≡ one_more (W.failures writer.old)) }
{
    writer.write_all(octets).map_err(|_| WriteFailed)
}

/// Writes a hint if a file that begins with `first` cannot be used in this role. The hint is a line, with the path
/// if one is given. Callers write it after a line of fault.
///
/// # Errors
/// `WriteFailed` if the writer fails in this call.
pub fn write_hint<W: Write>(
    role: Role,
    path: Option<&str>,
    first: &[u8],
    writer: &mut W,
) -> Result<(), WriteFailed>
    ensures counts { OnOk result (W.failures writer.new ≡ W.failures writer.old) }
    ensures failed { OnErr result (W.failures writer.new ≡ one_more (W.failures writer.old)) }
{
    match (words_on(role, first), path) {
        (Some(words), Some(path)) => {
            write(HINT.as_bytes(), writer)?;
            write(path.as_bytes(), writer)?;
            write(b": ", writer)?;
            write(words.as_bytes(), writer)?;
            write(b"\n", writer)
        }
        (Some(words), None) => {
            write(HINT.as_bytes(), writer)?;
            write(words.as_bytes(), writer)?;
            write(b"\n", writer)
        }
        (None, _) => Ok(()),
    }
}
