//! Reads the operation table and the certificate for a record.

ghost use Rattle.std.specs.Prelude.{◌≡◌};
ghost use Rattle.tcap_judge.specs.CheckOutcome.{ReadsCertificate, ReadsTable, text_fault_outcome};
ghost use Rattle.tcap_judge.specs.Device.{device};

use crate::outcome::{OUT_OF_MEMORY, Outcome};
use crate::text_reading::{TextFault, read_text};
use std::alloc::Global;
use tcap_ber::Read;
use tcap_certificate::{Certificate, Reason};
use tcap_certificate_text::from_json;
use tcap_end::{Table, TableReason};
use tcap_record::FeedReason;

/// The greatest length of the text of a table or a certificate, in octets.
const TEXT_LIMIT: usize = 67_108_864;

/// The number of the fault of a table whose text is too long.
const NOT_JSON: u8 = 30;

/// The number of the fault of a text that is not a certificate.
const CERTIFICATE_SHAPE: u8 = 60;

/// Returns the outcome if a text could not be read; its number is `too_long` if the text is too long.
fn without_text(too_long: u8, fault: TextFault) -> Outcome
    ensures { result ≡ text_fault_outcome too_long fault }
{
    match fault {
        TextFault::TooLong => Outcome::Faulty(too_long, 0),
        TextFault::Read(place) => Outcome::Faulty(FeedReason::Read.number(), place),
        TextFault::Memory => OUT_OF_MEMORY,
    }
}

/// Reads an operation table from a text of at most 67,108,864 octets.
///
/// # Errors
///
/// The outcome to report instead: a fault of the table (30 to 34), the reader's failure (23), or that memory ran out
/// (99).
pub fn read_table<R: Read>(alloc: Global, reader: &mut R) -> Result<Table, Outcome>
    ensures { ReadsTable (device R.remaining R.failures reader.old reader.new) result }
{
    match read_text(alloc, reader, TEXT_LIMIT) {
        Ok(text) => match Table::from_json(alloc, &text) {
            Ok(table) => Ok(table),
            Err(fault) if matches!(fault.reason, TableReason::Memory) => Err(OUT_OF_MEMORY),
            Err(fault) => Err(Outcome::Faulty(fault.reason.number(), fault.place)),
        },
        Err(fault) => Err(without_text(NOT_JSON, fault)),
    }
}

/// Reads a certificate from a text of at most 67,108,864 octets.
///
/// # Errors
///
/// The outcome to report instead: that the text is not a certificate (60), the reader's failure (23), or that memory
/// ran out (99).
pub fn read_certificate<R: Read>(alloc: Global, reader: &mut R) -> Result<Certificate, Outcome>
    ensures { ReadsCertificate (device R.remaining R.failures reader.old reader.new) result }
{
    match read_text(alloc, reader, TEXT_LIMIT) {
        Ok(text) => match from_json(alloc, &text) {
            Ok(certificate) => Ok(certificate),
            Err(fault) if matches!(fault.reason, Reason::Memory) => Err(OUT_OF_MEMORY),
            Err(_) => Err(Outcome::Faulty(CERTIFICATE_SHAPE, 0)),
        },
        Err(fault) => Err(without_text(CERTIFICATE_SHAPE, fault)),
    }
}
