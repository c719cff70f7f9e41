//! Reading a device to its end.

ghost use Rattle.std.specs.Prelude.{◌≡◌, ℕ, ◌++◌, List, OnOk};
ghost use Rattle.std.specs.Io.KnownBytes.{Consumes, IsAtEnd};
ghost use Rattle.tcap_ber.specs.declared.to_end.ReadError.{ReadError};
ghost use Rattle.tcap_ber.specs.Device.{CountsReadFailure};

use crate::device::{Failed, Read};
use std::alloc::AllocError;

const BUFFER_LEN: usize = 8192;

/// Why a device was not read to its end.
#[derive(Clone, Copy, Debug, PartialEq, Eq)]
pub enum ReadError {
    /// The device failed.
    Failed,
    /// Memory ran out.
    Memory,
}

impl From<Failed> for ReadError {
    ghost from_gives = { λ _ error. error ≡ ReadError.Failed };

    fn from(_: Failed) -> ReadError {
        ReadError::Failed
    }
}

impl From<AllocError> for ReadError {
    ghost from_gives = { λ _ error. error ≡ ReadError.Memory };

    fn from(_: AllocError) -> ReadError {
        ReadError::Memory
    }
}

/// Appends all remaining octets of `reader` to `octets`.
///
/// # Errors
///
/// `Failed` if the reader fails, `Memory` if memory runs out. All octets read before the error are in `octets`: memory
/// is reserved before each read, so none is lost.
pub fn read_to_end<R: Read>(reader: &mut R, octets: &mut Vec<u8>) -> Result<(), ReadError>
    ensures appends { (more : List ℕ) × (octets.new.items ≡ octets.old.items ++ more)
        × Consumes (R.remaining reader.old) (R.remaining reader.new) more }
    ensures end { OnOk result (IsAtEnd (R.remaining reader.new)) }
    ensures counts { CountsReadFailure (R.failures reader.old) (R.failures reader.new) result }
{
    let mut buffer = [0; BUFFER_LEN];
    loop {
        octets.reserve(BUFFER_LEN)?;
        let count = reader.read(&mut buffer)?;
        if count == 0 {
            return Ok(());
        }
        octets.extend_from_slice(&buffer[..count])?;
    }
}
