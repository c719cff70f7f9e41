//! Reads a whole text.

ghost use Rattle.std.specs.Prelude.{◌≡◌};
ghost use Rattle.tcap_judge.specs.declared.text_reading.TextFault.{TextFault};
ghost use Rattle.tcap_judge.specs.Text.{ReadsText, octets_of};

use std::alloc::{AllocError, Global};
use tcap_ber::{Failed, Read};
use tcap_record::PIECE_LEN;

/// The reason why a text was not read.
#[derive(Clone, Copy, PartialEq, Eq)]
pub(crate) enum TextFault {
    /// The text is longer than the limit.
    TooLong,
    /// The reader failed after this many octets.
    Read(u64),
    /// Memory ran out.
    Memory,
}

impl From<AllocError> for TextFault {
    ghost from_gives = { λ _ fault. fault ≡ TextFault.Memory };

    fn from(_: AllocError) -> TextFault {
        TextFault::Memory
    }
}

/// Reads all octets that `reader` returns, if there are at most `limit`. Stops reading as soon as there are more.
pub(crate) fn read_text<R: Read>(
    alloc: Global,
    reader: &mut R,
    limit: usize,
) -> Result<Vec<u8>, TextFault>
    ensures reads { ReadsText limit (R.remaining reader.old) (R.remaining reader.new) (R.failures reader.old)
        (R.failures reader.new) (octets_of result) }
{
    let mut piece = [0; PIECE_LEN];
    let mut text = Vec::new(alloc);
    loop {
        let returned = match reader.read(&mut piece) {
            Ok(0) => return Ok(text),
            Ok(returned) => returned,
            Err(Failed) => return Err(TextFault::Read(text.len() as u64)),
        };
        if returned > limit - text.len() {
            return Err(TextFault::TooLong);
        }
        text.extend_from_slice(&piece[..returned])?;
    }
}
