use std::alloc::Global;
use tcap_ber::Counted;
use tcap_diagnostics::run_why;
use tcap_lines::{Status, WriteFailed};

/// Returns what `tcapjudge show --why` prints for a record in memory, and the status with which it ends.
pub fn explained(alloc: Global, octets: &[u8]) -> Result<(Vec<u8>, Status), WriteFailed> {
    let mut reader = Counted::new(octets);
    let mut writer = Counted::new(Vec::new(alloc));
    let status = run_why(alloc, &mut reader, &mut writer)?;
    Ok((writer.into_inner(), status))
}
