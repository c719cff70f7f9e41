use std::alloc::Global;
use tcap_ber::Counted;
use tcap_explain::{ExplainOptions, run_explain};
use tcap_lines::{Status, WriteFailed};

/// Returns what `tcapjudge explain` prints for a record and an operation table in memory, and the status with which it
/// ends.
pub fn verdict_text(
    alloc: Global,
    octets: &[u8],
    operations: &[u8],
) -> Result<(Vec<u8>, Status), WriteFailed> {
    let mut entries = Counted::new(octets);
    let mut table = Counted::new(operations);
    let mut writer = Counted::new(Vec::new(alloc));
    let mut chart = String::new(alloc);
    let asked = ExplainOptions {
        judged: None,
        with_chart: false,
    };
    let status = run_explain(
        alloc,
        &mut entries,
        &mut table,
        asked,
        &mut chart,
        &mut writer,
    )?;
    Ok((writer.into_inner(), status))
}
