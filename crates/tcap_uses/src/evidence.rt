ghost use Rattle.std.specs.Prelude.{◌≡◌, true, IfOk, slice_get};
ghost use Rattle.std.specs.String.{string_bytes};
ghost use Rattle.tcap_evidence.specs.EvidenceWords.{is_for, refutation_text};

use std::alloc::{AllocError, Global};
use tcap_end::Table;
use tcap_evidence::push_why;
use tcap_record::{End, Record};
use tcap_refute::Refutation;

/// Says in words which rule the entry breaks that `blame` found at fault, and which entries show it.
pub fn blamed_text(
    alloc: Global,
    record: &Record,
    table: &Table,
    end: End,
    named: Refutation,
) -> Result<String, AllocError>
    requires { is_for end (slice_get «record».now.entries.items named.entry) ≡ true }
    ensures { IfOk result (λ text. string_bytes text
        ≡ refutation_text true table.now end «record».now.entries.items named) }
{
    let mut text = String::new(alloc);
    push_why(alloc, &mut text, record, table, end, named, true)?;
    Ok(text)
}
