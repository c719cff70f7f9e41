//! Faults of the files: the record, the table or the certificate.

ghost use Rattle.std.specs.Prelude.{◌≡◌, IfOk};
ghost use Rattle.std.specs.String.{string_bytes};
ghost use Rattle.tcap_explain.specs.Faults.{fault_lines, fault_words};

use std::alloc::{AllocError, Global};
use tcap_judge::Outcome;

/// Returns the file at fault, and the command that shows more, by the number of the fault.
#[tactic(auto, unfolding(crate::specs::Faults::fault_words))]
fn words_of(number: u8) -> &'static str
    ensures { result.now ≡ fault_words number }
{
    if number == 23 {
        "a file can't be opened or read: the table, the certificate or the record, the first that is needed"
    } else if 30 <= number && number <= 34 {
        "the operation table: `tcapjudge table TABLE` says what is wrong"
    } else if number == 60 {
        "the certificate: its text is none"
    } else {
        "the record: `tcapjudge show --why RECORD` says what is wrong"
    }
}

/// Returns the line after a fault, which names the file as far as the number shows it. Empty if `outcome` is no fault,
/// or if memory ran out.
pub(crate) fn fault_text(alloc: Global, outcome: Outcome) -> Result<String, AllocError>
    ensures { IfOk result (λ text. string_bytes text ≡ fault_lines outcome) }
{
    let mut text = String::new(alloc);
    match outcome {
        Outcome::Faulty(99, _) => {}
        Outcome::Faulty(number, _) => {
            text.push_str("  why: ")?;
            text.push_str(words_of(number))?;
            text.push_str("\n")?;
        }
        _ => {}
    }
    Ok(text)
}
