ghost use Rattle.std.specs.Prelude.{◌≡◌, ◌≤◌, ℕ, List, true, false, length, IfSome, Some};
ghost use Rattle.std.specs.List.{AllByRecursion};
ghost use Rattle.tcap_record.specs.RecordOctets.{entry_limit};
ghost use Rattle.tcap_model.specs.World.{Item};
ghost use Rattle.tcap_model.specs.Run.{Event, IsRunOf};
ghost use Rattle.tcap_certificate.specs.Certificate.{prompt};
ghost use Rattle.tcap_certificate.specs.DescribedRun.{IsPlain};
ghost use Rattle.tcap_check.specs.GivenRun.{DeliversAtOnce, IsVisible};
ghost use Rattle.tcap_judge.specs.LawfulRecord.{SpellsRecord};

use std::alloc::Global;
use tcap_ber::Counted;
use tcap_check::{Certificate, Fate, Reason, check};
use tcap_end::Table;
use tcap_judge::laws;
use tcap_record::read_record;

/// Creates the certificate by which each of `count` messages is received before another is sent. Returns `None` if
/// memory runs out.
fn prompt_certificate(alloc: Global, count: usize) -> Option<Certificate>
    requires few { count ≤ entry_limit }
    ensures { IfSome result (λ c. c ≡ prompt count) }
{
    let mut fates = Vec::new(alloc);
    let mut number = 0;
    while (number as usize) < count {
        number += 1;
        let Ok(()) = fates.push(Fate::Gap(number)) else {
            return None;
        };
    }
    Certificate::new(fates, Vec::new(alloc), Vec::new(alloc))
}

/// Returns whether two lawful ends may have sent a record in a run that delivers each message before another is sent.
///
/// The answer is `None` if the octets can't be read, or if memory runs out.
pub fn is_prompt(alloc: Global, octets: &[u8], table: &Table) -> Option<bool>
    // If true, such a run sends the items that the octets spell. Invocations may expire in it.
    ensures prompt { result ≡ Some true → (items : List Item) × (events : List Event) × SpellsRecord items octets.now
        × IsRunOf items table.now events × DeliversAtOnce table.now events × AllByRecursion IsPlain events }
    // If false, no such run sends the items without a loss, an expiry or a closing.
    ensures other { result ≡ Some false → (items : List Item) (events : List Event) → SpellsRecord items octets.now
        → length items ≤ entry_limit → IsRunOf items table.now events → AllByRecursion IsVisible events
        → DeliversAtOnce table.now events → ⊥ }
{
    laws::octets_are_read_as_their_items();
    laws::prompt_octets_are_given();
    laws::prompt_certificates_say_so_of_octets();
    let mut reader = Counted::new(octets);
    let Ok(record) = read_record(alloc, &mut reader) else {
        return None;
    };
    let certificate = prompt_certificate(alloc, record.entries.len())?;
    match check(alloc, &record, table, &certificate, None) {
        Ok(_) => Some(true),
        Err(fault) => match fault.reason {
            Reason::Memory => None,
            _ => Some(false),
        },
    }
}
