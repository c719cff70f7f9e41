//! Writes why nobody is blamed for a refuted entry.

ghost use Rattle.std.specs.Prelude.{◌≡◌, ◌++◌, Some, OnOk};
ghost use Rattle.std.specs.String.{string_bytes};
ghost use Rattle.tcap_faults.specs.declared.verdict.unblamed_reason.Unblamed.TheVariants.{Tangled};
ghost use Rattle.tcap_evidence.specs.Unblamed.{IsUnblamed, again_text, id_lines, spelling_words, tangle_words, tangled_line, tangled_text, unblamed_text, unblamed_words};

use crate::evidence_lines::{push_entries, push_grounds};
use crate::finding::grounds_for;
use crate::pairing::paired_before;
use crate::shown_facts::ShownFact;
use std::alloc::{AllocError, Global};
use tcap_end::Table;
use tcap_faults::{Tangle, TangledId, Unblamed, unblamed};
use tcap_record::{End, Record, push_hex};

/// The facts that show earlier uses of a message's IDs.
const ID_USES: [ShownFact; 4] = [
    ShownFact::PeerBegins,
    ShownFact::PeerContinues,
    ShownFact::OutgoingContinues,
    ShownFact::Used,
];

/// Appends the lines that show earlier uses of the IDs of the message in that entry.
fn push_id_uses(
    alloc: Global,
    text: &mut String,
    record: &Record,
    table: &Table,
    end: End,
    number: u64,
) -> Result<(), AllocError>
    ensures { OnOk result (string_bytes text.new ≡ string_bytes text.old
        ++ id_lines table.now end «record».now.entries.items number) }
{
    let grounds = grounds_for(alloc, record, table, end, number, &ID_USES)?;
    push_grounds(text, end, None, &grounds)
}

/// Returns the words for why an ID is ambiguous.
#[tactic(auto, unfolding(crate::specs::Unblamed::tangle_words))]
fn tangle_words(why: Tangle) -> &'static str
    ensures { result.now ≡ tangle_words why }
{
    match why {
        Tangle::TwoIds => " is tangled (two IDs of the other end stand with it): ",
        Tangle::BegunTwice => " is tangled (its end began it twice): ",
        Tangle::BothBegan =>
            " is tangled (its end began it, and went on from it to an ID that the other end began): ",
        Tangle::Guessed =>
            " is tangled (its end began it, and went on from it to an ID that the other end had not used): ",
    }
}

/// Returns the line for a Reject of something that a stack may read in another way.
#[tactic(auto, unfolding(crate::specs::Unblamed::spelling_words))]
fn spelling_words() -> &'static str
    ensures { result.now ≡ spelling_words }
{
    "  nobody is blamed for it: what it rejects may be mistyped or badly structured as this end reads it\n"
}

/// Appends that an end used an own ID again.
fn push_again(text: &mut String, end: End, again: u64) -> Result<(), AllocError>
    ensures { OnOk result (string_bytes text.new ≡ string_bytes text.old ++ again_text end again) }
{
    text.push_str("  nobody is blamed for it: ")?;
    text.push_str(end.letter())?;
    write!(text, " used an own ID again in entry {again}")?;
    text.push_str(", so that its transactions can't be told apart")?;
    text.push_str("\n")
}

/// Appends that an ID is ambiguous, with its end and the reason.
fn push_tangled_id(text: &mut String, tangled: &TangledId) -> Result<(), AllocError>
    ensures { OnOk result (string_bytes text.new ≡ string_bytes text.old ++ tangled_text tangled.now) }
{
    text.push_str("  nobody is blamed for it: transaction ID ")?;
    push_hex(text, tangled.id.octets())?;
    text.push_str(" of ")?;
    text.push_str(tangled.side.letter())?;
    text.push_str(tangle_words(tangled.why))
}

/// Appends that an ID is ambiguous, the entries that begin it and show its partners, and the earlier uses of the
/// message's IDs.
fn push_tangled(
    alloc: Global,
    text: &mut String,
    record: &Record,
    table: &Table,
    end: End,
    number: u64,
    tangled: &TangledId,
) -> Result<(), AllocError>
    ensures { OnOk result (string_bytes text.new ≡ string_bytes text.old
        ++ unblamed_words table.now end «record».now.entries.items number (Some (Tangled tangled.now))) }
{
    push_tangled_id(text, tangled)?;
    let entries = paired_before(alloc, record, tangled.side, &tangled.id, number)?;
    push_entries(text, &entries)?;
    text.push_str("\n")?;
    push_id_uses(alloc, text, record, table, end, number)
}

/// Appends why nobody is blamed for entry `number`.
///
/// The entry must be that end's and refuted, and no end may be blamed for it or for an earlier entry. There are three
/// possible reasons:
/// - the end used an own ID again;
/// - the message has an ambiguous ID, which is printed with the entries that show it;
/// - the message is a Reject of something that a stack may read in another way.
///
/// # Errors
///
/// AllocError if memory runs out; some lines may have been appended by then.
pub fn push_unblamed(
    alloc: Global,
    text: &mut String,
    record: &Record,
    table: &Table,
    end: End,
    number: u64,
) -> Result<(), AllocError>
    requires unblamed { IsUnblamed table.now end «record».now.entries.items number }
    ensures { OnOk result (string_bytes text.new ≡ string_bytes text.old
        ++ unblamed_text table.now end «record».now.entries.items number) }
{
    match unblamed(alloc, record, table, end, number) {
        Ok(Some(Unblamed::UsedAgain(again))) => push_again(text, end, again),
        Ok(Some(Unblamed::Tangled(tangled))) => {
            push_tangled(alloc, text, record, table, end, number, &tangled)
        }
        Ok(None) => text.push_str(spelling_words()),
        Err(_) => Err(AllocError),
    }
}
