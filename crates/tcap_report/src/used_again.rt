//! IDs that are used again under `--ids once`, which never frees an ID before a quiet mark.

use crate::doubt_words::line_of;
use std::alloc::{AllocError, Global};
use std::collections::BTreeSet;
use tcap_dialogues::HeadingView;
use tcap_msg::{Kind as Form, TransactionId};
use tcap_record::{End, push_hex};
use tcap_traces::Case;

/// The IDs of an end in the entries of a dialogue so far.
#[derive(Drop)]
struct Uses {
    /// All of them.
    named: BTreeSet<TransactionId>,
    /// The IDs of Begins that the peer has not answered.
    begun: BTreeSet<TransactionId>,
}

impl Uses {
    /// Creates the state before the first entry.
    fn new(alloc: Global) -> Uses {
        Uses {
            named: BTreeSet::new(alloc),
            begun: BTreeSet::new(alloc),
        }
    }

    /// Notes an entry of the end. Returns whether it begins or accepts a transaction from an ID that an earlier entry
    /// carries.
    fn note(&mut self, peer: &mut Uses, heading: HeadingView) -> Result<bool, AllocError> {
        let mut accepts = false;
        if let Some(dtid) = heading.dtid {
            accepts = peer.begun.remove(&dtid.to_transaction_id());
            peer.named.insert(dtid.to_transaction_id())?;
        }
        let Some(otid) = heading.otid else {
            return Ok(false);
        };
        let is_new = self.named.insert(otid.to_transaction_id())?;
        if heading.kind == Some(Form::Begin) {
            accepts = true;
            self.begun.insert(otid.to_transaction_id())?;
        }
        Ok(accepts && !is_new)
    }
}

/// Returns the number in the dialogue of the first entry that uses an ID again. It comes after an End or an Abort, and
/// begins or accepts a transaction from an ID that an earlier entry carries.
fn used_again(alloc: Global, case: &Case) -> Result<Option<u64>, AllocError> {
    let mut a = Uses::new(alloc);
    let mut b = Uses::new(alloc);
    let mut is_over = false;
    let mut number = 0;
    for held in &case.entries {
        let heading = held.heading();
        let again = match heading.sender {
            End::A => a.note(&mut b, heading)?,
            End::B => b.note(&mut a, heading)?,
        };
        if is_over && again {
            return Ok(Some(number));
        }
        is_over |= matches!(heading.kind, Some(Form::End | Form::Abort));
        number = number.saturating_add(1);
    }
    Ok(None)
}

/// Appends, under `--ids once`, which ID is used again after the dialogue was over, if one is.
pub(crate) fn push_used_again(
    alloc: Global,
    text: &mut String,
    case: &Case,
) -> Result<(), AllocError> {
    if !case.rules.once || case.gathered.over.is_none() {
        return Ok(());
    }
    let Some(number) = used_again(alloc, case)? else {
        return Ok(());
    };
    let Some(held) = case.entries.get(number as usize) else {
        return Ok(());
    };
    let heading = held.heading();
    let Some(otid) = heading.otid else {
        return Ok(());
    };
    text.push_str("; ")?;
    text.push_str(heading.sender.letter())?;
    text.push_str(" uses its ID ")?;
    push_hex(text, otid.octets)?;
    let line = line_of(case, number);
    if line > 0 {
        write!(text, " again at line {line}")?;
    } else {
        write!(text, " again at entry {number} of the dialogue")?;
    }
    text.push_str(", and by --ids once no ID is free before the next quiet mark")
}
