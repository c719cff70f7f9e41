//! Generated records, with the lines and certificates that describe them.

use std::alloc::{AllocError, Global};
use std::fmt::Write;

/// The hexadecimal digits.
const DIGITS: [u8; 16] = *b"0123456789abcdef";

/// One of the two ends of a record.
#[derive(Clone, Copy, PartialEq, Eq)]
pub(crate) enum Side {
    A,
    B,
}

impl Side {
    /// Returns the other end.
    pub(crate) fn other(self) -> Side {
        match self {
            Side::A => Side::B,
            Side::B => Side::A,
        }
    }

    /// Returns the end octet of an entry that this end sent.
    pub(crate) fn octet(self) -> u8 {
        match self {
            Side::A => 0x41,
            Side::B => 0x42,
        }
    }
}

/// What happened to a message after it was sent.
#[derive(Clone, Copy)]
pub(crate) enum Fate {
    /// It was delivered in this gap.
    In(usize),
    /// The provider of the other end answered it with the Abort that is this entry.
    By(usize),
    /// It was lost.
    Lost,
}

/// An expiry: in gap `at`, the invocation in the first component of entry `entry`, which A sent.
#[derive(Clone, Copy)]
pub(crate) struct Expiry {
    pub(crate) at: usize,
    pub(crate) entry: usize,
}

/// A record, with the fates and expiries of the run that made it.
#[derive(Drop)]
pub(crate) struct Made {
    pub(crate) octets: Vec<u8>,
    lens: Vec<usize>,
    pub(crate) fates: Vec<Fate>,
    pub(crate) expiries: Vec<Expiry>,
}

impl Made {
    /// Creates an empty record.
    pub(crate) fn new(alloc: Global) -> Made {
        Made {
            octets: Vec::new(alloc),
            lens: Vec::new(alloc),
            fates: Vec::new(alloc),
            expiries: Vec::new(alloc),
        }
    }

    /// Returns the octets of each entry.
    pub(crate) fn entries(&self, alloc: Global) -> Result<Vec<&[u8]>, AllocError> {
        let mut entries = Vec::new(alloc);
        let mut rest = self.octets.as_slice();
        for len in &self.lens {
            let (entry, behind) = rest.split_at((*len).min(rest.len()));
            entries.push(entry)?;
            rest = behind;
        }
        Ok(entries)
    }

    /// Returns the record as lines of hexadecimal digits.
    pub(crate) fn lines(&self, alloc: Global) -> Result<Vec<u8>, AllocError> {
        let mut lines = Vec::new(alloc);
        for entry in &self.entries(alloc)? {
            push_line(&mut lines, entry)?;
        }
        Ok(lines)
    }

    /// Returns the number of entries.
    pub(crate) fn len(&self) -> usize {
        self.fates.len()
    }

    /// Appends an entry that `side` sent, with the fate of its message.
    pub(crate) fn push(
        &mut self,
        side: Side,
        message: &[u8],
        fate: Fate,
    ) -> Result<(), AllocError> {
        self.octets.push(side.octet())?;
        self.octets.extend_from_slice(message)?;
        self.lens.push(message.len().saturating_add(1))?;
        self.fates.push(fate)?;
        Ok(())
    }

    /// Returns the certificate of the run, as JSON.
    pub(crate) fn certificate(&self, alloc: Global) -> Result<String, AllocError> {
        let mut text = String::new(alloc);
        text.push_str("{\"close\":[],\"expire\":[")?;
        let mut comma = "";
        for Expiry { at, entry } in &self.expiries {
            push_expiry(&mut text, comma, *at, *entry)?;
            comma = ",";
        }
        text.push_str("],\"fates\":[")?;
        comma = "";
        for fate in &self.fates {
            text.push_str(comma)?;
            push_fate(&mut text, *fate, self.len())?;
            comma = ",";
        }
        text.push_str("],\"version\":1}")?;
        Ok(text)
    }
}

/// Appends an expiry as a certificate spells it.
fn push_expiry(text: &mut String, comma: &str, at: usize, entry: usize) -> Result<(), AllocError> {
    write!(
        text,
        "{comma}{{\"at\":{at},\"component\":0,\"end\":\"A\",\"entry\":{entry}}}"
    )
    .map_err(|_| AllocError)
}

/// Appends a fate as a certificate spells it; `last` is the last gap.
fn push_fate(text: &mut String, fate: Fate, last: usize) -> Result<(), AllocError> {
    match fate {
        Fate::In(gap) => push_gap(text, gap.min(last)),
        Fate::By(entry) => push_reply(text, entry),
        Fate::Lost => text.push_str("\"lost\""),
    }
}

fn push_gap(text: &mut String, gap: usize) -> Result<(), AllocError> {
    write!(text, "{gap}").map_err(|_| AllocError)
}

fn push_reply(text: &mut String, entry: usize) -> Result<(), AllocError> {
    write!(text, "{{\"by\":{entry}}}").map_err(|_| AllocError)
}

/// Appends the line of an entry.
fn push_line(lines: &mut Vec<u8>, entry: &[u8]) -> Result<(), AllocError> {
    if let Some((side, message)) = entry.split_first() {
        lines.extend_from_slice(&[*side, b' '])?;
        for octet in message {
            let high = DIGITS[usize::from(*octet / 16)];
            let low = DIGITS[usize::from(*octet % 16)];
            lines.extend_from_slice(&[high, low])?;
        }
        lines.push(b'\n')?;
    }
    Ok(())
}
