//! Lawful records that are awkward to judge.

use crate::dice::Dice;
use crate::octets::{push_element, push_id, push_number};
use crate::record::{Expiry, Fate, Made, Side};
use std::alloc::{AllocError, Global};

/// An operation of class 1 of the table, and one of class 4.
const REPORTS: u8 = 45;

const SILENT: u8 = 34;

/// The component of a message, if it has one.
#[derive(Clone, Copy)]
enum Part {
    Invoke(u8, u8),
    Result(u8),
    None,
}

/// A record that is being made, with buffers for its next message.
#[derive(Drop)]
struct Making {
    made: Made,
    dice: Dice,
    component: Vec<u8>,
    portion: Vec<u8>,
    content: Vec<u8>,
    message: Vec<u8>,
    key: u32,
}

impl Making {
    fn new(alloc: Global, seed: u32) -> Making {
        let mut dice = Dice::new(seed);
        let key = dice.word();
        Making {
            made: Made::new(alloc),
            dice,
            component: Vec::new(alloc),
            portion: Vec::new(alloc),
            content: Vec::new(alloc),
            message: Vec::new(alloc),
            key,
        }
    }

    /// Returns the transaction ID with this number.
    fn id(&self, number: u32) -> u32 {
        number.wrapping_mul(0x9E37_79B1) ^ self.key
    }

    /// Appends this component, an Invoke with a parameter of four octets, in a component portion.
    fn push_part(&mut self, part: Part) -> Result<(), AllocError> {
        self.component.clear();
        self.portion.clear();
        match part {
            Part::Invoke(id, code) => {
                let parameter = self.dice.word().to_be_bytes();
                push_number(&mut self.component, id)?;
                push_number(&mut self.component, code)?;
                push_element(&mut self.component, 0x04, &parameter)?;
                push_element(&mut self.portion, 0xA1, &self.component)?;
            }
            Part::Result(id) => {
                push_number(&mut self.component, id)?;
                push_element(&mut self.portion, 0xA2, &self.component)?;
            }
            Part::None => return Ok(()),
        }
        push_element(&mut self.content, 0x6C, &self.portion)
    }

    /// Completes the message whose IDs are in `content`, and appends it to the record.
    fn end_message(
        &mut self,
        side: Side,
        tag: u8,
        part: Part,
        fate: Fate,
    ) -> Result<(), AllocError> {
        self.push_part(part)?;
        self.message.clear();
        push_element(&mut self.message, tag, &self.content)?;
        self.content.clear();
        self.made.push(side, &self.message, fate)
    }

    /// Returns the fate of a message that is delivered in the gap after the next entry.
    fn next(&self) -> Fate {
        Fate::In(self.made.len().saturating_add(1))
    }

    fn begin(&mut self, own: u32, part: Part, fate: Fate) -> Result<(), AllocError> {
        push_id(&mut self.content, 0x48, own)?;
        self.end_message(Side::A, 0x62, part, fate)
    }

    fn go_on(&mut self, side: Side, own: u32, peer: u32, part: Part) -> Result<(), AllocError> {
        push_id(&mut self.content, 0x48, own)?;
        push_id(&mut self.content, 0x49, peer)?;
        let fate = self.next();
        self.end_message(side, 0x65, part, fate)
    }

    fn end(&mut self, peer: u32) -> Result<(), AllocError> {
        push_id(&mut self.content, 0x49, peer)?;
        let fate = self.next();
        self.end_message(Side::A, 0x64, Part::None, fate)
    }

    fn abort(&mut self, peer: u32) -> Result<(), AllocError> {
        push_id(&mut self.content, 0x49, peer)?;
        push_element(&mut self.content, 0x4A, &[1])?;
        let fate = self.next();
        self.end_message(Side::A, 0x67, Part::None, fate)
    }
}

/// Makes one dialogue that uses one invoke ID again and again.
pub(crate) fn one_invoke_id(alloc: Global, entries: u32, seed: u32) -> Result<Made, AllocError> {
    let mut making = Making::new(alloc, seed);
    let (a, b) = (making.id(1), making.id(2));
    let fate = making.next();
    making.begin(a, Part::None, fate)?;
    making.go_on(Side::B, b, a, Part::None)?;
    for _ in 0..entries / 2 {
        making.go_on(Side::A, a, b, Part::Invoke(1, REPORTS))?;
        making.go_on(Side::B, b, a, Part::Result(1))?;
    }
    Ok(making.made)
}

/// Makes Begins that are all in transit until the end of the record.
pub(crate) fn all_under_way(alloc: Global, entries: u32, seed: u32) -> Result<Made, AllocError> {
    let mut making = Making::new(alloc, seed);
    for number in 0..entries {
        let own = making.id(number);
        making.begin(own, Part::Invoke(1, REPORTS), Fate::In(entries as usize))?;
    }
    Ok(making.made)
}

/// Makes Continues that cross an End; the provider answers each with an Abort.
pub(crate) fn crossing(alloc: Global, entries: u32, seed: u32) -> Result<Made, AllocError> {
    let mut making = Making::new(alloc, seed);
    for number in 0..entries / 5 {
        let own = making.id(number);
        let fate = making.next();
        making.begin(own, Part::Invoke(1, REPORTS), fate)?;
        making.go_on(Side::B, own, own, Part::None)?;
        making.end(own)?;
        making.go_on(Side::B, own, own, Part::Invoke(2, SILENT))?;
        making.abort(own)?;
    }
    Ok(making.made)
}

/// Makes one dialogue, in each gap of which an invocation expires.
pub(crate) fn expiring(alloc: Global, entries: u32, seed: u32) -> Result<Made, AllocError> {
    let mut making = Making::new(alloc, seed);
    let (a, b) = (making.id(1), making.id(2));
    let fate = making.next();
    making.begin(a, Part::None, fate)?;
    making.go_on(Side::B, b, a, Part::None)?;
    for number in 2..entries {
        making.go_on(Side::A, a, b, Part::Invoke((number % 64) as u8, SILENT))?;
        let expiry = Expiry {
            at: making.made.len(),
            entry: number as usize,
        };
        making.made.expiries.push(expiry)?;
    }
    Ok(making.made)
}

/// Makes Continues of A that B can't receive.
pub(crate) fn unheard(alloc: Global, entries: u32, seed: u32) -> Result<Made, AllocError> {
    let mut making = Making::new(alloc, seed);
    let lost = making.id(entries);
    for number in 0..entries {
        let own = making.id(number);
        making.go_on(Side::A, own, lost, Part::Invoke(1, REPORTS))?;
    }
    Ok(making.made)
}
