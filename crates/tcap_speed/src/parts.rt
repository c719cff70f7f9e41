//! Builds messages from the inside out.

use crate::dice::Dice;
use crate::octets::{push_element, push_number};
use std::alloc::{AllocError, Global};

/// The operation codes of the table, by class.
const CLASS_1: [u8; 20] = [
    2, 3, 4, 7, 8, 10, 11, 12, 22, 23, 43, 44, 45, 46, 56, 59, 60, 64, 66, 71,
];

const CLASS_2: [u8; 4] = [16, 17, 20, 35];

const CLASS_4: [u8; 4] = [31, 34, 49, 63];

/// An operation that is not in the table.
const UNKNOWN: u8 = 120;

/// An invoke ID that is never invoked.
const NEVER: u8 = 0xC0;

/// An invocation that its receiver answers: its invoke ID, operation code and class.
#[derive(Clone, Copy)]
pub(crate) struct Asked {
    pub(crate) id: u8,
    pub(crate) code: u8,
    pub(crate) class: u8,
}

/// The number of random octets from which parameters are cut.
const SOURCE: u32 = 4_096;

/// The octets of a message that is being built, part by part.
#[derive(Drop)]
pub(crate) struct Parts {
    /// Random octets, from which parameters are cut.
    source: Vec<u8>,
    result: Vec<u8>,
    component: Vec<u8>,
    portion: Vec<u8>,
    /// The content of the message before its component portion.
    pub(crate) content: Vec<u8>,
    /// The whole message.
    pub(crate) message: Vec<u8>,
}

impl Parts {
    /// Creates empty parts, and draws the random octets. Fails if memory runs out.
    pub(crate) fn new(alloc: Global, dice: &mut Dice) -> Result<Parts, AllocError> {
        let mut source = Vec::new(alloc);
        for _ in 0..SOURCE / 4 {
            source.extend_from_slice(&dice.word().to_be_bytes())?;
        }
        Ok(Parts {
            source,
            result: Vec::new(alloc),
            component: Vec::new(alloc),
            portion: Vec::new(alloc),
            content: Vec::new(alloc),
            message: Vec::new(alloc),
        })
    }

    /// Empties the message and its parts.
    pub(crate) fn clear(&mut self) {
        self.portion.clear();
        self.content.clear();
        self.message.clear();
    }

    /// Completes the message with this tag.
    pub(crate) fn end_message(&mut self, tag: u8) -> Result<(), AllocError> {
        if !self.portion.is_empty() {
            push_element(&mut self.content, 0x6C, &self.portion)?;
        }
        push_element(&mut self.message, tag, &self.content)
    }

    /// Appends a parameter of 8 to 179 octets, most of them short, to the component.
    fn push_parameter(&mut self, dice: &mut Dice, tag: u8) -> Result<(), AllocError> {
        push_element(&mut self.component, tag, chosen(&self.source, dice))
    }

    /// Chooses an operation of any class. Returns its code and its class.
    fn choose_operation(dice: &mut Dice) -> (u8, u8) {
        let place = dice.word() as usize;
        match dice.below(12) {
            0 => (CLASS_4[place % 4], 4),
            1 => (CLASS_2[place % 4], 2),
            _ => (CLASS_1[place % 20], 1),
        }
    }

    /// Appends an Invoke, and returns its invocation.
    pub(crate) fn push_invoke(
        &mut self,
        dice: &mut Dice,
        id: u8,
        is_unknown: bool,
    ) -> Result<Asked, AllocError> {
        let (code, class) = Parts::choose_operation(dice);
        self.component.clear();
        push_number(&mut self.component, id)?;
        push_number(&mut self.component, if is_unknown { UNKNOWN } else { code })?;
        self.push_parameter(dice, 0x30)?;
        push_element(&mut self.portion, 0xA1, &self.component)?;
        Ok(Asked { id, code, class })
    }

    /// Appends an Invoke of class 4.
    pub(crate) fn push_report(&mut self, dice: &mut Dice) -> Result<(), AllocError> {
        let place = dice.word() as usize;
        self.component.clear();
        push_number(&mut self.component, 1)?;
        push_number(&mut self.component, CLASS_4[place % 4])?;
        self.push_parameter(dice, 0x04)?;
        push_element(&mut self.portion, 0xA1, &self.component)
    }

    /// Appends a Return Result: the last one if the tag is A2, not the last if it is A7.
    fn push_result(
        &mut self,
        dice: &mut Dice,
        tag: u8,
        id: u8,
        code: u8,
    ) -> Result<(), AllocError> {
        self.result.clear();
        push_number(&mut self.result, code)?;
        push_element(&mut self.result, 0x30, chosen(&self.source, dice))?;
        self.component.clear();
        push_number(&mut self.component, id)?;
        push_element(&mut self.component, 0x30, &self.result)?;
        push_element(&mut self.portion, tag, &self.component)
    }

    /// Appends a Return Error.
    fn push_error(&mut self, dice: &mut Dice, id: u8) -> Result<(), AllocError> {
        self.component.clear();
        push_number(&mut self.component, id)?;
        push_number(&mut self.component, 34)?;
        self.push_parameter(dice, 0x30)?;
        push_element(&mut self.portion, 0xA3, &self.component)
    }

    /// Appends a Reject with the invoke problem "unrecognized operation".
    fn push_reject(&mut self, id: u8) -> Result<(), AllocError> {
        self.component.clear();
        push_number(&mut self.component, id)?;
        push_element(&mut self.component, 0x81, &[1])?;
        push_element(&mut self.portion, 0xA4, &self.component)
    }

    /// Appends the answer to an invocation, which is nothing if an operation of class 2 succeeds.
    pub(crate) fn push_answer(
        &mut self,
        dice: &mut Dice,
        asked: Asked,
        is_wrong: bool,
    ) -> Result<(), AllocError> {
        let id = if is_wrong { NEVER } else { asked.id };
        if dice.one_in(20) {
            return self.push_error(dice, id);
        }
        if dice.one_in(50) {
            return self.push_reject(id);
        }
        if asked.class != 1 {
            return Ok(());
        }
        if dice.one_in(20) {
            self.push_result(dice, 0xA7, id, asked.code)?;
        }
        self.push_result(dice, 0xA2, id, asked.code)
    }
}

/// Returns 6 to 176 octets of `source` as the content of a parameter, usually at most 32.
fn chosen<'a>(source: &'a [u8], dice: &mut Dice) -> &'a [u8] {
    let len = if dice.one_in(8) {
        dice.between(60, 176)
    } else {
        dice.between(6, 32)
    };
    let first = dice.below(SOURCE - 200);
    let last = first.saturating_add(len);
    source.get(first as usize..last as usize).unwrap_or(&[])
}
