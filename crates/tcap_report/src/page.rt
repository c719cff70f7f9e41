//! The page: an HTML file that shows the dialogues that do not pass.

use crate::fault::Stop;
use crate::json::push_total;
use crate::sinks::write_text;
use crate::sum::Sum;
use std::alloc::Global;
use tcap_ber::Write;
use tcap_page::{FRAME_HEAD, FRAME_TAIL, push_named};

/// The most dialogues in a page.
const MOST: u64 = 10_000;

/// A page that is being written: the frame, and within it the JSON objects of the traces and of the first dialogues
/// that do not pass.
#[derive(Debug, Drop)]
pub struct Page<'a, J> {
    writer: &'a mut J,
    // How many more dialogues have room.
    room: u64,
    // How many dialogues had no room.
    left_out: u64,
}

impl<'a, J: Write> Page<'a, J> {
    /// Writes the frame to `writer`, up to the place of the objects, and returns the page.
    ///
    /// # Errors
    /// `Stop::Write` if the writer fails.
    pub fn begin(writer: &'a mut J) -> Result<Page<'a, J>, Stop> {
        write_text(writer, FRAME_HEAD)?;
        Ok(Page {
            writer,
            room: MOST,
            left_out: 0,
        })
    }

    /// Takes the room of one dialogue. If there is no room left, counts the dialogue as left out, and returns false.
    pub(crate) fn takes_dialogue(&mut self) -> bool {
        if self.room == 0 {
            self.left_out = self.left_out.saturating_add(1);
            return false;
        }
        self.room -= 1;
        true
    }

    /// Writes the line of an object.
    pub(crate) fn write(&mut self, line: &str) -> Result<(), Stop> {
        write_text(self.writer, line)
    }

    /// Writes the object with the sum of all traces and the version of the program, and the rest of the frame.
    ///
    /// # Errors
    /// `Stop::Write` if the writer fails, `Stop::Memory` if memory runs out.
    pub(crate) fn end(&mut self, alloc: Global, sum: &Sum, version: &str) -> Result<(), Stop> {
        let mut line = String::new(alloc);
        push_total(&mut line, sum, self.left_out)?;
        push_named(&mut line, "version", version)?;
        line.push_str("}\n")?;
        self.write(&line)?;
        self.write(FRAME_TAIL)
    }
}
