use std::alloc::Global;
use tcap_command_line::request;

/// Returns the exit status if the words of a command line are wrong, and `None` if they are right.
pub fn status_of_words(alloc: Global, words: &[&str]) -> Option<u8> {
    match request(alloc, words) {
        Ok(_) => None,
        Err(fault) => Some(fault.status()),
    }
}
