//! Pseudorandom numbers, which depend only on the seed.

use rand_core::utils::NextWord;
use rand_pcg::Pcg32;

/// A source of pseudorandom numbers.
#[derive(Drop)]
pub(crate) struct Dice {
    words: Pcg32,
}

impl Dice {
    /// Creates the source with this seed.
    pub(crate) fn new(seed: u32) -> Dice {
        Dice {
            words: Pcg32::new(u64::from(seed), 54),
        }
    }

    /// Returns any number.
    pub(crate) fn word(&mut self) -> u32 {
        self.words.next_word()
    }

    /// Returns a number less than `count`, or 0 if `count` is 0.
    pub(crate) fn below(&mut self, count: u32) -> u32 {
        self.word() % count.max(1)
    }

    /// Returns a number from `first` to `last`, both included.
    pub(crate) fn between(&mut self, first: u32, last: u32) -> u32 {
        first.saturating_add(self.below(last.saturating_sub(first).saturating_add(1)))
    }

    /// Returns true with probability one in `count`, and never if `count` is 0.
    pub(crate) fn one_in(&mut self, count: u32) -> bool {
        count > 0 && self.below(count) == 0
    }
}
