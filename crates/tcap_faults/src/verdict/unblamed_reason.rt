//! The reasons why nothing is blamed on an end (Q.774 3.3).

use tcap_msg::TransactionId;
use tcap_record::End;

/// The reason why a transaction ID is tangled.
#[derive(Clone, Copy, Debug, PartialEq, Eq)]
pub enum Tangle {
    /// Two IDs of the other end are joined with it.
    TwoIds,
    /// Its end began it twice.
    BegunTwice,
    /// Its end began it, and sent a Continue from it to an ID that the other end began.
    BothBegan,
    /// Its end began it, and then sent a Continue from it to an ID that the other end had not used.
    Guessed,
}

/// A tangled transaction ID.
#[derive(Debug, Drop)]
pub struct TangledId {
    /// The end whose ID it is.
    pub side: End,
    /// The ID.
    pub id: TransactionId,
    /// The reason why it is tangled.
    pub why: Tangle,
}

/// The reason why nothing is blamed on an end at an entry.
#[derive(Debug, Drop)]
pub enum Unblamed {
    /// The end used an own ID again in the entry with this number, since the last quiet mark. After that, it is
    /// unclear which transaction is meant.
    UsedAgain(u64),
    /// Its message goes over tangled IDs, and this is the first of them.
    Tangled(TangledId),
}
