//! Gives a record to one end.

use std::alloc::Global;
use tcap_end::{EndState, HalfName, Table};
use tcap_msg::MessageParts;
use tcap_record::{BodyView, End, Frames, PIECE_LEN};

/// Operations of each class.
const TABLE: &str =
    r#"{"operations":[{"class":1,"code":45},{"class":2,"code":46},{"class":3,"code":47},
    {"class":4,"code":48}]}"#;

/// Gives the end an entry: it sends what end A sent, and receives what end B sent. Before it sends a message with an
/// originating ID, the invocation with ID 1 of that transaction expires. Returns whether the end took the entry.
fn step(end: &mut EndState, table: &Table, entry_side: Option<End>, body: BodyView) -> bool {
    match (entry_side, body) {
        (Some(End::A), BodyView::Good(message)) => {
            if let Some(otid) = message.otid() {
                let _ = end.expire(table, HalfName::Own(otid.to_transaction_id()), 1);
            }
            end.send(table, &message).is_ok()
        }
        (Some(End::B), BodyView::Good(message)) => end.receive(table, &message).is_ok(),
        _ => false,
    }
}

/// Returns how many entries of a record an end takes, or `None` if there is no memory for the table.
pub(crate) fn count_taken(alloc: Global, octets: &[u8]) -> Option<usize> {
    let table = Table::from_json(alloc, TABLE.as_bytes()).ok()?;
    let mut end = EndState::new(alloc);
    let mut frames = Frames::new(alloc);
    let mut count: usize = 0;
    for piece in octets.chunks(PIECE_LEN) {
        let mut rest = piece;
        for _ in 0..=piece.len() {
            let Ok(taken) = frames.feed_some(rest) else {
                break;
            };
            rest = &rest[taken..];
            let Some(entry) = frames.front() else {
                break;
            };
            if step(&mut end, &table, entry.side, entry.body) {
                count = count.saturating_add(1);
            }
            frames.drop_front();
        }
    }
    Some(count)
}
