//! Transaction IDs: what both ends sent from and to each, and which are tangled.

pub(crate) mod history;
pub(crate) mod history_update;
pub(crate) mod id_list;
pub(crate) mod lookup;
pub(crate) mod message_effects;
pub(crate) mod messages_at_id;
pub(crate) mod sent_from_id;
pub(crate) mod sent_to_id;
pub(crate) mod tangled_ids;
