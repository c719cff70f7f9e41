//! The components of a message: their counts by invoke ID, and those that a half does not allow (F10 to F13).

pub(crate) mod answer_faults;
pub(crate) mod class_counts;
pub(crate) mod code_count_maps;
pub(crate) mod code_counts;
pub(crate) mod component_faults;
pub(crate) mod component_sort;
pub(crate) mod invoke_faults;
pub(crate) mod invoke_history;
pub(crate) mod link_hint;
pub(crate) mod link_problem;
pub(crate) mod linkable_operation;
pub(crate) mod linked_invokes;
pub(crate) mod preceding_components;
pub(crate) mod reject_faults;
pub(crate) mod saturating_sum;
pub(crate) mod several_tallies;
pub(crate) mod tally;
