//! Items by invoke ID, in the order in which they came, and values by operation code.
#![tactic(auto)]

mod chains;
mod code_map;
mod inline_list;
mod kind_index;
mod kind_numbers;
mod lists;
mod place_search;
mod row;

pub use code_map::{CodeKey, CodeMap};
pub use kind_numbers::SORTS;
pub use lists::Lists;
pub use row::{FEW_KINDS, Row};
