//! Reads the parts of sorts and terms of the whole language into the table of terms, or says their first fault.
//!
//! What a list is says its shape alone (`ListForm`). What names stand for says a `Scope`, by hash. Nothing here recurses: a
//! loop goes along the items of a list.
#![tactic(auto)]

mod attributes;
mod building;
mod chains;
mod comparing;
mod faults;
mod forms;
mod heads;
mod literals;
mod name_stack;
mod names;
mod scope;
mod sorts;
mod symbols;

pub use attributes::{NextAttribute, are_attributes, next_after};
pub use building::{Binary, Link, conjoin, put, put_link, put_negated, put_pair};
pub use chains::{neighbour_pairs, pairs_of_all, put_chain, put_left, put_right};
pub use comparing::{all_have, are_alike, have_sorts};
pub use faults::{ReadError, TermFault, fault_at};
pub use forms::{ListForm, binding, is_name, list_form};
pub use heads::by_rule;
pub use literals::literal;
pub use name_stack::NameStack;
pub use names::{Setting, is_barred, is_kept_name, new_name};
pub use scope::{Function, Macro, Scope};
pub use sorts::sort_in;
pub use symbols::{by_bound, by_symbol};
