//! Why two terms are linked: the path of labelled edges between them, in a forest that goes back to a mark.
//!
//! A proof forest. Edges are in their order, and none is turned round. Each puts the root of its first term under the root of its
//! second: one place is written. Going back writes the same place again, and takes no memory.
#![tactic(auto)]

mod arrays;
mod climb;
mod explain;
mod forest;
mod laws;
mod types;

pub use forest::Forest;
pub use laws::{
    an_edge_links_what_it_is_between, older_edges_give_the_path, older_edges_keep_their_numbers,
};
pub use term_core::{Lit, TermId};
pub use types::{Edge, Label, PathStep};
