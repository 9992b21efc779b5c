//! Reads the s-expressions of a text, one after the other, and looks into them.
//!
//! An s-expression is kept as a flat list of items in the order of its text, so nothing here recurses on depth, and
//! lists may be nested as deep as they are.
#![tactic(auto)]

mod items;
mod limited;
mod reader;
mod sexpr;
mod shapes;
mod write;

pub use items::{Item, Trees, View, look, split};
pub use limited::{LimitedText, TEXT_LIMIT};
pub use reader::NextSexpr;
pub use sexpr::Sexpr;
pub use shapes::{
    Word, is_keyword, is_reserved, is_simple, is_symbol, is_word, list_first, list_inside, offset,
    passes, same_bytes, tree_alone, want, want_end, want_keyword, word_first,
};
pub use smt_lexer::{Fault, Kind, Place, Refusal, Refused};
pub use write::print;
