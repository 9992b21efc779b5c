//! Rows of linear equations in solved form, with exact 128-bit fractions, and the pivot of two variables.
#![tactic(auto)]

mod columns;
mod entries;
mod flattening;
pub mod numbers;
mod pivots;
mod stops;
mod sums;
mod table;

pub use entries::{Entry, Row, coefficient};
pub use ratio128::{Ratio, Wide};
pub use stops::RowStop;
pub use table::Tableau;
