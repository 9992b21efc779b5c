//! Why literals are not explained.

use ratio128::Wide;
use thiserror::Error;

/// Says why literals that cannot all hold are not explained.
#[derive(Clone, Copy, Debug, PartialEq, Eq, Error)]
pub enum ExplainStop {
    /// The first operation of the rule `la_generic` that leaves the bound on numbers.
    #[error("an operation leaves the bound on numbers")]
    Wide(Wide),
    /// Memory ran out, which says nothing of the literals.
    #[error("out of memory")]
    Memory,
}
