//! The slack variable of an atom.

use ratio128::Ratio;

/// Says how an atom compares its form with 0.
#[derive(Clone, Copy, Debug, PartialEq, Eq)]
pub enum Comparison {
    /// It is below 0.
    Less,
    /// It is at most 0.
    AtMost,
    /// It is 0.
    Equal,
}

/// Says what an atom bounds: its form, the left side minus the right one, is `factor * variable + constant`.
#[derive(Clone, Copy, Debug, PartialEq, Eq)]
pub struct Slack {
    /// How the form is compared with 0.
    pub kind: Comparison,
    /// The number of the variable, from 0.
    pub variable: u64,
    /// The factor, which is not 0.
    pub factor: Ratio,
    /// The constant.
    pub constant: Ratio,
    /// The value of the variable at which the form is 0: minus the constant, over the factor.
    pub bound: Ratio,
}
