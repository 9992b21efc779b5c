//! Definitions about linear real arithmetic: ordered linear forms of terms, the arguments of `la_generic`, weighted sums of
//! negated literals that cannot hold, and the rules.
//!
//! Only the names of the rules are code. The functions with empty bodies are laws: what they ensure is proved of the definitions in
//! `specs/`.
#![tactic(auto)]

pub mod laws;
mod rule_names;

/// Names a rule of linear arithmetic by which a step follows. Which steps it takes says `IsArithmetic`.
/// Source: Alethe specification, rules of linear arithmetic.
#[derive(Clone, Copy, Debug, PartialEq, Eq)]
pub enum ArithmeticRule {
    /// `la_generic`: the negations of the literals, multiplied by the arguments and added, cannot hold.
    LaGeneric,
    /// `la_disequality`: numbers are equal, or one of them is not at most the other.
    LaDisequality,
    /// `la_totality`: one of two numbers is at most the other.
    LaTotality,
}
