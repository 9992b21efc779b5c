//! Definitions about models and other responses: the texts of values, of tables and of models, the values of such texts,
//! and the lines of errors, words and reasons.
//!
//! Nothing here runs. The functions with empty bodies are laws: what they ensure is proved of the definitions in
//! `specs/`.
#![tactic(auto)]

pub mod laws;

/// A response that is one word. Source: SMT-LIB 2.6, sections 3.9 and 4.1.8.
#[derive(Clone, Copy, Debug, PartialEq, Eq)]
pub enum ResponseWord {
    /// The command was performed.
    Success,
    /// The option or the information is not known.
    Unsupported,
    /// The assertions can be true together.
    Sat,
    /// They cannot.
    Unsat,
    /// Whether they can was not found out.
    Unknown,
}
