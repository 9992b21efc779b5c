//! Definitions about equality and functions: what held literals make equal, which steps of proofs the rules take, and that both keep
//! truth.
//!
//! Only the names of the rules are code. The functions with empty bodies are laws and examples: what they ensure is proved of the definitions in
//! `specs/`.
#![tactic(auto)]

pub mod congruence_examples;
pub mod congruence_laws;
pub mod examples;
pub mod laws;
mod rule_names;

/// Names a rule of equality and functions by which a step follows. Which steps it takes says `IsEquating`. A reason is an
/// equality that may be in either direction. Source: Alethe specification, rules; the two of `ite` are own.
#[derive(Clone, Copy, Debug, PartialEq, Eq)]
pub enum EqualityRule {
    /// `eq_reflexive`: a term is equal to itself.
    EqReflexive,
    /// `eq_transitive`: negated equalities that lead from one term to another, or these two are equal.
    EqTransitive,
    /// `eq_congruent`: negated equalities of arguments, or a function has one value at them.
    EqCongruent,
    /// `eq_congruent_pred`: the same where that value is a truth value.
    EqCongruentPred,
    /// `refl`: a term is equal to itself.
    Refl,
    /// `symm`: an equality holds in the other direction.
    Symm,
    /// `trans`: equalities lead from one term to another.
    Trans,
    /// `cong`: a function has one value at arguments that are equal.
    Cong,
    /// `distinct_elim`: `distinct` is what it is read as.
    DistinctElim,
    /// `x_ite_then`: the condition does not hold, or the choice is its first branch.
    IteThen,
    /// `x_ite_else`: the condition holds, or the choice is its second branch.
    IteElse,
}
