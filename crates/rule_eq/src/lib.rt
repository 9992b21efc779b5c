//! Rules of Alethe on equality and functions, over clauses of the table of terms.
//!
//! There is a call for each rule, and `judge_equality` judges by the rule that is named. Premises and clause give their terms by their numbers in the table, which has each term once, so
//! that terms are compared by their numbers. `RuleFails` comes exactly where the step is not right. No rule takes memory, and where
//! a rule's comment says nothing of time, it takes the same time for all terms.
#![tactic(auto)]

mod by_rule;
mod choices;
mod endings;
mod identities;
mod joined;
mod literal_rules;
mod premise_rules;
mod reasons;
mod sides;

pub use by_rule::judge_equality;
pub use choices::{rule_x_ite_else, rule_x_ite_then};
pub use identities::{rule_distinct_elim, rule_eq_reflexive, rule_refl};
pub use literal_rules::{rule_eq_congruent, rule_eq_congruent_pred, rule_eq_transitive};
pub use premise_rules::{rule_cong, rule_symm, rule_trans};
