//! Rules of Alethe on clauses of the table of terms of every sort.
//!
//! There is a call for each rule, and `judge` judges by the rule that is named, with what the texts of the step's arguments write. Of the
//! rules of equality and functions the calls are those of `rule_eq`, and of arithmetic what is counted is in `linear_form`. Premises
//! and clause give their terms by their numbers in the table, and terms are compared as they are read. `RuleFails` comes exactly where the
//! step is not right. But for resolution and `la_generic` no rule takes memory, and where a rule's comment says nothing of time, it takes
//! the same time for all terms.
//!
//! Which clauses a rule states of a term says one table, `scheme_of`: the term has the scheme's head before arguments of sort Bool. By
//! the same schemes go the rules that turn the first term into a premise. `resolution` makes literals of the terms, over which `resolves`
//! of `clause_literals` propagates units.
#![tactic(auto)]

mod and_or_rules;
mod arguments;
mod arithmetic_rules;
mod by_rule;
mod equiv_rules;
mod implies_rules;
mod ite_rules;
mod resolvent;
mod rests;
mod rule_stop;
mod rules;
mod scheme_table;
mod schemes;
mod truth_rules;
mod within;
mod xor_rules;

pub use and_or_rules::{
    rule_and, rule_and_neg, rule_and_pos, rule_not_and, rule_not_or, rule_or_neg, rule_or_pos,
};
pub use arguments::written_numbers;
pub use arithmetic_rules::{rule_la_disequality, rule_la_generic, rule_la_totality};
pub use by_rule::judge;
pub use equiv_rules::{
    rule_equiv_neg1, rule_equiv_neg2, rule_equiv_pos1, rule_equiv_pos2, rule_equiv1, rule_equiv2,
    rule_not_equiv1, rule_not_equiv2,
};
pub use implies_rules::{
    rule_implies, rule_implies_neg1, rule_implies_neg2, rule_implies_pos, rule_not_implies1,
    rule_not_implies2,
};
pub use ite_rules::{
    rule_ite_neg1, rule_ite_neg2, rule_ite_pos1, rule_ite_pos2, rule_ite1, rule_ite2,
    rule_not_ite1, rule_not_ite2,
};
pub use resolvent::resolution;
pub use rule_stop::RuleStop;
pub use rules::{rule_contraction, rule_or, rule_reordering, rule_weakening};
pub use scheme_table::{Scheme, scheme_of};
pub use schemes::are_formulas;
pub use term_core::TermId;
pub use truth_rules::{rule_false, rule_not_not, rule_true};
pub use xor_rules::{
    rule_not_xor1, rule_not_xor2, rule_xor_neg1, rule_xor_neg2, rule_xor_pos1, rule_xor_pos2,
    rule_xor1, rule_xor2,
};
