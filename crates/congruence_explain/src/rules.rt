//! Which rule states a clause.

ghost use Rattle.std.specs.Prelude.{◌≡◌};
ghost use Rattle.congruence_explain.specs.Rules.{path_rule, arguments_rule, value_rule, decided_rule};

use proof_log::Rule;
use term_core::TermId;

/// Gives the rule by which linked terms are equal.
pub(crate) fn rule_of_path(x: TermId, y: TermId) -> Rule
    ensures { result ≡ path_rule x y }
{
    if x.0 == y.0 {
        Rule::EqReflexive
    } else {
        Rule::EqTransitive
    }
}

/// Gives the rule by which terms with equal arguments are equal; without arguments they are one.
pub(crate) fn rule_of_arguments(arguments: &[TermId]) -> Rule
    ensures { result ≡ arguments_rule arguments.now }
{
    if arguments.is_empty() {
        Rule::EqReflexive
    } else {
        Rule::EqCongruent
    }
}

/// Gives the rule that states a truth value.
pub(crate) fn rule_of_value(value: bool) -> Rule
    ensures { result ≡ value_rule value }
{
    if value { Rule::True } else { Rule::False }
}

/// Gives the rule by which a formula is equal to its truth value.
pub(crate) fn rule_of_decided(value: bool) -> Rule
    ensures { result ≡ decided_rule value }
{
    if value {
        Rule::EquivNeg1
    } else {
        Rule::EquivNeg2
    }
}
