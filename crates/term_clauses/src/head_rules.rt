//! The rules that state the clauses of a term, by its head.

ghost use Rattle.term_clauses.specs.Stating.{AreRulesOf};

use proof_log::Rule;
use term_core::Head;

/// Gives the rules without premises that state the clauses of a head, in the order of the table of rules.
pub(crate) fn rules_of(head: Head) -> &'static [Rule]
    ensures { AreRulesOf head result.now }
{
    match head {
        Head::True => &[Rule::True],
        Head::False => &[Rule::False],
        Head::Not => &[Rule::NotNot],
        Head::And => &[Rule::AndPos, Rule::AndNeg],
        Head::Or => &[Rule::OrPos, Rule::OrNeg],
        Head::Implies => &[Rule::ImpliesPos, Rule::ImpliesNeg1, Rule::ImpliesNeg2],
        Head::Equal => &[
            Rule::EquivPos1,
            Rule::EquivPos2,
            Rule::EquivNeg1,
            Rule::EquivNeg2,
        ],
        Head::Xor => &[Rule::XorPos1, Rule::XorPos2, Rule::XorNeg1, Rule::XorNeg2],
        Head::Ite => &[Rule::ItePos1, Rule::ItePos2, Rule::IteNeg1, Rule::IteNeg2],
        Head::Minus | Head::Plus | Head::Times | Head::Divide | Head::Less | Head::AtMost => &[],
        Head::Literal(_) | Head::Apply(_) | Head::Parameter(_, _) => &[],
    }
}
