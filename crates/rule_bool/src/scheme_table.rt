//! The schemes of the rules: which clauses a term gives, by its head and its arguments; and which rules are of equality.

ghost use Rattle.std.specs.Prelude.{MatchOption};
ghost use Rattle.rule_bool.specs.Schemes.{StatesNothing, StatesScheme, TurnsNothing, Turns, EquatesNothing, Equates};

use spec_equality::EqualityRule;
use spec_proofs::{ArgumentLiteral, Rest, Rule};
use term_core::Head;

/// Says which clauses a term gives: its head, how it comes first, and what is after it. The term's arguments have the sort Bool.
///
/// Source: Alethe specification, rules.
#[derive(Clone, Copy, Debug, PartialEq, Eq)]
pub struct Scheme {
    /// The head of the first term.
    pub head: Head,
    /// Whether the first term is meant as it is, and not negated.
    pub positive: bool,
    /// The literals after it, by its arguments.
    pub rest: Rest,
}

/// The first argument as it is.
const FIRST: ArgumentLiteral = ArgumentLiteral {
    place: 0,
    positive: true,
};

/// The negation of the first argument.
const NOT_FIRST: ArgumentLiteral = ArgumentLiteral {
    place: 0,
    positive: false,
};

/// The second argument as it is.
const SECOND: ArgumentLiteral = ArgumentLiteral {
    place: 1,
    positive: true,
};

/// The negation of the second argument.
const NOT_SECOND: ArgumentLiteral = ArgumentLiteral {
    place: 1,
    positive: false,
};

/// The third argument as it is.
const THIRD: ArgumentLiteral = ArgumentLiteral {
    place: 2,
    positive: true,
};

/// The negation of the third argument.
const NOT_THIRD: ArgumentLiteral = ArgumentLiteral {
    place: 2,
    positive: false,
};

/// `(cl true)`.
const TRUE: Scheme = Scheme {
    head: Head::True,
    positive: true,
    rest: Rest::Nothing,
};

/// `(cl (not false))`.
const FALSE: Scheme = Scheme {
    head: Head::False,
    positive: false,
    rest: Rest::Nothing,
};

/// `(cl (not (and a1 .. an)) ak)`.
const AND_POS: Scheme = Scheme {
    head: Head::And,
    positive: false,
    rest: Rest::AnyOne(true),
};

/// `(cl (and a1 .. an) (not a1) .. (not an))`.
const AND_NEG: Scheme = Scheme {
    head: Head::And,
    positive: true,
    rest: Rest::Each(false),
};

/// `(cl (not (or a1 .. an)) a1 .. an)`.
const OR_POS: Scheme = Scheme {
    head: Head::Or,
    positive: false,
    rest: Rest::Each(true),
};

/// `(cl (or a1 .. an) (not ak))`.
const OR_NEG: Scheme = Scheme {
    head: Head::Or,
    positive: true,
    rest: Rest::AnyOne(false),
};

/// `(cl (not (=> a b)) (not a) b)`.
const IMPLIES_POS: Scheme = Scheme {
    head: Head::Implies,
    positive: false,
    rest: Rest::Two(NOT_FIRST, SECOND),
};

/// `(cl (=> a b) a)`.
const IMPLIES_NEG1: Scheme = Scheme {
    head: Head::Implies,
    positive: true,
    rest: Rest::One(FIRST),
};

/// `(cl (=> a b) (not b))`.
const IMPLIES_NEG2: Scheme = Scheme {
    head: Head::Implies,
    positive: true,
    rest: Rest::One(NOT_SECOND),
};

/// `(cl (not (= a b)) a (not b))`.
const EQUIV_POS1: Scheme = Scheme {
    head: Head::Equal,
    positive: false,
    rest: Rest::Two(FIRST, NOT_SECOND),
};

/// `(cl (not (= a b)) (not a) b)`.
const EQUIV_POS2: Scheme = Scheme {
    head: Head::Equal,
    positive: false,
    rest: Rest::Two(NOT_FIRST, SECOND),
};

/// `(cl (= a b) (not a) (not b))`.
const EQUIV_NEG1: Scheme = Scheme {
    head: Head::Equal,
    positive: true,
    rest: Rest::Two(NOT_FIRST, NOT_SECOND),
};

/// `(cl (= a b) a b)`.
const EQUIV_NEG2: Scheme = Scheme {
    head: Head::Equal,
    positive: true,
    rest: Rest::Two(FIRST, SECOND),
};

/// `(cl (not (xor a b)) a b)`.
const XOR_POS1: Scheme = Scheme {
    head: Head::Xor,
    positive: false,
    rest: Rest::Two(FIRST, SECOND),
};

/// `(cl (not (xor a b)) (not a) (not b))`.
const XOR_POS2: Scheme = Scheme {
    head: Head::Xor,
    positive: false,
    rest: Rest::Two(NOT_FIRST, NOT_SECOND),
};

/// `(cl (xor a b) a (not b))`.
const XOR_NEG1: Scheme = Scheme {
    head: Head::Xor,
    positive: true,
    rest: Rest::Two(FIRST, NOT_SECOND),
};

/// `(cl (xor a b) (not a) b)`.
const XOR_NEG2: Scheme = Scheme {
    head: Head::Xor,
    positive: true,
    rest: Rest::Two(NOT_FIRST, SECOND),
};

/// `(cl (not (ite c a b)) c b)`.
const ITE_POS1: Scheme = Scheme {
    head: Head::Ite,
    positive: false,
    rest: Rest::Two(FIRST, THIRD),
};

/// `(cl (not (ite c a b)) (not c) a)`.
const ITE_POS2: Scheme = Scheme {
    head: Head::Ite,
    positive: false,
    rest: Rest::Two(NOT_FIRST, SECOND),
};

/// `(cl (ite c a b) c (not b))`.
const ITE_NEG1: Scheme = Scheme {
    head: Head::Ite,
    positive: true,
    rest: Rest::Two(FIRST, NOT_THIRD),
};

/// `(cl (ite c a b) (not c) (not a))`.
const ITE_NEG2: Scheme = Scheme {
    head: Head::Ite,
    positive: true,
    rest: Rest::Two(NOT_FIRST, NOT_SECOND),
};

/// `(cl (not (not (not a))) a)`.
const NOT_NOT: Scheme = Scheme {
    head: Head::Not,
    positive: false,
    rest: Rest::Innermost,
};

/// Gives the scheme of which a rule states the clauses, without premises; nothing where the rule states none.
pub fn scheme_of(rule: Rule) -> Option<Scheme>
    ensures { MatchOption result (StatesNothing rule) (StatesScheme rule) }
{
    match rule {
        Rule::True => Some(TRUE),
        Rule::False => Some(FALSE),
        Rule::AndPos => Some(AND_POS),
        Rule::AndNeg => Some(AND_NEG),
        Rule::OrPos => Some(OR_POS),
        Rule::OrNeg => Some(OR_NEG),
        Rule::ImpliesPos => Some(IMPLIES_POS),
        Rule::ImpliesNeg1 => Some(IMPLIES_NEG1),
        Rule::ImpliesNeg2 => Some(IMPLIES_NEG2),
        Rule::EquivPos1 => Some(EQUIV_POS1),
        Rule::EquivPos2 => Some(EQUIV_POS2),
        Rule::EquivNeg1 => Some(EQUIV_NEG1),
        Rule::EquivNeg2 => Some(EQUIV_NEG2),
        Rule::XorPos1 => Some(XOR_POS1),
        Rule::XorPos2 => Some(XOR_POS2),
        Rule::XorNeg1 => Some(XOR_NEG1),
        Rule::XorNeg2 => Some(XOR_NEG2),
        Rule::ItePos1 => Some(ITE_POS1),
        Rule::ItePos2 => Some(ITE_POS2),
        Rule::IteNeg1 => Some(ITE_NEG1),
        Rule::IteNeg2 => Some(ITE_NEG2),
        Rule::NotNot => Some(NOT_NOT),
        _ => None,
    }
}

/// Gives the scheme of which a rule turns the first term into its premise; nothing where the rule turns none.
pub(crate) fn turned_scheme_of(rule: Rule) -> Option<Scheme>
    ensures { MatchOption result (TurnsNothing rule) (Turns rule) }
{
    match rule {
        Rule::And => Some(AND_POS),
        Rule::NotAnd => Some(AND_NEG),
        Rule::NotOr => Some(OR_NEG),
        Rule::Implies => Some(IMPLIES_POS),
        Rule::NotImplies1 => Some(IMPLIES_NEG1),
        Rule::NotImplies2 => Some(IMPLIES_NEG2),
        Rule::Equiv1 => Some(EQUIV_POS2),
        Rule::Equiv2 => Some(EQUIV_POS1),
        Rule::NotEquiv1 => Some(EQUIV_NEG2),
        Rule::NotEquiv2 => Some(EQUIV_NEG1),
        Rule::Xor1 => Some(XOR_POS1),
        Rule::Xor2 => Some(XOR_POS2),
        Rule::NotXor1 => Some(XOR_NEG1),
        Rule::NotXor2 => Some(XOR_NEG2),
        Rule::Ite1 => Some(ITE_POS1),
        Rule::Ite2 => Some(ITE_POS2),
        Rule::NotIte1 => Some(ITE_NEG1),
        Rule::NotIte2 => Some(ITE_NEG2),
        _ => None,
    }
}

/// Gives the rule of equality and functions that a rule is; nothing where it is none.
pub(crate) fn equality_of(rule: Rule) -> Option<EqualityRule>
    ensures { MatchOption result (EquatesNothing rule) (Equates rule) }
{
    match rule {
        Rule::EqReflexive => Some(EqualityRule::EqReflexive),
        Rule::EqTransitive => Some(EqualityRule::EqTransitive),
        Rule::EqCongruent => Some(EqualityRule::EqCongruent),
        Rule::EqCongruentPred => Some(EqualityRule::EqCongruentPred),
        Rule::Refl => Some(EqualityRule::Refl),
        Rule::Symm => Some(EqualityRule::Symm),
        Rule::Trans => Some(EqualityRule::Trans),
        Rule::Cong => Some(EqualityRule::Cong),
        Rule::DistinctElim => Some(EqualityRule::DistinctElim),
        Rule::IteThen => Some(EqualityRule::IteThen),
        Rule::IteElse => Some(EqualityRule::IteElse),
        _ => None,
    }
}
