//! Definitions about proofs that are below terms: the names of rules, resolution, the texts of proofs, and faults.
#![tactic(auto)]

ghost use Rattle.std.specs.Prelude.{◌≡◌};
ghost use Rattle.spec_proofs.specs.Faults.{fault_name, fault_number};

use spec_text::Fault;

pub mod laws;
mod rule_names;

/// Names a rule by which a step follows from earlier clauses. Which steps it takes says the table `kind_of` of
/// `spec_rules`. Source: Alethe specification, rules.
#[derive(Clone, Copy, Debug, PartialEq, Eq)]
pub enum Rule {
    /// `or`: a disjunction is opened into its arguments.
    Or,
    /// `contraction`: literals that occur twice are left out.
    Contraction,
    /// `reordering`: literals come in another order.
    Reordering,
    /// `weakening`: literals are added.
    Weakening,
    /// `resolution`: the clause follows from the premises by unit propagation, whatever their order.
    Resolution,
    /// `th_resolution`: the same, as solvers of theories write it.
    ThResolution,
    /// `true`: `true` is true.
    True,
    /// `false`: `false` is not.
    False,
    /// `and_pos`: a conjunction has each of its arguments.
    AndPos,
    /// `and_neg`: its arguments make a conjunction.
    AndNeg,
    /// `or_pos`: a disjunction has one of its arguments.
    OrPos,
    /// `or_neg`: each of its arguments makes a disjunction.
    OrNeg,
    /// `implies_pos`: an implication leads from its first argument to its second.
    ImpliesPos,
    /// `implies_neg1`: an implication holds, or its first argument does.
    ImpliesNeg1,
    /// `implies_neg2`: an implication holds, or its second argument does not.
    ImpliesNeg2,
    /// `equiv_pos1`: an equality leads from its second argument to its first.
    EquivPos1,
    /// `equiv_pos2`: an equality leads from its first argument to its second.
    EquivPos2,
    /// `equiv_neg1`: arguments that both hold are equal.
    EquivNeg1,
    /// `equiv_neg2`: arguments neither of which holds are equal.
    EquivNeg2,
    /// `xor_pos1`: of an exclusive disjunction one argument holds.
    XorPos1,
    /// `xor_pos2`: of an exclusive disjunction one argument does not hold.
    XorPos2,
    /// `xor_neg1`: an exclusive disjunction holds where its second argument alone does.
    XorNeg1,
    /// `xor_neg2`: an exclusive disjunction holds where its first argument alone does.
    XorNeg2,
    /// `ite_pos1`: a choice has its third argument where its first does not hold.
    ItePos1,
    /// `ite_pos2`: a choice has its second argument where its first holds.
    ItePos2,
    /// `ite_neg1`: a choice holds where its third argument does and its first does not.
    IteNeg1,
    /// `ite_neg2`: a choice holds where its first argument does and its second.
    IteNeg2,
    /// `not_not`: three negations are one.
    NotNot,
    /// `and`: `and_pos`, with the first term as the premise.
    And,
    /// `not_and`: `and_neg`, with the first term as the premise.
    NotAnd,
    /// `not_or`: `or_neg`, with the first term as the premise.
    NotOr,
    /// `implies`: `implies_pos`, with the first term as the premise.
    Implies,
    /// `not_implies1`: `implies_neg1`, with the first term as the premise.
    NotImplies1,
    /// `not_implies2`: `implies_neg2`, with the first term as the premise.
    NotImplies2,
    /// `equiv1`: `equiv_pos2`, with the first term as the premise.
    Equiv1,
    /// `equiv2`: `equiv_pos1`, with the first term as the premise.
    Equiv2,
    /// `not_equiv1`: `equiv_neg2`, with the first term as the premise.
    NotEquiv1,
    /// `not_equiv2`: `equiv_neg1`, with the first term as the premise.
    NotEquiv2,
    /// `xor1`: `xor_pos1`, with the first term as the premise.
    Xor1,
    /// `xor2`: `xor_pos2`, with the first term as the premise.
    Xor2,
    /// `not_xor1`: `xor_neg1`, with the first term as the premise.
    NotXor1,
    /// `not_xor2`: `xor_neg2`, with the first term as the premise.
    NotXor2,
    /// `ite1`: `ite_pos1`, with the first term as the premise.
    Ite1,
    /// `ite2`: `ite_pos2`, with the first term as the premise.
    Ite2,
    /// `not_ite1`: `ite_neg1`, with the first term as the premise.
    NotIte1,
    /// `not_ite2`: `ite_neg2`, with the first term as the premise.
    NotIte2,
    /// `eq_reflexive`: a term is equal to itself.
    EqReflexive,
    /// `eq_transitive`: negated equalities that lead from one term to another, or these two are equal.
    EqTransitive,
    /// `eq_congruent`: negated equalities of arguments, or a function has one value at them.
    EqCongruent,
    /// `eq_congruent_pred`: the same where that value is a truth value.
    EqCongruentPred,
    /// `refl`: a term is equal to itself.
    Refl,
    /// `symm`: an equality holds in the other direction.
    Symm,
    /// `trans`: equalities lead from one term to another.
    Trans,
    /// `cong`: a function has one value at arguments that are equal.
    Cong,
    /// `distinct_elim`: `distinct` is what it is read as.
    DistinctElim,
    /// `x_ite_then`: the condition does not hold, or the choice is its first branch.
    IteThen,
    /// `x_ite_else`: the condition holds, or the choice is its second branch.
    IteElse,
    /// `la_generic`: the negations of the literals, multiplied by the arguments and added, cannot hold.
    LaGeneric,
    /// `la_disequality`: numbers are equal, or one of them is not at most the other.
    LaDisequality,
    /// `la_totality`: one of two numbers is at most the other.
    LaTotality,
}

/// Names a literal by an argument of a term: the argument as it is, or its negation.
#[derive(Clone, Copy, Debug, PartialEq, Eq)]
pub struct ArgumentLiteral {
    /// The place of the argument, from 0.
    pub place: usize,
    /// Whether the argument is meant as it is.
    pub positive: bool,
}

/// Says which literals come after a term in a clause that a rule gives without premises, by the term's arguments.
/// Source: Alethe specification, rules; to say it so is own.
#[derive(Clone, Copy, Debug, PartialEq, Eq)]
pub enum Rest {
    /// None.
    Nothing,
    /// This one.
    One(ArgumentLiteral),
    /// These two, in this order.
    Two(ArgumentLiteral, ArgumentLiteral),
    /// One of the arguments, any: as it is where that is true, else its negation.
    AnyOne(bool),
    /// Each of the arguments, in their order: as they are where that is true, else their negations.
    Each(bool),
    /// What the one argument, a negation, negates.
    Innermost,
}

/// Tells why a proof is not accepted: P1 to P11. Of several faults the first in the text counts, but for
/// `NoSuchCheck`, which counts before all others, and `NoEmptyClause`, which counts after all others.
#[derive(Clone, Copy, Debug, PartialEq, Eq)]
pub enum ProofKind {
    /// P1: the text cannot be read on, by a fault E1 to E7: at the fault's place.
    Lexical(Fault),
    /// P2: a command or a term of another form than is wanted: at its opening parenthesis, or the atom.
    BadShape,
    /// P3: an assume's or a step's name that an earlier one has, or a defined name that is a theory's, declared, or defined
    /// before: at the name.
    TwiceName,
    /// P4: a premise that no earlier command has for its name: at the premise.
    UnknownPremise,
    /// P5: a rule that is not known: at its name.
    UnknownRule,
    /// P6: a term is assumed that is no current assertion: at the term.
    NotAsserted,
    /// P7: a step's clause does not follow by its rule from its premises: at the step's opening parenthesis.
    RuleFails,
    /// P8: all commands are right, but no clause is empty: at the end of the proof.
    NoEmptyClause,
    /// P9: an operation by which a step is tested leaves the bound on numbers: at the step's opening parenthesis.
    Wide,
    /// P10: a term or a sort that cannot be read, a reserved word for a defined name, or terms or names without room, by a
    /// fault E10 to E18 or E24: at the fault's place.
    Term(Fault),
    /// P11: the script ends before that check: at the proof's first byte.
    NoSuchCheck,
}

impl ProofKind {
    /// Gives the name that is printed: the variant's, or that of the fault of reading.
    pub fn name(self) -> &'static str
        ensures { result.now ≡ fault_name self }
    {
        match self {
            ProofKind::Lexical(fault) => fault.name(),
            ProofKind::BadShape => "BadShape",
            ProofKind::TwiceName => "TwiceName",
            ProofKind::UnknownPremise => "UnknownPremise",
            ProofKind::UnknownRule => "UnknownRule",
            ProofKind::NotAsserted => "NotAsserted",
            ProofKind::RuleFails => "RuleFails",
            ProofKind::NoEmptyClause => "NoEmptyClause",
            ProofKind::Wide => "Wide",
            ProofKind::Term(fault) => fault.name(),
            ProofKind::NoSuchCheck => "NoSuchCheck",
        }
    }

    /// Gives the number of the fault, from 1 to 11.
    pub fn number(self) -> u8
        ensures { result ≡ fault_number self }
    {
        match self {
            ProofKind::Lexical(_) => 1,
            ProofKind::BadShape => 2,
            ProofKind::TwiceName => 3,
            ProofKind::UnknownPremise => 4,
            ProofKind::UnknownRule => 5,
            ProofKind::NotAsserted => 6,
            ProofKind::RuleFails => 7,
            ProofKind::NoEmptyClause => 8,
            ProofKind::Wide => 9,
            ProofKind::Term(_) => 10,
            ProofKind::NoSuchCheck => 11,
        }
    }
}
