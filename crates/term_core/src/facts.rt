//! What a table keeps of each term besides its node.

ghost use Rattle.std.specs.Prelude.{◌≡◌, List, [], ◌∷◌, ◌++◌, length};
ghost use Rattle.spec_text.specs.Bytes.{Name};
ghost use Rattle.spec_sorts.specs.Terms.{Symbol, Minus, Divide, of, sort_of};
ghost use Rattle.spec_sorts.specs.Theory.{keeps_constant, is_constant, each_passes, is_divisor, is_zero_divisor};
ghost use Rattle.term_core.specs.Symbols.{HasSortIn, sort_meant};
ghost use Rattle.term_core.specs.Tables.{AreIn, clause_at, IsPlaced, node_term, head_over};
ghost use Rattle.term_core.specs.Facts.{IsFacts, IsLiteralAt, literal_kept};

use crate::ids::{Lit, TermId};
use crate::nodes::{Head, Node};
use crate::sorts::Sort;
use crate::terms::TermTable;

/// Keeps what is asked of a term often, so that each answer is a look-up.
#[derive(Clone, Copy, Debug, PartialEq, Eq)]
pub(crate) struct Facts {
    /// The term's sort.
    pub sort: Sort,
    /// Whether it is a literal, or `-`, `+`, `*`, `/` before constant terms.
    pub constant: bool,
    /// Whether it may be a divisor.
    pub divisor: bool,
    /// Whether it is zero, as a divisor.
    pub zero: bool,
    /// What is left of it without its leading negations.
    pub left: TermId,
    /// Whether the number of those negations is even.
    pub even: bool,
}

/// Gives the facts of the term of a node, where it comes next in the table.
pub(crate) fn facts_of(table: &TermTable, node: &Node) -> Facts
    requires { IsPlaced table.now node.now }
    ensures facts { IsFacts table.now.sorts (node_term table.now node.now) result }
    ensures literal { IsLiteralAt (table.now.terms ++ node_term table.now node.now ∷ []) (length table.now.terms)
        (literal_kept result) }
{
    let literal = literal_of(table, node);
    Facts {
        sort: sort_of(table, node),
        constant: is_constant(table, node),
        divisor: is_divisor(table, node),
        zero: is_zero_divisor(table, node),
        left: literal.term,
        even: literal.positive,
    }
}

/// Takes the negations off a node's term, which has the next number of the table.
fn literal_of(table: &TermTable, node: &Node) -> Lit
    requires { IsPlaced table.now node.now }
    ensures { IsLiteralAt (table.now.terms ++ node_term table.now node.now ∷ []) (length table.now.terms) result }
{
    match node.head {
        Head::Not => {
            let inner = table.literal(node.arguments.as_slice()[0]);
            Lit {
                term: inner.term,
                positive: !inner.positive,
            }
        }
        _ => Lit {
            term: TermId(table.len()),
            positive: true,
        },
    }
}

/// Says the sort of a node's term.
fn sort_of(table: &TermTable, node: &Node) -> Sort
    requires { IsPlaced table.now node.now }
    ensures means { sort_meant table.now.sorts result ≡ sort_of (node_term table.now node.now) }
    ensures there { HasSortIn table.now.sorts result }
{
    match node.head {
        Head::Ite => table.sort(node.arguments.as_slice()[1]),
        Head::Minus => Sort::Real,
        Head::Plus => Sort::Real,
        Head::Times => Sort::Real,
        Head::Divide => Sort::Real,
        Head::Literal(_) => Sort::Real,
        Head::Apply(symbol) => table.symbols().result(symbol),
        Head::Parameter(_, sort) => sort,
        _ => Sort::Bool,
    }
}

/// Tells whether a node's term is constant.
fn is_constant(table: &TermTable, node: &Node) -> bool
    requires { IsPlaced table.now node.now }
    ensures { result ≡ is_constant (node_term table.now node.now) }
{
    let arguments = node.arguments.as_slice();
    if !keeps_constant(node.head) {
        return false;
    }
    are_constant(table, arguments)
}

/// Tells whether the head's terms are constant where their arguments are.
fn keeps_constant(head: Head) -> bool
    ensures { (sorts : List Name) (symbols : List Symbol) → result ≡ keeps_constant (head_over sorts symbols head) }
{
    match head {
        Head::Minus => true,
        Head::Plus => true,
        Head::Times => true,
        Head::Divide => true,
        Head::Literal(_) => true,
        _ => false,
    }
}

/// Tells whether each term is constant.
fn are_constant(table: &TermTable, ids: &[TermId]) -> bool
    requires { AreIn table.now ids.now }
    ensures { result ≡ each_passes is_constant (clause_at table.now ids.now) }
{
    'terms: for id in ids.iter() {
        if !table.is_constant(*id) {
            return false;
        }
    }
    true
}

/// Tells whether a node's term may be a divisor.
fn is_divisor(table: &TermTable, node: &Node) -> bool
    requires { IsPlaced table.now node.now }
    ensures { result ≡ is_divisor (node_term table.now node.now) }
{
    match node.head {
        Head::Literal(_) => true,
        Head::Minus => is_negative_divisor(table, node.arguments.as_slice()),
        Head::Divide => is_quotient_divisor(table, node.arguments.as_slice()),
        _ => false,
    }
}

/// Tells whether there is one term, which may be a divisor.
#[tactic(auto, unfolding(spec_sorts::specs::Theory::is_divisor))]
fn is_negative_divisor(table: &TermTable, ids: &[TermId]) -> bool
    requires { AreIn table.now ids.now }
    ensures { result ≡ is_divisor (of Minus (clause_at table.now ids.now)) }
{
    match ids {
        [d] => table.is_divisor(*d),
        _ => false,
    }
}

/// Tells whether there are two terms, which may both be divisors.
#[tactic(auto, unfolding(spec_sorts::specs::Theory::is_divisor))]
fn is_quotient_divisor(table: &TermTable, ids: &[TermId]) -> bool
    requires { AreIn table.now ids.now }
    ensures { result ≡ is_divisor (of Divide (clause_at table.now ids.now)) }
{
    match ids {
        [d, e] => table.is_divisor(*d) && table.is_divisor(*e),
        _ => false,
    }
}

/// Tells whether a node's term is zero, as a divisor.
fn is_zero_divisor(table: &TermTable, node: &Node) -> bool
    requires { IsPlaced table.now node.now }
    ensures { result ≡ is_zero_divisor (node_term table.now node.now) }
{
    match node.head {
        Head::Literal(number) => number.is_zero(),
        Head::Minus => is_first_zero(table, node.arguments.as_slice()),
        Head::Divide => is_first_zero(table, node.arguments.as_slice()),
        _ => false,
    }
}

/// Tells whether the first term, if there is one, is zero as a divisor.
#[tactic(auto, unfolding(spec_sorts::specs::Theory::is_zero_divisor))]
fn is_first_zero(table: &TermTable, ids: &[TermId]) -> bool
    requires { AreIn table.now ids.now }
    ensures negative { result ≡ is_zero_divisor (of Minus (clause_at table.now ids.now)) }
    ensures quotient { result ≡ is_zero_divisor (of Divide (clause_at table.now ids.now)) }
{
    match ids {
        [d, ..] => table.is_zero_divisor(*d),
        _ => false,
    }
}
