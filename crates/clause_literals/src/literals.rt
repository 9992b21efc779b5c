//! Literals, what their signs say, and those of clauses.

ghost use Rattle.std.specs.Prelude.{◌≡◌, ◌≢◌, IfOk, MatchBool};
ghost use Rattle.term_core.specs.Tables.{AreIn, clause_at};
ghost use Rattle.clause_literals.specs.Literals.{lit_complement, LiteralsMean};

use std::alloc::{AllocError, Global};
use term_core::{Lit, TermId, TermTable};

/// Gives the literal with the other sign.
pub fn negated(l: Lit) -> Lit
    ensures { result ≡ lit_complement l }
{
    Lit {
        term: l.term,
        positive: !l.positive,
    }
}

/// Tells whether two literals are one.
pub fn same(a: Lit, b: Lit) -> bool
    ensures { MatchBool result (a ≡ b) (a ≢ b) }
{
    a == b
}

/// Gives the literal of each term of a clause, in their order: the term without its leading negations, with the parity of their
/// number.
///
/// `AllocError` comes where the list finds no memory. Source: Alethe specification, the rule `resolution`.
pub fn literals_of(
    alloc: Global,
    table: &TermTable,
    clause: &[TermId],
) -> Result<Vec<Lit>, AllocError>
    requires { AreIn table.now clause.now }
    ensures { IfOk result (λ v. LiteralsMean table.now v.items (clause_at table.now clause.now)) }
{
    let mut literals = Vec::new(alloc);
    for id in clause {
        literals.push(table.literal(*id))?;
    }
    Ok(literals)
}
