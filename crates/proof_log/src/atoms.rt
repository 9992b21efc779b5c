//! Which terms literals are of.

ghost use Rattle.std.specs.Prelude.{◌≡◌, ◌↔◌, true};
ghost use Rattle.proof_log.specs.Theories.{IsTermIn, IsAtomIn};

use term_core::{Lit, Sort, TermId, TermTable};

/// Tells whether a term is an atom: of sort Bool, and no negation. It takes no memory.
pub fn is_atom(table: &TermTable, id: TermId) -> bool
    requires { IsTermIn table.now id }
    ensures { (result ≡ true) ↔ IsAtomIn table.now id }
{
    table.ids_are_unique();
    let own = Lit {
        term: id,
        positive: true,
    };
    table.sort(id) == Sort::Bool && table.literal(id) == own
}
