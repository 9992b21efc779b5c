//! The truth values, which the theory of equality knows by their numbers.

ghost use Rattle.std.specs.Prelude.{◌≡◌, [], IfOk};
ghost use Rattle.spec_sorts.specs.Terms.{True, False, of};
ghost use Rattle.term_core.specs.Tables.{declared_in, Extends, IsIn, term_at};

use congruence::Truths;
use no_memory::NoMemory;
use std::alloc::Global;
use term_core::{Head, Node, TermTable};

/// Finds the terms `true` and `false`, or puts them.
pub(crate) fn truth_values(alloc: Global, table: &mut TermTable) -> Result<Truths, NoMemory>
    ensures grown { Extends table.old table.new }
    ensures declared { declared_in table.new ≡ declared_in table.old }
    ensures true_there { IfOk result (λ x. IsIn table.new x.true_term) }
    ensures true_is { IfOk result (λ x. term_at table.new x.true_term ≡ of True []) }
    ensures false_there { IfOk result (λ x. IsIn table.new x.false_term) }
    ensures false_is { IfOk result (λ x. term_at table.new x.false_term ≡ of False []) }
{
    let true_term = table.put(Node::new(alloc, Head::True, &[])?)?;
    let false_term = table.put(Node::new(alloc, Head::False, &[])?)?;
    Ok(Truths {
        true_term,
        false_term,
    })
}
