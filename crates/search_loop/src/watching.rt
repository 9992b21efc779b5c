//! What a theory watches.

ghost use Rattle.std.specs.Prelude.{◌≢◌, ◌++◌, All};
ghost use Rattle.std.specs.List.{AllPairs};
ghost use Rattle.term_core.specs.declared.ids.TermId.{TermId as Number};
ghost use Rattle.proof_log.specs.Theories.{IsTermIn};
ghost use Rattle.search_loop.specs.Loops.{WatchesAll};

use proof_log::Theory;
use sat_budget::Stop;
use term_core::{TermId, TermTable};

/// Lets a theory watch these terms, too.
///
/// After a stop, which is out of memory or the theory's at one of them, it watches those before this one.
pub fn watch_all<T: Theory>(theory: &mut T, table: &TermTable, terms: &[TermId]) -> Result<(), Stop>
    requires terms { All (IsTermIn table.now) terms.now }
    requires once { AllPairs (λ (i j : Number). i ≢ j) ((T.meaning theory.old).view.watched ++ terms.now) }
    requires with { (T.meaning theory.old).goes_with table.now }
    ensures { WatchesAll table.now terms.now (T.meaning theory.old) (T.meaning theory.new) result }
{
    'terms: for id in terms.iter() {
        theory.watch_term(table, *id)?;
    }
    Ok(())
}
