//! How far the derivation of a clause reaches, by its premises.

ghost use Rattle.std.specs.Prelude.{◌≡◌, ◌<◌, ◌^◌, length, map, All};
ghost use Rattle.proof_log.specs.Logs.{premises_in};
ghost use Rattle.proof_log.specs.Entries.{logged_of};
ghost use Rattle.proof_log.specs.Reaches.{past_term, past_from, reach_view, over_from, reach_of};

use crate::entry::LogEntry;
use crate::premises::StepId;
use crate::reach::{Reach, later};
use term_core::TermId;

/// Gives the greatest of terms, or one beside where that is greater.
fn greatest(terms: &[TermId], least: Option<TermId>) -> Option<TermId>
    ensures { past_term result ≡ past_from (past_term least) terms.now }
{
    let mut most = least;
    'terms: for id in terms {
        most = later(most, Some(*id));
    }
    most
}

/// Gives the greatest reach of premises and of one beside.
fn over(reaches: &[Reach], premises: &[StepId], least: Reach) -> Reach
    requires { All (λ p. p.0 < length reaches.now) premises.now }
    ensures { reach_view result ≡ over_from (map reach_view reaches.now) (reach_view least) premises.now }
{
    let mut most = least;
    'premises: for p in premises {
        most = most.join(reaches[p.0 as usize]);
    }
    most
}

/// Gives the reach of the clause of a number, by the reaches of those before it.
pub(crate) fn reach_of_entry(reaches: &[Reach], number: u64, entry: &LogEntry) -> Reach
    requires there { All (λ p. p.0 < length reaches.now) (premises_in (logged_of entry.now)) }
    requires small { number < 2 ^ 63 }
    ensures { reach_view result ≡ reach_of (map reach_view reaches.now) number (logged_of entry.now) }
{
    match entry {
        LogEntry::Assumed(id) => Reach {
            term: Some(*id),
            assumes: number + 1,
        },
        LogEntry::Stepped(step) => {
            let own = Reach {
                term: greatest(step.clause.as_slice(), None),
                assumes: 0,
            };
            over(reaches, step.premises.as_slice(), own)
        }
    }
}
