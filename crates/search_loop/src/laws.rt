//! Laws of searches. Each is a function whose contract is the law; it computes nothing.

ghost use Rattle.std.specs.Prelude.{List};
ghost use Rattle.spec_sorts.specs.Literals.{Literal};
ghost use Rattle.spec_derivations.specs.Problems.{Problem};
ghost use Rattle.term_core.specs.declared.ids.TermId.{TermId};
ghost use Rattle.sat_budget.specs.declared.limits.Limits.{Limits};
ghost use Rattle.search_loop.specs.declared.search.Search.{Search};
ghost use Rattle.search_loop.specs.Asking.{SearchState};
ghost use Rattle.search_loop.specs.Growing.{IsEmptySearch, IsFresh, GrowsTo, HasGrown, IsBegun};

/// States that a search of which a check has done nothing yet begins where it grew: it is asked the problem to which it grew, after
/// what earlier checks learned. Of an empty search a check has done nothing.
pub fn grown_searches_begin()
    ensures begins { (old new : SearchState) (roots interface : List TermId) (p : Problem)
        (earlier : List (List Literal)) → IsFresh old.search → HasGrown old new roots interface
        → GrowsTo old.table old.search roots interface earlier p → IsBegun new.table p earlier new.search }
    ensures empty { (limits : Limits) (x : Search) → IsEmptySearch limits x → IsFresh x }
{}
