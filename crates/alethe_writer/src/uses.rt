//! How often terms are used by what is printed, and which of them are in place.

ghost use Rattle.std.specs.Prelude.{◌≡◌, ℕ, ◌-◌, ◌<◌, ◌≤◌, ◌^◌, ◌&&◌, length, All, IfOk, MatchBool, get_or};
ghost use Rattle.spec_proof_texts.specs.Plans.{AreHeights, AreSingle, is_compound, times_among, times_in_clauses, times_in_terms};
ghost use Rattle.spec_sorts.specs.Subsets.{arguments_of};
ghost use Rattle.term_core.specs.Tables.{IsIn, term_at};
ghost use Rattle.proof_log.specs.Logs.{IsLogOf, logged_at, named, derivation_in};
ghost use Rattle.alethe_writer.specs.Uses.{one_use_more, CountsUses, CountsTerms, AreUses, AreUsedOnce, is_once, greatest_of, height_in, placed_more};
ghost use Rattle.alethe_writer.specs.declared.uses.Uses.TheVariants.{Never};

use crate::plans::has_arguments;
use no_memory::NoMemory;
use proof_log::{ProofLog, StepId};
use std::alloc::Global;
use term_core::{TermId, TermTable};

/// How deep a term may be in place.
const MOST_LEVELS: u8 = 8;

/// How many terms may be in place in one proof, so that all of them have room where it is read.
const MOST_PLACES: u64 = 900_000;

/// How often a term is used.
#[derive(Clone, Copy)]
pub(crate) enum Uses {
    Never,
    Once,
    Often,
}

/// Tells which terms may be in place: those with arguments that are used once by what is printed.
pub(crate) fn single_of(
    alloc: Global,
    log: &ProofLog,
    table: &TermTable,
    support: &[bool],
    printed: &[bool],
) -> Result<Vec<bool>, NoMemory>
    requires log { IsLogOf table.now log.now }
    requires short { length support.now ≤ length log.now }
    requires as_many { length printed.now ≡ length table.now.terms }
    ensures { IfOk result (λ single. AreSingle table.now.terms (derivation_in table.now log.now)
        support.now printed.now single.items) }
{
    let uses = uses_of(alloc, log, table, support, printed)?;
    let single = mark_single(alloc, table, printed, &uses)?;
    Ok(single)
}

/// Marks the printed terms with arguments that are used once.
fn mark_single(
    alloc: Global,
    table: &TermTable,
    printed: &[bool],
    uses: &[Uses],
) -> Result<Vec<bool>, NoMemory>
    requires as_many { length printed.now ≡ length table.now.terms }
    requires as_many_uses { length uses.now ≡ length table.now.terms }
    ensures { IfOk result (λ single. AreUsedOnce table.now printed.now uses.now single.items) }
{
    let mut single = Vec::new(alloc);
    'terms: for number in 0..printed.len() {
        let wanted = is_single(table, printed[number], uses[number], TermId(number as u64));
        single.push(wanted)?;
    }
    Ok(single)
}

/// Tells whether a printed term may be in place.
fn is_single(table: &TermTable, printed: bool, uses: Uses, id: TermId) -> bool
    requires { IsIn table.now id }
    ensures { result ≡ printed && (is_compound (term_at table.now id) && is_once uses) }
{
    if !printed {
        return false;
    }
    if !is_once(uses) {
        return false;
    }
    has_arguments(table, id)
}

/// Tells whether a term is used once.
fn is_once(uses: Uses) -> bool
    ensures { result ≡ is_once uses }
{
    matches!(uses, Uses::Once)
}

/// Counts how often each term is used.
fn uses_of(
    alloc: Global,
    log: &ProofLog,
    table: &TermTable,
    support: &[bool],
    printed: &[bool],
) -> Result<Vec<Uses>, NoMemory>
    requires log { IsLogOf table.now log.now }
    requires short { length support.now ≤ length log.now }
    requires as_many { length printed.now ≡ length table.now.terms }
    ensures { IfOk result (λ uses. AreUses table.now log.now support.now printed.now uses.items) }
{
    let mut uses = vec![in alloc; Uses::Never; table.len() as usize]?;
    count_uses(log, table, support, printed, &mut uses);
    Ok(uses)
}

/// Counts the uses of terms, where none is counted yet.
fn count_uses(
    log: &ProofLog,
    table: &TermTable,
    support: &[bool],
    printed: &[bool],
    uses: &mut [Uses],
)
    requires log { IsLogOf table.now log.now }
    requires short { length support.now ≤ length log.now }
    requires as_many { length printed.now ≡ length table.now.terms }
    requires as_many_uses { length uses.old ≡ length table.now.terms }
    requires none { (k : ℕ) → get_or uses.old k Never ≡ Never }
    ensures uses { AreUses table.now log.now support.now printed.now uses.new }
    ensures as_many { length uses.new ≡ length uses.old }
{
    count_in_clauses(log, table, support, uses);
    count_in_terms(table, printed, uses);
}

/// Counts the literals of marked clauses.
fn count_in_clauses(log: &ProofLog, table: &TermTable, support: &[bool], uses: &mut [Uses])
    requires log { IsLogOf table.now log.now }
    requires short { length support.now ≤ length log.now }
    requires as_many { length uses.old ≡ length table.now.terms }
    ensures { CountsTerms table.now (times_in_clauses support.now (derivation_in table.now log.now))
        uses.old uses.new }
{
    table.ids_are_unique();
    'clauses: for number in 0..support.len() {
        count_clause(log, table, StepId(number as u64), support[number], uses);
    }
}

/// Counts the literals of a clause, where they are wanted.
fn count_clause(log: &ProofLog, table: &TermTable, id: StepId, wanted: bool, uses: &mut [Uses])
    requires there { id.0 < length log.now }
    requires log { IsLogOf table.now log.now }
    requires as_many { length uses.old ≡ length table.now.terms }
    ensures { MatchBool wanted (CountsUses uses.old (named (logged_at log.now id)) uses.new) (uses.new ≡ uses.old) }
{
    let _ = table;
    if !wanted {
        return;
    }
    count_terms(uses, log.clause(id));
}

/// Counts the arguments of marked terms.
fn count_in_terms(table: &TermTable, printed: &[bool], uses: &mut [Uses])
    requires as_many { length printed.now ≡ length table.now.terms }
    requires as_many_uses { length uses.old ≡ length table.now.terms }
    ensures { CountsTerms table.now (times_in_terms printed.now table.now.terms) uses.old uses.new }
{
    'terms: for number in 0..printed.len() {
        count_arguments(table, TermId(number as u64), printed[number], uses);
    }
}

/// Counts the arguments of a term, where they are wanted.
fn count_arguments(table: &TermTable, id: TermId, wanted: bool, uses: &mut [Uses])
    requires there { IsIn table.now id }
    requires as_many { length uses.old ≡ length table.now.terms }
    ensures { MatchBool wanted
        (CountsTerms table.now (times_among (arguments_of (term_at table.now id))) uses.old uses.new)
        (uses.new ≡ uses.old) }
{
    table.ids_are_unique();
    if !wanted {
        return;
    }
    count_terms(uses, table.node(id).arguments.as_slice());
}

/// Counts these terms.
fn count_terms(uses: &mut [Uses], ids: &[TermId])
    requires { All (λ id. id.0 < length uses.old) ids.now }
    ensures { CountsUses uses.old ids.now uses.new }
{
    'ids: for id in ids.iter() {
        uses[id.0 as usize] = one_more(uses[id.0 as usize]);
    }
}

/// One use more.
fn one_more(uses: Uses) -> Uses
    ensures { result ≡ one_use_more uses }
{
    match uses {
        Uses::Never => Uses::Once,
        _ => Uses::Often,
    }
}

/// Gives the heights of the terms that are in place, and 0 for each other term.
///
/// It goes from the least number up, since arguments have smaller ones.
pub(crate) fn heights_of(
    alloc: Global,
    table: &TermTable,
    single: &[bool],
) -> Result<Vec<u8>, NoMemory>
    requires { length single.now ≡ length table.now.terms }
    ensures { IfOk result (λ heights. AreHeights table.now.terms single.now heights.items) }
{
    table.ids_are_unique();
    table.arguments_come_first();
    let mut heights = Vec::new(alloc);
    let mut places = 0;
    'terms: for number in 0..single.len() {
        let height = height_at(
            table,
            &heights,
            single[number],
            places,
            TermId(number as u64),
        );
        places = with_place(places, height);
        heights.push(height)?;
    }
    Ok(heights)
}

/// Counts a term that is in place.
fn with_place(places: u64, height: u8) -> u64
    requires { places < 2 ^ 64 - 1 }
    ensures { result ≡ placed_more places height }
{
    if height == 0 {
        return places;
    }
    places + 1
}

/// The height of a term over those before it, where so many terms are in place.
fn height_at(table: &TermTable, heights: &[u8], wanted: bool, places: u64, id: TermId) -> u8
    requires there { IsIn table.now id }
    requires before { length heights.now ≡ id.0 }
    ensures { result ≡ height_in table.now heights.now wanted places id }
{
    table.ids_are_unique();
    if !wanted {
        return 0;
    }
    if places >= MOST_PLACES {
        return 0;
    }
    let deepest = greatest_height(heights, table.node(id).arguments.as_slice());
    if deepest >= MOST_LEVELS {
        return 0;
    }
    deepest + 1
}

/// The greatest of the heights of terms.
fn greatest_height(heights: &[u8], ids: &[TermId]) -> u8
    requires { All (λ id. id.0 < length heights.now) ids.now }
    ensures { result ≡ greatest_of heights.now ids.now }
{
    let mut deepest = 0;
    'ids: for id in ids.iter() {
        deepest = deepest.max(heights[id.0 as usize]);
    }
    deepest
}
