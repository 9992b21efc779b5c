//! Literals of a clause under a trail.

ghost use Rattle.std.specs.Prelude.{◌≢◌, ◌<◌, ◌≤◌, length, All, Contains, MatchBool, MatchOption};
ghost use Rattle.clause_literals.specs.Literals.{lit_complement};
ghost use Rattle.clause_literals.specs.Statuses.{IsFalsified};
ghost use Rattle.clause_store.specs.Watching.{IsOpenIn, IsOpenBut, IsOpenAt, IsAnother, AreFalseBut, AreFalseBetween};

use clause_literals::same;
use sat_trail::SatTrail;
use term_core::Lit;

/// Tells whether a literal holds.
pub(crate) fn is_true(l: Lit, trail: &SatTrail) -> bool
    requires { l.term.0 < trail.now.vars }
    ensures { MatchBool result (Contains trail.now.literals l) (Contains trail.now.literals l → ⊥) }
{
    trail.is_sound();
    match trail.value(l) {
        Some(sign) => sign,
        None => false,
    }
}

/// Tells whether a literal is false.
pub(crate) fn is_false(l: Lit, trail: &SatTrail) -> bool
    requires { l.term.0 < trail.now.vars }
    ensures { MatchBool result (Contains trail.now.literals (lit_complement l))
        (Contains trail.now.literals (lit_complement l) → ⊥) }
{
    trail.is_sound();
    match trail.value(l) {
        Some(sign) => !sign,
        None => false,
    }
}

/// Tells whether a literal is not false, and not another one.
fn is_open(l: Lit, other: Lit, trail: &SatTrail) -> bool
    requires { l.term.0 < trail.now.vars }
    ensures { MatchBool result ((l ≢ other) × (Contains trail.now.literals (lit_complement l) → ⊥))
        (l ≢ other → Contains trail.now.literals (lit_complement l)) }
{
    if same(l, other) {
        return false;
    }
    !is_false(l, trail)
}

/// Finds the first literal of a clause that is not false.
pub(crate) fn first_open(clause: &[Lit], trail: &SatTrail) -> Option<Lit>
    requires { All (λ l. l.term.0 < trail.now.vars) clause.now }
    ensures { MatchOption result (IsFalsified trail.now.literals clause.now) (IsOpenIn trail.now.literals clause.now) }
{
    for l in clause {
        if !is_false(*l, trail) {
            return Some(*l);
        }
    }
    None
}

/// Finds the first literal of a clause that is not false, and not this one.
pub(crate) fn find_open(clause: &[Lit], other: Lit, trail: &SatTrail) -> Option<Lit>
    requires { All (λ l. l.term.0 < trail.now.vars) clause.now }
    ensures { MatchOption result (AreFalseBut trail.now.literals clause.now other)
        (IsOpenBut trail.now.literals clause.now other) }
{
    for l in clause {
        if *l != other && !is_false(*l, trail) {
            return Some(*l);
        }
    }
    None
}

/// Finds the place of a literal that is not false, and not this one, between two places of a clause.
fn open_between(
    clause: &[Lit],
    from: usize,
    to: usize,
    other: Lit,
    trail: &SatTrail,
) -> Option<usize>
    requires known { All (λ l. l.term.0 < trail.now.vars) clause.now }
    requires within { to ≤ length clause.now }
    ensures { MatchOption result (AreFalseBetween trail.now.literals clause.now from to other)
        (IsOpenAt trail.now.literals clause.now other) }
{
    let mut at = from;
    'places: while at < to {
        if is_open(clause[at], other, trail) {
            return Some(at);
        }
        at += 1;
    }
    None
}

/// Finds the place of a literal of a clause that is not false, and not this one, from a place on, and then before it.
fn open_from(clause: &[Lit], from: usize, other: Lit, trail: &SatTrail) -> Option<usize>
    requires { All (λ l. l.term.0 < trail.now.vars) clause.now }
    ensures { MatchOption result (AreFalseBut trail.now.literals clause.now other)
        (IsOpenAt trail.now.literals clause.now other) }
{
    let len = clause.len();
    let start = if from < len { from } else { 0 };
    match open_between(clause, start, len, other, trail) {
        Some(at) => Some(at),
        None => match open_between(clause, 0, start, other, trail) {
            Some(at) => Some(at),
            None => None,
        },
    }
}

/// Gives the place at which a clause was looked at last, by its number, or the first.
fn start_of(starts: &[usize], n: usize) -> usize {
    if n < starts.len() { starts[n] } else { 0 }
}

/// Keeps the place at which a clause was looked at, by its number.
fn keep_start(starts: &mut [usize], n: usize, at: usize) {
    if n < starts.len() {
        starts[n] = at;
    }
}

/// Finds a literal of the clause of a number that is not false, and not this one.
///
/// It looks from the place on at which it found the last one, which is kept by the clause's number, and then before it. What is
/// before that place was false then, and often is so still.
/// Source: Gent, Journal of Artificial Intelligence Research 48, 2013.
pub(crate) fn next_open(
    clause: &[Lit],
    starts: &mut [usize],
    n: usize,
    other: Lit,
    trail: &SatTrail,
) -> Option<Lit>
    requires { All (λ l. l.term.0 < trail.now.vars) clause.now }
    ensures { MatchOption result (AreFalseBut trail.now.literals clause.now other)
        (IsOpenBut trail.now.literals clause.now other) }
{
    match open_from(clause, start_of(starts, n), other, trail) {
        Some(at) => {
            keep_start(starts, n, at);
            Some(clause[at])
        }
        None => None,
    }
}

/// Finds a literal of a clause that is not this one, of the greatest level among these; `start` is one of them.
pub(crate) fn latest_but(clause: &[Lit], other: Lit, start: Lit, trail: &SatTrail) -> Lit
    requires known { All (λ l. l.term.0 < trail.now.vars) clause.now }
    requires start { IsAnother clause.now other start }
    ensures { IsAnother clause.now other result }
{
    let mut best = start;
    for l in clause {
        if *l != other && trail.level_by(best) < trail.level_by(*l) {
            best = *l;
        }
    }
    best
}
