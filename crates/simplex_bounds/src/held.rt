//! Bounds that are held, and what each of them changed.

ghost use Rattle.std.specs.Prelude.{◌≡◌, ◌+◌, ◌<◌, ◌≤◌, [], ◌∷◌, ◌++◌, length, take, slice_index_or, cond, Some, OnOk, OnErr, All};
ghost use Rattle.simplex_bounds.specs.Held.{lesser};
ghost use Rattle.simplex_bounds.specs.Limits.{are_crossed};

use crate::bounds::Bound;
use crate::limits::VariableLimits;
use crate::ranges::Range;
use no_memory::NoMemory;
use std::alloc::Global;
use std::marker::Model;

/// Holds a bound with what it changed, so that this can be undone.
#[derive(Clone, Copy)]
pub(crate) struct HeldBound {
    /// The bound.
    pub(crate) bound: Bound,
    /// The strongest bound of its side and variable before it.
    pub(crate) found: Option<Bound>,
    /// The least variable whose bounds cross since it is held.
    pub(crate) crossed: Option<u64>,
}

/// Holds bounds of variables, oldest first, with the strongest of each side of each variable at hand.
///
/// Contracts see how many variables there are, the bounds, and the room: how many more can be held without memory.
#[derive(Drop)]
pub struct Bounds {
    /// For each variable its strongest bounds.
    limits: Vec<VariableLimits>,
    /// The bounds, oldest first.
    entries: Vec<HeldBound>,
}

impl Model for Bounds {
    ghost use Rattle.simplex_bounds.specs.Held.{BoundsView};

    ghost Value = { BoundsView };

    ghost use Rattle.simplex_bounds.specs.Kept.{bounds_view, BoundsFit};

    ghost view = { bounds_view };

    ghost invariant = { BoundsFit };
}

/// Gives the lesser of a variable that may be there and another one.
fn lesser_of(a: Option<u64>, y: u64) -> u64
    ensures { result ≡ lesser a y }
{
    match a {
        Some(x) if x < y => x,
        _ => y,
    }
}

/// Gives the least variable whose bounds cross once y has these limits, where before it was another one or none.
fn crossed_after(before: Option<u64>, limits: VariableLimits, y: u64) -> Option<u64>
    ensures { result ≡ cond (are_crossed limits) (Some (lesser before y)) before }
{
    if limits.are_crossed() {
        Some(lesser_of(before, y))
    } else {
        before
    }
}

impl Bounds {
    ghost use Rattle.simplex_bounds.specs.declared.bounds.Side.TheVariants.{Lower, Upper};
    ghost use Rattle.simplex_bounds.specs.declared.bounds.Bound.{Bound};
    ghost use Rattle.simplex_bounds.specs.Deltas.{range_of};
    ghost use Rattle.simplex_bounds.specs.Held.{strongest, range_in, IsLeastCrossed};

    /// Makes the bounds of no variables. It takes no memory.
    pub fn new(alloc: Global) -> Bounds
        ensures { result ≡ record { variables = 0; held = []; room = 0 } }
    {
        Bounds {
            limits: Vec::new(alloc),
            entries: Vec::new(alloc),
        }
    }

    /// Counts the variables. It takes no memory.
    pub fn variables(&self) -> u64
        ensures { result ≡ self.now.variables }
    {
        self.limits.len() as u64
    }

    /// Adds a variable without bounds: the n-th one, from 0, has the number n.
    ///
    /// `NoMemory` comes where there is no memory for it; then nothing is changed.
    pub fn add_var(&mut self) -> Result<(), NoMemory>
        ensures ok { OnOk result (self.new.variables ≡ self.old.variables + 1) }
        ensures held { self.new.held ≡ self.old.held }
        ensures room { self.new.room ≡ self.old.room }
        ensures err { OnErr result (self.new ≡ self.old) }
    {
        self.limits.push(VariableLimits {
            lower: None,
            upper: None,
        })?;
        Ok(())
    }

    /// Takes memory so that there is room for at least `n` bounds more than are held. Room is never given away.
    ///
    /// `NoMemory` comes where the memory was refused; then nothing is changed.
    pub fn reserve(&mut self, n: u64) -> Result<(), NoMemory>
        ensures ok { OnOk result (n ≤ self.new.room) }
        ensures variables { self.new.variables ≡ self.old.variables }
        ensures held { self.new.held ≡ self.old.held }
        ensures room { self.old.room ≤ self.new.room }
        ensures err { OnErr result (self.new ≡ self.old) }
    {
        self.entries.reserve(n as usize)?;
        Ok(())
    }

    /// Holds one bound more, for which there is room. It takes no memory, and constant time.
    pub fn hold(&mut self, bound: Bound)
        requires there { bound.variable < self.old.variables }
        requires room { 0 < self.old.room }
        ensures held { self.new.held ≡ self.old.held ++ bound ∷ [] }
        ensures variables { self.new.variables ≡ self.old.variables }
        ensures room { self.new.room + 1 ≡ self.old.room }
    {
        let before = self.crossed();
        let at = bound.variable as usize;
        let limits = self.limits[at];
        let tightened = limits.tightened(bound);
        let crossed = crossed_after(before, tightened, bound.variable);
        self.limits[at] = tightened;
        self.entries.push_reserved(HeldBound {
            bound,
            found: limits.at(bound.side),
            crossed,
        });
    }

    /// Goes back to the first `len` bounds. It takes no memory, and constant time for each bound that goes.
    pub fn back(&mut self, len: u64)
        requires { len ≤ length self.old.held }
        ensures held { self.new.held ≡ take len self.old.held }
        ensures variables { self.new.variables ≡ self.old.variables }
        ensures room { self.new.room + length self.new.held ≡ self.old.room + length self.old.held }
    {
        while self.entries.len() as u64 > len {
            let last = self.entries.len() - 1;
            let entry = self.entries[last];
            let at = entry.bound.variable as usize;
            self.limits[at] = self.limits[at].with(entry.bound.side, entry.found);
            self.entries.truncate(last);
        }
    }

    /// Counts the bounds that are held. It takes no memory.
    pub fn held_len(&self) -> u64
        ensures { result ≡ length self.now.held }
    {
        self.entries.len() as u64
    }

    /// Gives a bound that is held by its place: from 0, the oldest first. It takes no memory, and constant time.
    pub fn held_at(&self, place: u64) -> Bound
        requires { place < length self.now.held }
        ensures { result ≡ slice_index_or self.now.held place result }
    {
        self.entries[place as usize].bound
    }

    /// Gives the strongest lower bound of a variable, if one is held. It takes no memory, and constant time.
    pub fn lower(&self, y: u64) -> Option<Bound>
        ensures { result ≡ strongest Lower y self.now.held }
    {
        match self.limits.get(y as usize) {
            None => None,
            Some(limits) => limits.lower,
        }
    }

    /// Gives the strongest upper bound of a variable, if one is held. It takes no memory, and constant time.
    pub fn upper(&self, y: u64) -> Option<Bound>
        ensures { result ≡ strongest Upper y self.now.held }
    {
        match self.limits.get(y as usize) {
            None => None,
            Some(limits) => limits.upper,
        }
    }

    /// Gives the range that the bounds leave to a variable. It takes no memory, and constant time.
    pub fn range(&self, y: u64) -> Range
        ensures { range_of result ≡ range_in self.now.held y }
    {
        match self.limits.get(y as usize) {
            None => Range {
                lower: None,
                upper: None,
            },
            Some(limits) => limits.range(),
        }
    }

    /// Gives the least variable whose bounds cross. It takes no memory, and constant time.
    ///
    /// `None` comes exactly where the bounds of no variable cross.
    pub fn crossed(&self) -> Option<u64>
        ensures { IsLeastCrossed self.now.held result }
    {
        match self.entries.last() {
            None => None,
            Some(entry) => entry.crossed,
        }
    }

    /// States that each bound that is held is of a variable that is there.
    pub fn held_are_of_variables(&self)
        ensures { All (λ (b : Bound). b.variable < self.now.variables) self.now.held }
    {
        let _ = &self.entries;
    }
}
