//! Literals with values, levels and reasons by variable.

ghost use Rattle.std.specs.Prelude.{◌≡◌, ℕ, ◌+◌, ◌^◌, ◌<◌, ◌≤◌, length, take, All, OnOk, OnErr, None, Some, get_or, min, vec_capacity};
ghost use Rattle.clause_literals.specs.Literals.{IsConsistent};
ghost use Rattle.sat_trail.specs.Trails.{TrailView, empty, unassigned, no_lit, VariablesAreApart, IsUnassigned, HasValue, HasSame, IsPushed, IsCutTo, IsLeveled};
ghost use Rattle.sat_trail.specs.Values.{HasValues};

use no_memory::NoMemory;
use std::alloc::Global;
use std::marker::Model;
use term_core::Lit;

/// Takes off all literals but the first `len`, and their values.
fn take_off(held: &mut Vec<Lit>, values: &mut Vec<Option<bool>>, len: usize)
    requires values { HasValues held.old.items values.old.items }
    requires there { len ≤ length held.old.items }
    ensures held { held.new.items ≡ take len held.old.items }
    ensures capacity { vec_capacity held.new ≡ vec_capacity held.old }
    ensures size { length values.new.items ≡ length values.old.items }
    ensures values { HasValues held.new.items values.new.items }
{
    'items: while held.len() > len {
        if let Some(l) = held.pop() {
            values[l.term.0 as usize] = None;
        }
    }
}

/// Holds literals in the order in which they came to hold, each with its level and its reason.
///
/// A literal is decided, which begins a level, or implied at the level, with the number of a step as its reason. Literals are of
/// variables, which are terms by their numbers: the n-th `add_var`, from 0, adds the variable of `TermId(n)`. No variable has two
/// literals here. Contracts see a trail as the lists of literals, levels and reasons, the number of variables, the level, and how many
/// of the oldest literals are marked as propagated.
/// Source: Eén and Sörensson, SAT 2003, for trails with levels and reasons.
#[derive(Drop)]
pub struct SatTrail {
    /// The literals, oldest first.
    literals: Vec<Lit>,
    /// The place of the literal that begins each level, from level 1 on.
    starts: Vec<usize>,
    /// For each variable the sign of the literal that holds, or none.
    values: Vec<Option<bool>>,
    /// For each variable the level of its literal; of no meaning without one.
    levels: Vec<u64>,
    /// For each variable the reason of its literal; of no meaning without one.
    reasons: Vec<Option<u64>>,
    /// How many of the oldest literals were marked as propagated and have not been undone since.
    propagated: usize,
}

impl Model for SatTrail {
    ghost use Rattle.sat_trail.specs.Trails.{TrailView};

    ghost Value = { TrailView };

    ghost use Rattle.sat_trail.specs.Kept.{trail_view, TrailFits};

    ghost view = { trail_view };

    ghost invariant = { TrailFits };
}

impl SatTrail {
    /// Makes the trail of no variables, which takes no memory before the first of them.
    pub fn new(alloc: Global) -> SatTrail
        ensures { result ≡ empty }
    {
        SatTrail {
            literals: Vec::new(alloc),
            starts: Vec::new(alloc),
            values: Vec::new(alloc),
            levels: Vec::new(alloc),
            reasons: Vec::new(alloc),
            propagated: 0,
        }
    }

    /// Adds a variable without a value, and takes the room for its literal and for a level.
    ///
    /// `NoMemory` comes where these find no memory; then the trail is as it was.
    pub fn add_var(&mut self) -> Result<(), NoMemory>
        ensures same { HasSame self.old self.new }
        ensures ok { OnOk result (self.new.vars ≡ self.old.vars + 1) }
        ensures err { OnErr result (self.new.vars ≡ self.old.vars) }
        ensures propagated { self.new.propagated ≡ self.old.propagated }
    {
        let wanted = self.values.len() + 1;
        self.literals
            .reserve(wanted.saturating_sub(self.literals.len()))?;
        self.starts
            .reserve(wanted.saturating_sub(self.starts.len()))?;
        self.levels.reserve(1)?;
        self.reasons.reserve(1)?;
        self.values.push(None)?;
        self.levels.push_reserved(0);
        self.reasons.push_reserved(None);
        Ok(())
    }

    /// Counts the variables. It takes no memory.
    pub fn vars(&self) -> u64
        ensures { result ≡ self.now.vars }
    {
        self.values.len() as u64
    }

    /// Counts the levels above 0, which is the level of what comes next. It takes no memory.
    pub fn level(&self) -> u64
        ensures { result ≡ self.now.level }
    {
        self.starts.len() as u64
    }

    /// Counts the literals. It takes no memory.
    pub fn len(&self) -> u64
        ensures { result ≡ length self.now.literals }
    {
        self.literals.len() as u64
    }

    /// Gives a literal by its place, from 0 for the oldest. It takes no memory.
    pub fn literal(&self, n: u64) -> Lit
        requires { n < length self.now.literals }
        ensures { result ≡ get_or self.now.literals n no_lit }
    {
        self.literals[n as usize]
    }

    /// Gives the level of a literal by its place, from 0 for the oldest. It takes no memory.
    pub fn level_of(&self, n: u64) -> u64
        requires { n < length self.now.literals }
        ensures { result ≡ get_or self.now.levels n 0 }
    {
        self.levels[self.literals[n as usize].term.0 as usize]
    }

    /// Gives the reason of a literal by its place, from 0 for the oldest: the number of the step that implied it; `None` exactly
    /// where it was decided. It takes no memory.
    pub fn reason(&self, n: u64) -> Option<u64>
        requires { n < length self.now.literals }
        ensures { result ≡ get_or self.now.reasons n None }
    {
        self.reasons[self.literals[n as usize].term.0 as usize]
    }

    /// Gives the level at which the variable of a literal got its value, be it that literal or its complement that holds. Without
    /// a value the answer has no meaning. It takes no memory.
    pub fn level_by(&self, lit: Lit) -> u64
        requires known { lit.term.0 < self.now.vars }
        ensures { (p : ℕ) → p < length self.now.literals → (get_or self.now.literals p no_lit).term ≡ lit.term
            → result ≡ get_or self.now.levels p 0 }
    {
        self.levels[lit.term.0 as usize]
    }

    /// Gives the value of a literal: `true` where it holds, `false` where its complement does; `None` exactly where neither does. It
    /// takes no memory.
    pub fn value(&self, lit: Lit) -> Option<bool>
        requires known { lit.term.0 < self.now.vars }
        ensures { HasValue self.now.literals lit result }
    {
        match self.values[lit.term.0 as usize] {
            Some(sign) => Some(sign == lit.positive),
            None => None,
        }
    }

    /// Begins a level with a literal that has no value yet. It takes no memory.
    pub fn decide(&mut self, lit: Lit)
        requires known { lit.term.0 < self.old.vars }
        requires unassigned { IsUnassigned self.old.literals lit }
        ensures { IsPushed self.old lit None (self.old.level + 1) self.new }
    {
        self.starts.push_reserved(self.literals.len());
        let variable = lit.term.0 as usize;
        self.values[variable] = Some(lit.positive);
        self.levels[variable] = self.starts.len() as u64;
        self.reasons[variable] = None;
        self.literals.push_reserved(lit);
    }

    /// Holds a literal more at the level, which has no value yet. `reason` is the number of the step that implies it. It takes no
    /// memory.
    pub fn imply(&mut self, lit: Lit, reason: u64)
        requires known { lit.term.0 < self.old.vars }
        requires unassigned { IsUnassigned self.old.literals lit }
        ensures { IsPushed self.old lit (Some reason) self.old.level self.new }
    {
        let variable = lit.term.0 as usize;
        self.values[variable] = Some(lit.positive);
        self.levels[variable] = self.starts.len() as u64;
        self.reasons[variable] = Some(reason);
        self.literals.push_reserved(lit);
    }

    /// Goes back to a level, at most the present one: exactly the literals up to that level stay, and of these are marked as
    /// propagated those that were. It takes no memory.
    pub fn back_to(&mut self, level: u64)
        requires there { level ≤ self.old.level }
        ensures { IsCutTo self.old level self.new }
    {
        if level >= self.starts.len() as u64 {
            return;
        }
        let len = self.starts[level as usize];
        take_off(&mut self.literals, &mut self.values, len);
        self.starts.truncate(level as usize);
        self.propagated = self.propagated.min(len);
    }

    /// Takes all values back, and all variables from `vars` on away; where there are no more than that, all variables stay. It
    /// takes no memory, and time in proportion to the literals that hold and the variables that go.
    pub fn clear(&mut self, vars: u64)
        ensures { self.new ≡ unassigned (min vars self.old.vars) }
    {
        take_off(&mut self.literals, &mut self.values, 0);
        self.starts.clear();
        self.values.truncate(vars as usize);
        self.levels.truncate(vars as usize);
        self.reasons.truncate(vars as usize);
        self.propagated = 0;
    }

    /// Counts the oldest literals that were marked as propagated and have not been undone since. It takes no memory.
    pub fn propagated(&self) -> u64
        ensures { result ≡ self.now.propagated }
    {
        self.propagated as u64
    }

    /// Marks all literals as propagated: what follows from them by unit propagation holds too. What this means is up to the
    /// caller. It takes no memory.
    pub fn mark_propagated(&mut self)
        ensures same { HasSame self.old self.new }
        ensures vars { self.new.vars ≡ self.old.vars }
        ensures propagated { self.new.propagated ≡ length self.old.literals }
    {
        self.propagated = self.literals.len();
    }

    /// States that each literal is of a variable, that no variable occurs twice and so no literal with its complement, that there are
    /// at most as many literals as variables, and how the levels go.
    pub fn is_sound(&self)
        ensures known { All (λ l. l.term.0 < self.now.vars) self.now.literals }
        ensures once { VariablesAreApart self.now.literals }
        ensures consistent { IsConsistent self.now.literals }
        ensures within { length self.now.literals ≤ self.now.vars }
        ensures small { self.now.vars < 2 ^ 63 }
        ensures leveled { IsLeveled self.now }
        ensures propagated { self.now.propagated ≤ length self.now.literals }
    {
        let _ = &self.literals;
    }
}
