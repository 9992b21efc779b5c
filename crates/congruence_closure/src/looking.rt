//! Looking at a listed term, and giving a literal.

ghost use Rattle.std.specs.Prelude.{◌≡◌, ◌<◌, length, true, false, IfOk, MatchBool, MatchOption, Contains};
ghost use Rattle.term_core.specs.declared.ids.TermId.{TermId as Number};
ghost use Rattle.class_table.specs.Classes.{AreSame};
ghost use Rattle.congruence_relation.specs.Relation.{truth_of};
ghost use Rattle.congruence_relation.specs.Edges.{HasLinkedSidesIn};
ghost use Rattle.congruence_closure.specs.Listed.{nth, HasPlace, equality_of};
ghost use Rattle.congruence_closure.specs.Keys.{key_of, IsHeld};
ghost use Rattle.congruence_closure.specs.State.{IsApart};
ghost use Rattle.congruence_closure.specs.Changes.{KeepsFacts, IsAgainst, HasLooked, HasGiven};

use crate::Conflict;
use crate::key_table::key_of;
use crate::parts::ClosureParts;
use crate::reading::sides_of;
use crate::saturating::Turn;
use congruence_relation::Truths;
use no_memory::NoMemory;
use term_core::{Lit, TermId};

/// Gives the term of a truth value.
fn truth_term(truths: Truths, positive: bool) -> TermId
    ensures { result ≡ truth_of truths positive }
{
    if positive {
        truths.true_term
    } else {
        truths.false_term
    }
}

impl ClosureParts {
    /// Gives the sides of the listed term of a place, if it is an equality. It takes no memory.
    fn sides_at(&self, place: u64) -> Option<(TermId, TermId)>
        requires { place < length self.now.now.facts.listed }
        ensures { MatchOption result
            ((a b : Number) → (nth self.now.now.facts.listed place).shape ≡ equality_of a b → ⊥)
            (λ sides. (nth self.now.now.facts.listed place).shape ≡ equality_of sides.0 sides.1) }
    {
        sides_of(&self.listing.at(place).node)
    }

    /// Tells whether the listed term of a place takes part. It takes no memory.
    pub(crate) fn takes_part_at(&self, place: u64) -> bool
        requires { place < length self.now.now.facts.listed }
        ensures { result ≡ (nth self.now.now.facts.listed place).takes_part }
    {
        self.listing.at(place).takes_part
    }

    /// Tells whether the listed term of a place, which takes part, is an equality with linked sides. It takes no memory.
    pub(crate) fn has_linked_sides(&self, place: u64) -> bool
        requires there { place < length self.now.now.facts.listed }
        requires part { (nth self.now.now.facts.listed place).takes_part ≡ true }
        ensures { MatchBool result (HasLinkedSidesIn self.now.now.facts self.now.now.edges
            (nth self.now.now.facts.listed place).term) (IsApart self.now.now place) }
    {
        self.are_kept();
        match self.sides_at(place) {
            Some((a, b)) => self.same(a, b),
            None => false,
        }
    }

    /// Tells whether the listed term of a place, which takes part, is an equality that is denied, with linked sides. One with linked
    /// sides that is not denied is noted.
    ///
    /// `NoMemory` comes where the note finds no memory.
    fn is_against(&mut self, place: u64) -> Result<bool, NoMemory>
        requires there { place < length self.old.now.facts.listed }
        requires part { (nth self.old.now.facts.listed place).takes_part ≡ true }
        ensures same { self.new ≡ self.old }
        ensures against { IfOk result (λ against. MatchBool against (IsAgainst self.old.now place)
            (IsApart self.old.now place)) }
    {
        self.are_kept();
        if !self.has_linked_sides(place) {
            return Ok(false);
        }
        let term = self.listing.at(place).term;
        if self.holding.denies(term) {
            return Ok(true);
        }
        self.noted.push(term)?;
        Ok(false)
    }

    /// Looks at the listed term of a place, if it takes part: whether it is denied though its sides are linked, and whether another
    /// term has its key. An equality with linked sides that is not denied is noted.
    ///
    /// `NoMemory` comes where the note, the key, or what is to be looked at again, finds no memory.
    pub(crate) fn look(&mut self, place: u64) -> Result<Turn, NoMemory>
        requires { place < length self.old.now.facts.listed }
        ensures goes { KeepsFacts self.old self.new }
        ensures ok { IfOk result (HasLooked self.old place self.new) }
    {
        if !self.takes_part_at(place) {
            return Ok(Turn::Quiet);
        }
        let against = self.is_against(place)?;
        if against {
            return Ok(Turn::Against(Conflict::Sides(self.listing.at(place).term)));
        }
        let key = key_of(self.alloc, &self.classes, &self.listing.at(place).node)?;
        match self.keys.look_up(key, place)? {
            Some(holder) => self.meet(place, holder),
            None => Ok(Turn::Quiet),
        }
    }

    /// Joins the classes of two listed terms of one key, where they are two. The second one had the key first.
    ///
    /// `NoMemory` comes where what is to be looked at again finds no memory.
    fn meet(&mut self, place: u64, holder: u64) -> Result<Turn, NoMemory>
        requires there { place < length self.old.now.facts.listed }
        requires part { (nth self.old.now.facts.listed place).takes_part ≡ true }
        requires held { IsHeld self.old.now.keys
            (key_of self.old.now.numbers (nth self.old.now.facts.listed place).shape) holder }
        requires apart { IsApart self.old.now place }
        ensures goes { KeepsFacts self.old self.new }
        ensures ok { IfOk result (HasLooked self.old place self.new) }
    {
        self.are_kept();
        let later = self.listing.at(place).term;
        let other = self.listing.at(holder).term;
        if self.same(later, other) {
            return Ok(Turn::Quiet);
        }
        self.join(later, other, None)?;
        Ok(Turn::Joined)
    }

    /// Gives a literal: its term is in the class of its truth value, and the sides of an equality are in one class, or in two where it
    /// takes part.
    ///
    /// `NoMemory` comes where what is to be looked at again finds no memory.
    pub(crate) fn give(&mut self, lit: Lit) -> Result<Turn, NoMemory>
        requires { Contains self.old.now.facts.held lit }
        ensures goes { KeepsFacts self.old self.new }
        ensures ok { IfOk result (HasGiven self.old lit self.new) }
    {
        self.are_kept();
        let truth = truth_term(self.truths, lit.positive);
        if !self.same(lit.term, truth) {
            self.join(lit.term, truth, Some(lit))?;
            return Ok(Turn::Joined);
        }
        let Some(place) = self.listing.place_of(lit.term) else {
            return Ok(Turn::Quiet);
        };
        match self.sides_at(place) {
            Some((a, b)) => self.give_sides(lit, place, a, b),
            None => Ok(Turn::Quiet),
        }
    }

    /// Gives the sides of an equality: they are in one class where it is held as it is, else in two where it takes part.
    ///
    /// `NoMemory` comes where what is to be looked at again finds no memory.
    fn give_sides(&mut self, lit: Lit, place: u64, a: TermId, b: TermId) -> Result<Turn, NoMemory>
        requires held { Contains self.old.now.facts.held lit }
        requires place { HasPlace self.old.now.facts.listed lit.term place }
        requires sides { (nth self.old.now.facts.listed place).shape ≡ equality_of a b }
        requires decided { AreSame self.old.now.numbers lit.term (truth_of self.old.now.facts.truths lit.positive) }
        ensures goes { KeepsFacts self.old self.new }
        ensures ok { IfOk result (HasGiven self.old lit self.new) }
    {
        self.are_kept();
        let linked = self.same(a, b);
        if linked == lit.positive {
            return Ok(Turn::Quiet);
        }
        if !linked {
            self.join(a, b, Some(lit))?;
            return Ok(Turn::Joined);
        }
        if self.takes_part_at(place) {
            return Ok(Turn::Against(Conflict::Sides(lit.term)));
        }
        Ok(Turn::Quiet)
    }
}
