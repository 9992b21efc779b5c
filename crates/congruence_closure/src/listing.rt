//! The listed terms, with their places and users.

ghost use Rattle.std.specs.Prelude.{◌≡◌, ◌<◌, ◌++◌, ◌∷◌, [], true, length, take, OnOk, OnErr, MatchOption};
ghost use Rattle.term_core.specs.Tables.{shape_of};
ghost use Rattle.congruence_relation.specs.Relation.{applications};
ghost use Rattle.congruence_closure.specs.Listed.{nth, HasPlace, IsListed, AreUsers};

use crate::users::{drop_users, grow, note_users};
use congruence_relation::Listed;
use no_memory::NoMemory;
use std::alloc::Global;
use std::marker::Model;
use term_core::{Node, TermId};

/// Lends the arguments of a term that takes part, else none.
fn used_by(node: &Node, takes_part: bool) -> &[TermId]
    ensures { takes_part ≡ true → result.now ≡ node.now.arguments.items }
{
    if takes_part {
        node.arguments.as_slice()
    } else {
        &[]
    }
}

/// Holds the listed terms, oldest first. It finds the place of a term, and the places of terms that take part and have it as an
/// argument.
///
/// Contracts see the listed terms.
#[derive(Drop)]
pub(crate) struct Listing {
    alloc: Global,
    /// The listed terms, oldest first.
    listed: Vec<Listed>,
    /// For each listed term, by its number, its place. What is at the number of another term says nothing.
    places: Vec<u64>,
    /// For each term, by its number, the places of the listed terms that take part and have it as an argument.
    users: Vec<Vec<u64>>,
}

impl Model for Listing {
    ghost use Rattle.std.specs.Prelude.{List};
    ghost use Rattle.congruence_relation.specs.Relation.{Application, applications};
    ghost use Rattle.congruence_closure.specs.Tables.{lists, IsIndexed};

    ghost Value = { List Application };

    ghost view = { λ l. applications l.listed.items };

    ghost invariant = { λ l. IsIndexed (applications l.listed.items) l.places.items (lists l.users.items) };
}

impl Listing {
    /// Makes the list of no terms. It takes no memory.
    pub fn new(alloc: Global) -> Listing
        ensures { result ≡ [] }
    {
        Listing {
            alloc,
            listed: Vec::new(alloc),
            places: Vec::new(alloc),
            users: Vec::new(alloc),
        }
    }

    /// Lends the listed terms, oldest first. It takes no memory.
    pub fn all(&self) -> &[Listed]
        ensures { applications result.now ≡ self.now }
    {
        &self.listed
    }

    /// Counts the listed terms. It takes no memory.
    pub fn len(&self) -> u64
        ensures { result ≡ length self.now }
    {
        self.listed.len() as u64
    }

    /// Lends the listed term of a place. It takes no memory.
    pub fn at(&self, place: u64) -> &Listed
        requires { place < length self.now }
        ensures term { result.now.term ≡ (nth self.now place).term }
        ensures node { shape_of result.now.node ≡ (nth self.now place).shape }
        ensures part { result.now.takes_part ≡ (nth self.now place).takes_part }
    {
        &self.listed[place as usize]
    }

    /// Gives the place of a term, if it is listed. It takes no memory.
    pub fn place_of(&self, t: TermId) -> Option<u64>
        ensures { MatchOption result (IsListed self.now t → ⊥) (λ place. HasPlace self.now t place) }
    {
        if t.0 as usize >= self.places.len() {
            return None;
        }
        let place = self.places[t.0 as usize];
        if place as usize >= self.listed.len() {
            return None;
        }
        if self.listed[place as usize].term == t {
            Some(place)
        } else {
            None
        }
    }

    /// Lends places, among which are those of all listed terms that take part and have a term as an argument. It takes no memory.
    pub fn users_of(&self, t: TermId) -> &[u64]
        ensures { AreUsers self.now t result.now }
    {
        if (t.0 as usize) < self.users.len() {
            self.users[t.0 as usize].as_slice()
        } else {
            &[]
        }
    }

    /// Lists a term, as the last one, with a copy of its node. Where it takes no part it is no user of its arguments.
    ///
    /// `NoMemory` comes where it finds no memory; then the list is as it was.
    pub fn add(&mut self, term: TermId, node: &Node, takes_part: bool) -> Result<(), NoMemory>
        requires { IsListed self.old term → ⊥ }
        ensures ok { OnOk result (self.new ≡ self.old
            ++ record { term = term; shape = shape_of node.now; takes_part = takes_part } ∷ []) }
        ensures err { OnErr result (self.new ≡ self.old) }
    {
        let place = self.listed.len() as u64;
        let copy = Node::new(self.alloc, node.head, node.arguments.as_slice())?;
        self.listed.reserve(1)?;
        grow(&mut self.places, term)?;
        note_users(
            &mut self.users,
            self.alloc,
            used_by(node, takes_part),
            place,
        )?;
        self.places[term.0 as usize] = place;
        self.listed.push_reserved(Listed {
            term,
            node: copy,
            takes_part,
        });
        Ok(())
    }

    /// Keeps the oldest terms, so many of them. It takes no memory.
    pub fn cut(&mut self, count: usize)
        ensures { self.new ≡ take count self.old }
    {
        'newest: while self.listed.len() > count {
            let place = self.listed.len() - 1;
            drop_users(
                &mut self.users,
                self.listed[place].node.arguments.as_slice(),
                place as u64,
            );
            self.listed.truncate(place);
        }
    }
}
