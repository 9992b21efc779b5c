//! How the equalities of a case join terms.

ghost use Rattle.term_core.specs.Tables.{IsIn};

use crate::cases::{Link, links_in};
use crate::lead::Chain;
use indexmap::IndexSet;
use no_memory::NoMemory;
use std::alloc::Global;
use term_core::{TermId, TermTable};

/// Says how many equalities a chain may have. So all chains take time and memory in proportion to the disjunctions.
const MOST_LINKS: usize = 64;

/// Holds how a term was reached.
#[derive(Clone, Copy, Debug, PartialEq, Eq)]
struct Branch {
    /// The term from which all that it is joined with was reached.
    root: TermId,
    /// The equality that leads one step back to the root; nothing at the root itself.
    up: Option<Link>,
}

/// Holds the terms that the equalities of a case are about, in trees: two are in one tree where the equalities join them.
#[derive(Drop)]
pub(crate) struct CaseForest {
    /// The case.
    case: TermId,
    /// The terms, in the order in which they were reached.
    terms: IndexSet<TermId>,
    /// How each was reached.
    branches: Vec<Branch>,
}

impl CaseForest {
    /// Makes the forest of a case, by a search in breadth from each term that no earlier one reached, the least first.
    ///
    /// It takes time in proportion to the arguments of the case, but for sorting. `NoMemory` comes where memory ran out.
    pub(crate) fn of_case(
        alloc: Global,
        table: &TermTable,
        case: TermId,
    ) -> Result<CaseForest, NoMemory>
        requires { IsIn table.now case }
    {
        let links = links_in(alloc, table, case)?;
        let mut forest = CaseForest {
            case,
            terms: IndexSet::new(alloc),
            branches: Vec::new(alloc),
        };
        'links: for link in links.iter() {
            forest.grow_from(&links, link.from)?;
        }
        Ok(forest)
    }

    /// Reaches all that is joined with a term, unless it was reached before. There are no more terms than links, since one leads from
    /// each.
    fn grow_from(&mut self, links: &[Link], root: TermId) -> Result<(), NoMemory> {
        let start = self.terms.len();
        self.reach(root, Branch { root, up: None })?;
        'places: for place in start..links.len() {
            let Some(term) = self.term(place) else {
                return Ok(());
            };
            self.grow_by(links, root, term)?;
        }
        Ok(())
    }

    /// Gives the term that was reached at that place, from 0.
    fn term(&self, place: usize) -> Option<TermId> {
        match self.terms.get_index(place) {
            None => None,
            Some(term) => Some(*term),
        }
    }

    /// Reaches what one equality leads to from a term.
    fn grow_by(&mut self, links: &[Link], root: TermId, term: TermId) -> Result<(), NoMemory> {
        let first = links.partition_point(|link| link.from.0 < term.0);
        'links: for at in first..links.len() {
            let link = links[at];
            if link.from != term {
                return Ok(());
            }
            let back = Link {
                from: link.to,
                to: term,
                equality: link.equality,
            };
            self.reach(
                link.to,
                Branch {
                    root,
                    up: Some(back),
                },
            )?;
        }
        Ok(())
    }

    /// Notes how a term was reached, where it is the first time.
    fn reach(&mut self, term: TermId, branch: Branch) -> Result<(), NoMemory> {
        let (_, is_new) = self.terms.insert_full(term)?;
        if is_new {
            self.branches.push(branch)?;
        }
        Ok(())
    }

    /// Says how a term was reached; nothing where none of the equalities is about it.
    fn branch(&self, term: TermId) -> Option<Branch> {
        let place = self.terms.get_index_of(&term)?;
        match self.branches.get(place) {
            None => None,
            Some(branch) => Some(*branch),
        }
    }

    /// Lends the terms, each once.
    pub(crate) fn terms(&self) -> &[TermId] {
        self.terms.as_slice()
    }

    /// Says the root of a term's tree; nothing where none of the equalities is about it. It takes no memory.
    pub(crate) fn root(&self, term: TermId) -> Option<TermId> {
        match self.branch(term) {
            None => None,
            Some(branch) => Some(branch.root),
        }
    }

    /// Says at which place a term was reached, from 0; also 0 where it was not.
    fn place(&self, term: TermId) -> usize {
        match self.terms.get_index_of(&term) {
            None => 0,
            Some(place) => place,
        }
    }

    /// Gives the term one step nearer to the root, and adds the equality that leads there. A root stays.
    fn go_up(&self, term: TermId, way: &mut Vec<TermId>) -> Result<TermId, NoMemory> {
        let Some(branch) = self.branch(term) else {
            return Ok(term);
        };
        let Some(link) = branch.up else {
            return Ok(term);
        };
        way.push(link.equality)?;
        Ok(link.to)
    }

    /// Lists the equalities of the way from one term to another; nothing where no way is as short as `MOST_LINKS` in their tree.
    ///
    /// Of two terms the one that was reached later is not above the other, so it goes up, until both have met. That takes time in
    /// proportion to the way. `NoMemory` comes where memory ran out.
    pub(crate) fn chain(
        &self,
        alloc: Global,
        left: TermId,
        right: TermId,
    ) -> Result<Option<Chain>, NoMemory> {
        let mut equalities = Vec::new(alloc);
        let mut back = Vec::new(alloc);
        let mut here = left;
        let mut there = right;
        'steps: for _ in 0..MOST_LINKS {
            if here == there {
                break;
            }
            if self.place(here) > self.place(there) {
                here = self.go_up(here, &mut equalities)?;
            } else {
                there = self.go_up(there, &mut back)?;
            }
        }
        if here != there {
            return Ok(None);
        }
        'back: for equality in back.iter().rev() {
            equalities.push(*equality)?;
        }
        Ok(Some(Chain {
            case: self.case,
            equalities,
        }))
    }
}
