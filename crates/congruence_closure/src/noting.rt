//! Terms that come to be true or false by the classes. No contract sees which are noted.

ghost use Rattle.std.specs.Prelude.{◌≡◌, ◌<◌, length};

use crate::parts::ClosureParts;
use no_memory::NoMemory;
use term_core::{Lit, TermId};

impl ClosureParts {
    /// Tells whether a term is true or false by the classes, where they say so. It is true or false in the class of that truth value, and
    /// true as an equality with linked sides. It takes no memory.
    pub(crate) fn truth(&self, t: TermId) -> Option<bool> {
        if self.same(t, self.truths.true_term) {
            return Some(true);
        }
        if self.same(t, self.truths.false_term) {
            return Some(false);
        }
        let Some(place) = self.listing.place_of(t) else {
            return None;
        };
        if self.takes_part_at(place) && self.has_linked_sides(place) {
            return Some(true);
        }
        None
    }

    /// Tells whether a term is in the class of a truth value. It takes no memory.
    fn is_decided(&self, t: TermId) -> bool {
        self.same(t, self.truths.true_term) || self.same(t, self.truths.false_term)
    }

    /// Notes what comes into the class of a truth value where the classes of two terms are joined. A term that is alone in its class and
    /// is held is left out.
    ///
    /// `NoMemory` comes where the notes find no memory. What contracts see is as it was.
    pub(crate) fn note_decided(
        &mut self,
        a: TermId,
        b: TermId,
        why: Option<Lit>,
    ) -> Result<(), NoMemory>
        requires a { a.0 < length self.old.now.numbers }
        requires b { b.0 < length self.old.now.numbers }
        ensures { self.new ≡ self.old }
    {
        let of_a = self.is_decided(a);
        if of_a == self.is_decided(b) {
            return Ok(());
        }
        let t = if of_a { b } else { a };
        if why.is_some() && self.classes.size_of(t) == 1 {
            return Ok(());
        }
        let members = self.classes.members(t)?;
        self.noted.extend_from_slice(&members)?;
        Ok(())
    }
}
