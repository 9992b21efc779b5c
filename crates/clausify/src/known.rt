//! Terms that a search knows already.

ghost use Rattle.clausify.specs.Unmarking.{Unmarks};

use term_core::TermId;

/// Takes the marks of these numbers away. Numbers beyond the marks have none.
pub(crate) fn unmark(marks: &mut [bool], ids: &[TermId])
    ensures { Unmarks marks.old ids.now marks.new }
{
    'ids: for id in ids.iter() {
        if (id.0 as usize) < marks.len() {
            marks[id.0 as usize] = false;
        }
    }
}
