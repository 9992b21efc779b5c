//! What is open while a text is read.

ghost use Rattle.std.specs.Prelude.{◌≡◌};
ghost use Rattle.smt_sexpr.specs.Items.{trees_meant};
ghost use Rattle.term_core.specs.Tables.{TableView};
ghost use Rattle.term_reader.specs.Scopes.{ScopeView};
ghost use Rattle.sort_check.specs.Walks.{here, started};

use crate::applied::Called;
use crate::bindings::Bindings;
use smt_sexpr::Trees;
use std::alloc::Global;
use term_core::TermId;

/// Says what is done with the terms of a row once they are read.
#[derive(Clone, Copy, Debug)]
pub enum Opened<'a> {
    /// A name is put before them.
    Applies(Called<'a>),
    /// The one term is bound to a name; then come the bindings that are left, and the body. The number says how many
    /// names waited before those of this `let`.
    Binds(&'a [u8], Trees<'a>, Trees<'a>, usize),
    /// The one term is the body under bindings: so many names were bound before them.
    Body(usize),
    /// The one term gets the names that attributes give it: the offset of the whole, the term's text, and the attributes.
    Annotates(u64, Trees<'a>, Trees<'a>),
}

/// Holds a list in which a row of texts is read.
#[derive(Clone, Copy, Debug)]
pub struct Frame<'a> {
    /// What is done with the row's terms.
    pub opened: Opened<'a>,
    /// How many terms were read before them.
    pub from: usize,
    /// What is after the list, in the row around it.
    pub after: Trees<'a>,
}

/// Holds how far a text is read.
#[derive(Drop)]
pub struct Walk<'a> {
    /// The open lists, the outermost first.
    pub frames: Vec<Frame<'a>>,
    /// The terms that were read, and wait for the list around them.
    pub values: Vec<TermId>,
    /// The names that are bound.
    pub bound: Bindings,
    /// The names of bindings that were read, of each `let` whose bindings are not all read.
    pub waiting: Bindings,
    /// The terms that got names, in their order.
    pub named: Vec<TermId>,
    /// What is left of the innermost row.
    pub rest: Trees<'a>,
}

/// Begins to read a row of texts under bound names.
pub fn begin<'a>(alloc: Global, bound: Bindings, rest: Trees<'a>) -> Walk<'a>
    ensures { (t : TableView) (v : ScopeView) → here t v result ≡ started t v bound (trees_meant rest.entry) }
{
    Walk {
        frames: Vec::new(alloc),
        values: Vec::new(alloc),
        bound,
        waiting: Bindings::new(alloc),
        named: Vec::new(alloc),
        rest,
    }
}
