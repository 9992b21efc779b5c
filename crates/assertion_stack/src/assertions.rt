//! The asserted terms, in their order, and how they are written.

ghost use Rattle.std.specs.Prelude.{◌≡◌, ◌<◌, ◌++◌, [], ◌∷◌, length, take, option_map, slice_index_or, OnErr, OnOk};
ghost use Rattle.smt_sexpr.specs.Items.{tree_meant};
ghost use Rattle.assertion_stack.specs.Assertions.{no_assertions, no_written, as_written, written_meant, label_row, row_label};

use crate::labels::label_in;
use crate::rows::Rows;
use no_memory::NoMemory;
use smt_sexpr::{Trees, offset};
use std::alloc::Global;
use std::marker::Model;
use term_core::TermId;

/// Lends how an assertion is written.
///
/// Source: SMT-LIB 2.6, sections 3.6 and 4.2.5.
#[derive(Clone, Copy, Debug)]
pub struct Written<'a> {
    /// The text, as `print` prints it.
    pub text: &'a [u8],
    /// The offset of its first byte in the script, in bytes.
    pub at: u64,
    /// Its label: the first name that `:named` gives it, where the whole text is a term with attributes.
    pub label: Option<&'a [u8]>,
}

/// Holds the asserted terms by their numbers, oldest first, and how each is written.
///
/// For a term it takes 32 bytes, those of its text, and those of its label and one more where it has one; and as lists grow
/// by doubling, up to twice as many. Source: SMT-LIB 2.6, section 4.1.4.
#[derive(Drop)]
pub struct Assertions {
    ids: Vec<TermId>,
    texts: Rows,
    places: Vec<u64>,
    labels: Rows,
}

impl Model for Assertions {
    ghost use Rattle.std.specs.Prelude.{length};
    ghost use Rattle.assertion_stack.specs.Assertions.{AssertionsView, written_in, AreColumns};

    ghost Value = { AssertionsView };

    ghost view = { λ a. record {
      ids = a.ids.items;
      written = written_in a.texts a.places.items a.labels;
    } };

    ghost invariant = { λ a. AreColumns (length a.ids.items) a.texts a.places.items a.labels };
}

/// Puts a label last, as it is held.
fn put_label(labels: &mut Rows, label: Option<&[u8]>) -> Result<(), NoMemory>
    ensures added { OnOk result (labels.new ≡ labels.old ++ label_row (option_map (λ b. b.now) label.entry) ∷ []) }
    ensures same { OnErr result (labels.new ≡ labels.old) }
{
    match label {
        None => labels.add(b"", b""),
        Some(name) => labels.add(b":", name),
    }
}

/// Finds the label that is held so.
fn name_held<'a>(row: &'a [u8]) -> Option<&'a [u8]>
    ensures { option_map (λ b. b.now) result ≡ row_label row.now }
{
    if row.len() == 0 {
        return None;
    }
    Some(&row[1..])
}

impl Assertions {
    /// Makes the list without assertions. It takes no memory.
    pub fn new(alloc: Global) -> Assertions
        ensures { result ≡ no_assertions }
    {
        Assertions {
            ids: Vec::new(alloc),
            texts: Rows::new(alloc),
            places: Vec::new(alloc),
            labels: Rows::new(alloc),
        }
    }

    /// Lends the numbers of the asserted terms, oldest first.
    pub fn as_slice(&self) -> &[TermId]
        ensures { result.now ≡ self.now.ids }
    {
        self.ids.as_slice()
    }

    /// Lends how an asserted term is written, by its place from 0 among them.
    pub fn written(&self, place: usize) -> Written<'_>
        requires { place < length self.now.ids }
        ensures { written_meant result ≡ slice_index_or self.now.written place no_written }
    {
        Written {
            text: self.texts.row(place),
            at: self.places[place],
            label: name_held(self.labels.row(place)),
        }
    }

    /// Counts the asserted terms.
    pub fn len(&self) -> usize
        ensures { result ≡ length self.now.ids }
    {
        self.ids.len()
    }

    /// States that it says of each asserted term how it is written.
    pub fn each_has_its_text(&self)
        ensures { length self.now.written ≡ length self.now.ids }
    {
        let _ = &self.ids;
    }

    /// Puts a term last, and how it is written: as the first tree is.
    ///
    /// `NoMemory` may come at any allocation; then all is as it was.
    pub fn add(&mut self, alloc: Global, id: TermId, tree: Trees<'_>) -> Result<(), NoMemory>
        ensures added { OnOk result (self.new
            ≡ record self.old {
              ids = self.old.ids ++ id ∷ [];
              written = self.old.written ++ as_written (tree_meant tree.entry) ∷ [];
            }) }
        ensures same { OnErr result (self.new ≡ self.old) }
    {
        let len = self.ids.len();
        self.ids.reserve(1)?;
        self.places.reserve(1)?;
        put_label(&mut self.labels, label_in(tree))?;
        if let Err(_) = self.texts.add_printed(alloc, tree) {
            self.labels.cut(len);
            return Err(NoMemory);
        }
        self.places.push_reserved(offset(tree));
        self.ids.push_reserved(id);
        Ok(())
    }

    /// Takes away all terms after the first `len`, with how they are written; none where there are no more. It takes no memory.
    pub fn cut(&mut self, len: usize)
        ensures { self.new ≡ record { ids = take len self.old.ids; written = take len self.old.written } }
    {
        self.ids.truncate(len);
        self.texts.cut(len);
        self.places.truncate(len);
        self.labels.cut(len);
    }
}
