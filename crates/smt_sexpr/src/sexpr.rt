//! S-expressions with the text that they are in.

ghost use Rattle.spec_text.specs.Places.{IsPlaceOf};
ghost use Rattle.smt_sexpr.specs.Means.{AreRead};
ghost use Rattle.std.proofs.Props.{props};

use crate::items::{Item, Trees};
use smt_lexer::{Place, place_after};
use spec_text::laws::trees_are_in_their_text;

/// An s-expression, by the text that it was read from. It means one tree, whose offsets are those of the text.
/// Source: SMT-LIB 2.6, section 3.2.
#[derive(Drop)]
pub struct Sexpr<'a> {
    /// The whole text that it is in.
    pub(crate) text: &'a [u8],
    /// The place of its first byte.
    pub(crate) start: Place,
    /// Its items, in the order of the text.
    pub(crate) items: Vec<Item>,
    /// It begins in the text.
    pub ghost placed: { IsPlaceOf text.now start },
    /// Its items are those of a tree that is there.
    pub ghost read: { AreRead text.now start.offset items.items } by { Prim.hlevel props },
}

impl<'a> Sexpr<'a> {
    ghost use Rattle.std.specs.Prelude.{◌≡◌, ◌≤◌, ◌<◌, length};
    ghost use Rattle.spec_text.specs.Offsets.{AllOffsets};
    ghost use Rattle.spec_text.specs.Trees.{more, none};
    ghost use Rattle.smt_sexpr.specs.Items.{text_of, items_of, start_of, tree_of, trees_meant, tree_meant};

    /// Lends the whole text that it was read from.
    pub fn text(&self) -> &'a [u8]
        ensures { result.now ≡ text_of self.now }
    {
        self.text
    }

    /// Lends its items, which mean the one tree that it is.
    pub fn items(&self) -> &[Item]
        ensures { result.now ≡ items_of self.now }
    {
        self.items.as_slice()
    }

    /// Gives the one tree that it is.
    pub fn trees(&self) -> Trees<'_>
        ensures tree { tree_meant result ≡ tree_of self.now }
        ensures alone { trees_meant result ≡ more (tree_of self.now) none }
    {
        Trees {
            text: self.text,
            items: self.items.as_slice(),
        }
    }

    /// Gives the place of its first byte.
    pub fn start(&self) -> Place
        ensures place { IsPlaceOf (text_of self.now) result }
        ensures offset { result.offset ≡ start_of self.now }
    {
        self.start
    }

    /// Gives the place of an offset of the text, from its first byte on up to the end of the text. It takes time linear in
    /// the number of bytes between them.
    pub fn place(&self, offset: u64) -> Place
        requires behind { start_of self.now ≤ offset }
        requires within { offset ≤ length (text_of self.now) }
        ensures place { IsPlaceOf (text_of self.now) result }
        ensures offset { result.offset ≡ offset }
    {
        place_after(self.text, self.start, (offset - self.start.offset) as usize)
    }

    /// States that each offset of its tree lies in the text, from its own first byte on, and so has a place. It computes
    /// nothing.
    pub fn offsets_have_places(&self)
        ensures { AllOffsets (λ n. (start_of self.now ≤ n) × (n < length (text_of self.now))) (tree_of self.now) }
    {
        trees_are_in_their_text();
    }
}
