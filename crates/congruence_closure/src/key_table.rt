//! The table of keys.

ghost use Rattle.std.specs.Prelude.{◌≡◌, ◌<◌, [], length, All, OnErr, IfOk};
ghost use Rattle.term_core.specs.Tables.{shape_of};
ghost use Rattle.term_core.specs.declared.ids.TermId.{TermId as Number};
ghost use Rattle.congruence_closure.specs.Keys.{key_of, oldest, AreKeys, IsLookedUp};

use class_table::ClassTable;
use indexmap::IndexSet;
use no_memory::NoMemory;
use smallvec::SmallVec;
use std::alloc::Global;
use std::marker::Model;
use term_core::{Node, TermId};

/// Makes the key of a node: its head, and for each argument its class's number.
///
/// `NoMemory` comes where more than three arguments find no memory.
pub(crate) fn key_of(alloc: Global, classes: &ClassTable, node: &Node) -> Result<Node, NoMemory>
    requires { All (λ (a : Number). a.0 < length classes.now.numbers) node.now.arguments.items }
    ensures { IfOk result (λ key. shape_of key ≡ key_of classes.now.numbers (shape_of node.now)) }
{
    let mut arguments = SmallVec::new(alloc);
    'arguments: for a in node.arguments.as_slice() {
        arguments.push(TermId(classes.class_of(*a)))?;
    }
    Ok(Node {
        head: node.head,
        arguments,
    })
}

/// Holds keys, each once, and for each the place of the listed term that has it.
#[derive(Drop)]
pub(crate) struct KeyTable {
    /// The keys, oldest first.
    keys: IndexSet<Node>,
    /// The holder of each.
    holders: Vec<u64>,
}

impl Model for KeyTable {
    ghost use Rattle.term_core.specs.Tables.{shapes_of};
    ghost use Rattle.congruence_closure.specs.Keys.{Keys, AreKeys};

    ghost Value = { Keys };

    ghost view = { λ t. record { shapes = shapes_of t.keys.keys; holders = t.holders.items } };

    ghost invariant = { λ t. AreKeys (record { shapes = shapes_of t.keys.keys; holders = t.holders.items }) };
}

impl KeyTable {
    /// Makes the table of no keys. It takes no memory.
    pub fn new(alloc: Global) -> KeyTable
        ensures { result ≡ record { shapes = []; holders = [] } }
    {
        KeyTable {
            keys: IndexSet::new(alloc),
            holders: Vec::new(alloc),
        }
    }

    /// Counts the keys. It takes no memory.
    pub fn len(&self) -> usize
        ensures len { result ≡ length self.now.shapes }
        ensures keys { AreKeys self.now }
    {
        self.keys.len()
    }

    /// Gives the holder of a key, or puts the key with this one where it has none.
    ///
    /// `NoMemory` comes where it finds no memory; then the table is as it was.
    pub fn look_up(&mut self, key: Node, place: u64) -> Result<Option<u64>, NoMemory>
        ensures ok { IfOk result (λ holder. IsLookedUp self.old (shape_of key) place holder self.new) }
        ensures err { OnErr result (self.new ≡ self.old) }
    {
        self.holders.reserve(1)?;
        let (at, is_new) = self.keys.insert_full(key)?;
        if !is_new {
            return Ok(Some(self.holders[at]));
        }
        self.holders.push_reserved(place);
        Ok(None)
    }

    /// Keeps the oldest keys, so many of them. It takes no memory.
    pub fn cut(&mut self, count: usize)
        ensures { self.new ≡ oldest count self.old }
    {
        self.keys.truncate(count);
        self.holders.truncate(count);
    }
}
