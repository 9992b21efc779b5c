//! Names that hide each other.

ghost use Rattle.std.specs.Prelude.{◌≡◌, false, ◌<◌, [], ◌∷◌, ◌++◌, length, take, slice_index_or, MatchOption, IfOk, OnErr, OnOk};
ghost use Rattle.spec_text.specs.Bytes.{among};
ghost use Rattle.term_reader.specs.NameStacks.{IsLatest, MeetsName};

use no_memory::NoMemory;
use std::alloc::Global;
use std::marker::Model;
use term_core::NameTable;

/// Holds one name of a stack: its number among all names that were met, and where it was last before.
#[derive(Clone, Copy, Debug, PartialEq, Eq)]
pub(crate) struct NameEntry {
    /// The name's number.
    pub number: u64,
    /// One more than the place of the name's latest entry before this; 0 where it has none.
    pub hidden: u64,
}

/// Holds names in the order in which they came. A name may come again, and hides its earlier entries then.
///
/// A look-up is by hash and takes no memory. Names that were taken away keep the memory of their bytes.
#[derive(Drop)]
pub struct NameStack {
    met: NameTable,
    latest: Vec<u64>,
    places: Vec<NameEntry>,
}

// The number of a name among those that were met, which it gets where it was not met before.
fn number_of(met: &mut NameTable, latest: &mut Vec<u64>, name: &[u8]) -> Result<u64, NoMemory>
    ensures there { IfOk result (λ k. (k < length met.new) × (slice_index_or met.new k [] ≡ name.now)) }
    ensures kept { OnOk result (MeetsName met.old latest.old.items met.new latest.new.items) }
    ensures same { OnErr result ((met.new ≡ met.old) × (latest.new.items ≡ latest.old.items)) }
{
    if let Some(number) = met.find(name) {
        return Ok(number);
    }
    let number = met.len();
    latest.reserve(1)?;
    met.add(name)?;
    latest.push_reserved(0);
    Ok(number)
}

impl Model for NameStack {
    ghost use Rattle.std.specs.Prelude.{List};
    ghost use Rattle.spec_text.specs.Bytes.{Name};
    ghost use Rattle.term_reader.specs.NameStacks.{names_at, IsStack};

    ghost Value = { List Name };

    ghost view = { λ s. names_at s.met s.places.items };

    ghost invariant = { λ s. IsStack s.met s.latest.items s.places.items };
}

impl NameStack {
    /// Makes a stack without names, which takes no memory before the first of them.
    pub fn new(alloc: Global) -> NameStack
        ensures { result ≡ [] }
    {
        NameStack {
            met: NameTable::new(alloc),
            latest: Vec::new(alloc),
            places: Vec::new(alloc),
        }
    }

    /// Counts the names.
    pub fn len(&self) -> usize
        ensures { result ≡ length self.now }
    {
        self.places.len()
    }

    /// Finds the latest place of a name, from 0; `None` where it is none of these.
    pub fn find(&self, name: &[u8]) -> Option<usize>
        ensures { MatchOption result (among self.now name.now ≡ false) (λ k. IsLatest self.now name.now k) }
    {
        self.met.no_name_twice();
        match self.met.find(name) {
            None => None,
            Some(number) => {
                let place = self.latest[number as usize];
                if place == 0 {
                    return None;
                }
                Some(place as usize - 1)
            }
        }
    }

    /// Says the name of a place.
    pub fn name(&self, place: usize) -> &[u8]
        requires { place < length self.now }
        ensures { result.now ≡ slice_index_or self.now place [] }
    {
        self.met.name(self.places[place].number)
    }

    /// Puts a name last, by a copy of its bytes where it was not met before.
    ///
    /// `NoMemory` comes where the copy or its place find no memory; then the names are as they were.
    pub fn push(&mut self, name: &[u8]) -> Result<(), NoMemory>
        ensures added { OnOk result (self.new ≡ self.old ++ name.now ∷ []) }
        ensures same { OnErr result (self.new ≡ self.old) }
    {
        self.places.reserve(1)?;
        let number = number_of(&mut self.met, &mut self.latest, name)?;
        let hidden = self.latest[number as usize];
        self.places.push_reserved(NameEntry { number, hidden });
        self.latest[number as usize] = self.places.len() as u64;
        Ok(())
    }

    /// Takes away all names after the first `len`, none where there are no more. It takes no memory.
    pub fn back(&mut self, len: usize)
        ensures { self.new ≡ take len self.old }
    {
        'names: while self.places.len() > len {
            if let Some(last) = self.places.pop() {
                self.latest[last.number as usize] = last.hidden;
            }
        }
    }
}
