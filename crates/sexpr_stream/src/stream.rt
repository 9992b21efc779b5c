//! A text that comes in pieces, and what is next in it.

ghost use Rattle.std.specs.Prelude.{◌≡◌, ◌+◌, ◌-◌, ◌≤◌, ◌^◌, ◌++◌, [], length, min, true, false, OnOk, OnErr};
ghost use Rattle.spec_text.specs.Places.{IsPlaceOf};
ghost use Rattle.spec_text.specs.Readings.{text_limit, kept, prefix};
ghost use Rattle.stream_scan.specs.Scanning.{scanned_from};
ghost use Rattle.stream_scan.specs.declared.Scan.TheVariants as scans;

use crate::item::end_of;
use no_memory::NoMemory;
use smt_lexer::start;
use smt_sexpr::{LimitedText, Place, Refused, Sexpr, TEXT_LIMIT};
use std::alloc::Global;
use stream_scan::{Pending, Scan, scan_on};

/// What is next in a text that comes in pieces. Own.
#[derive(Drop)]
pub enum NextItem<'a> {
    /// An s-expression, and the place right after its last byte. Each text that goes on so has it next.
    Item(Sexpr<'a>, Place),
    /// What is next depends on bytes that may come.
    More,
    /// The end: only white space and comments are left.
    Done,
}

/// A text that comes in pieces. It keeps the bytes of it that are read, and knows up to which place they were taken.
///
/// Of the text the first 2^30 bytes are read, and one more is kept, by which it has more.
#[derive(Drop)]
pub struct Stream {
    /// The bytes that were fed, up to the first that is not read.
    bytes: Vec<u8>,
    /// How many were fed, 2^64 - 1 where they are more.
    fed: u64,
    /// The place up to which they were taken.
    place: Place,
    /// What the bytes from there on tell of what is next.
    scan: Scan,
    /// Whether no more come.
    closed: bool,
    /// The place is one of the bytes that are read.
    pub ghost placed: { IsPlaceOf (kept bytes.items) place },
    /// One byte at most is kept that is not read.
    pub ghost small: { length bytes.items ≤ text_limit + 1 },
    /// No byte is kept that was not fed.
    pub ghost counted: { length bytes.items ≤ fed },
    /// The scan is that of the bytes from the place on.
    pub ghost scans: { scan ≡ scanned_from bytes.items place.offset },
}

impl Stream {
    ghost use Rattle.sexpr_stream.specs.Streams.{bytes_of, taken_to, is_fixed, IsNextItem, IsSame, WantsMore};

    /// Makes a text of which nothing came yet. It takes no memory; `feed` takes it from this allocator.
    pub fn new(alloc: Global) -> Stream
        ensures bytes { bytes_of result ≡ [] }
        ensures count { result.fed ≡ 0 }
        ensures place { result.place.offset ≡ 0 }
        ensures open { result.closed ≡ false }
    {
        Stream {
            bytes: Vec::new(alloc),
            fed: 0,
            place: start(),
            scan: Scan::Open(Pending::Blank, 0),
            closed: false,
        }
    }

    /// Adds a piece of any length at the end. It takes time linear in the piece, and looks at no byte that came before.
    ///
    /// `NoMemory` comes where no memory is left for it: then nothing was added, and all is as it was.
    pub fn feed(&mut self, piece: &[u8]) -> Result<(), NoMemory>
        ensures bytes { OnOk result (bytes_of self.new ≡ prefix (bytes_of self.old ++ piece.now)) }
        ensures count { OnOk result (self.new.fed ≡ min (self.old.fed + length piece.now) (2 ^ 64 - 1)) }
        ensures place { self.new.place ≡ self.old.place }
        ensures closed { self.new.closed ≡ self.old.closed }
        ensures same { OnErr result (IsSame self.old self.new) }
    {
        let size = (TEXT_LIMIT + 1 - self.bytes.len()).min(piece.len());
        let added = &piece[..size];
        self.bytes.extend_from_slice(added)?;
        self.scan = scan_on(self.scan, added);
        self.fed = self.fed.saturating_add(piece.len() as u64);
        Ok(())
    }

    /// Says that no more bytes come.
    pub fn close(&mut self)
        ensures bytes { bytes_of self.new ≡ bytes_of self.old }
        ensures count { self.new.fed ≡ self.old.fed }
        ensures place { self.new.place ≡ self.old.place }
        ensures closed { self.new.closed ≡ true }
    {
        self.closed = true;
    }

    /// Counts the bytes that were fed and are not taken yet. It is exact where fewer than 2^64 - 1 were fed.
    pub fn held(&self) -> u64
        ensures { result ≡ self.now.fed - taken_to self.now }
    {
        self.fed - self.place.offset
    }

    /// Tells whether something is next in each text that goes on as the bytes do.
    fn is_due(&self) -> bool
        ensures more { result ≡ false → WantsMore self.now }
        ensures due { result ≡ true → is_fixed self.now ≡ false → self.now.scan ≡ scans.Settled }
    {
        stream_scan::settled_trees_and_faults_stay();
        stream_scan::scanning_is_exact();
        if self.closed || self.bytes.len() > TEXT_LIMIT {
            return true;
        }
        match self.scan {
            Scan::Settled => true,
            Scan::Open(_, _) => false,
        }
    }

    /// Gives what is next from the place on up to which the bytes were taken, and changes nothing. It lends the s-expression
    /// from the bytes, and takes time linear in what it reads. Where it answers `More` it reads nothing.
    ///
    /// Below, a text that goes on so is any that begins with the bytes that were fed. After `close`, or where more than 2^30
    /// bytes were fed, it is the text of the first 2^30 of them alone.
    ///
    /// - `Item` comes exactly where each text that goes on so has that s-expression next. A list is settled at its closing
    ///   parenthesis, a quoted symbol at its closing bar, and any other word at the byte after it.
    /// - `Done` comes exactly where no more bytes come, all were read, and only white space and comments are left.
    /// - `Fault` comes exactly where each text that goes on so has that fault next, with the place that `LimitedText::next`
    ///   gives it. `UnclosedString`, `UnclosedQuote` and `UnclosedList` come after `close` alone. Where more than 2^30 bytes
    ///   were fed, `TooLong` comes once what is whole before it was taken.
    /// - `Memory` means that an allocation was refused. No clause says when it comes, and it says nothing of the text.
    /// - `More` comes in all other cases: then no one outcome is that of each text that goes on so.
    ///
    /// Source: SMT-LIB 2.6, section 3.2; what is next before a text ends is own.
    pub fn next(&self, alloc: Global) -> Result<NextItem<'_>, Refused>
        ensures { IsNextItem self.now result }
    {
        stream_scan::settled_trees_and_faults_stay();
        if !self.is_due() {
            return Ok(NextItem::More);
        }
        let text = LimitedText::new(self.bytes.as_slice());
        match text.next_one(alloc, self.place) {
            Ok(Some((s, _))) => {
                let after = s.place(end_of(s.items()[0]));
                Ok(NextItem::Item(s, after))
            }
            Ok(None) => Ok(NextItem::Done),
            Err(reason) => Err(reason),
        }
    }

    /// Takes the bytes up to a place of those that are read, which is that after the s-expression that `next` gave. It takes
    /// time linear in the bytes from there on, up to the one that settles what is next, and frees no memory.
    pub fn advance(&mut self, after: Place)
        requires { IsPlaceOf (kept (bytes_of self.old)) after }
        ensures place { self.new.place ≡ after }
        ensures bytes { bytes_of self.new ≡ bytes_of self.old }
        ensures count { self.new.fed ≡ self.old.fed }
        ensures closed { self.new.closed ≡ self.old.closed }
    {
        self.scan = scan_on(
            Scan::Open(Pending::Blank, 0),
            &self.bytes[after.offset as usize..],
        );
        self.place = after;
    }
}
