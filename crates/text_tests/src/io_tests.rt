//! Shelves and sinks: which calls fail, what is read and written, and that real files and standard output are reached.

ghost use Rattle.std.specs.Prelude.{◌≡◌, ◌≢◌, ◌<◌, ◌≤◌, ◌++◌, [], length, IfOk, IfSome, IsOk, IsSome};
ghost use Rattle.world_io.specs.Ends.{IsReadTo};
ghost use Rattle.world_io.specs.Memory.{text_named};

use crate::rows::{bytes_of, number, numbers};
use no_memory::NoMemory;
use std::alloc::Global;
use std::fs;
use std::test::Fail;
use world_io::{
    BufferedSink, Bytes, Failed, HostShelf, HostSink, MemShelf, MemSink, ReadEnd, ReadStop, Shelf,
    Sink, read_all, write_all, write_pieces,
};

const FOLDER: &str = "made-by-reading-tests";

const ABSENT: &str = "made-by-reading-tests/absent.txt";

const FILE: &str = "made-by-reading-tests/abc.txt";

/// The name that is begun, `-` where none is; the limit; how many bytes a read gives at most; the calls that are to fail; whether the
/// text is then read whole, cut or not at all; and what is read. Call 0 is `begin`.
const READS: &str = "a\t0\t9\t\tcut\t
a\t5\t9\t\tcut\tabcde
a\t6\t9\t\twhole\tabcdef
a\t7\t9\t\twhole\tabcdef
a\tmost\t9\t\twhole\tabcdef
a\t0\t1\t\tcut\t
a\t5\t1\t\tcut\tabcde
a\t6\t1\t\twhole\tabcdef
a\t7\t1\t\twhole\tabcdef
a\t100\t4\t1\tfailed\t
a\t100\t4\t2\tfailed\t
a\t100\t4\t3\tfailed\t
a\t100\t0\t9\tfailed\t
-\t100\t4\t\twhole\t";

/// How many bytes a read gives at most, the calls that are to fail, the name that is begun, and the first call that fails, `-` for
/// none. Call 0 is `begin`; a read of at most 4 bytes gives 4, 2 and 0.
const CALLS: &str = "4\t\ta\t-
4\t9\ta\t-
4\t0\ta\t0
4\t1\ta\t1
4\t3 2\ta\t2
4\t3\ta\t3
0\t9\ta\t1
4\t\tb\t0
4\t\t\t-";

/// The room of a sink, how many bytes a write takes at most, the writes that are to fail, whether `abc`, nothing and `def` are
/// written, and what then is.
const ROOMS: &str = "8\t9\t\tok\tabcdef
6\t9\t\tok\tabcdef
5\t9\t\tfailed\tabcde
0\t9\t\tfailed\t
6\t1\t\tok\tabcdef
6\t0\t\tfailed\t
6\t9\t0\tfailed\t
6\t2\t2\tfailed\tabc
6\t9\t1\tfailed\tabc";

/// How many bytes a write to the sink after the buffer takes at most, the write of it that is to fail, and then what is done and
/// seen, a step in each part: after `+` what is written without a fault, `flush` with or without one, after `=` all bytes that the
/// sink has got.
const BUFFERED: &str =
    "20000\t1\t+sat\t=\t+\t=\t+`10`\t=\t+unsat`10`\t=\tflush\t=sat`10`unsat`10`\tflush\t=sat`10`unsat`10`
20000\t2\t+`3000 a`\t=\t+`3000 a`\t=`4096 a`\t+`3000 a`\t=`8192 a`\tflush failed\t=`8192 a`\tflush\t=`9000 a`
1\t0\t+0123456789\tflush failed\t=\t+x\tflush\t=0123456789x
1\t1\t+0123456789\tflush failed\t=0\t+x\tflush\t=0123456789x
1\t2\t+0123456789\tflush failed\t=01\t+x\tflush\t=0123456789x
1\t3\t+0123456789\tflush failed\t=012\t+x\tflush\t=0123456789x
1\t4\t+0123456789\tflush failed\t=0123\t+x\tflush\t=0123456789x
1\t5\t+0123456789\tflush failed\t=01234\t+x\tflush\t=0123456789x
1\t6\t+0123456789\tflush failed\t=012345\t+x\tflush\t=0123456789x
1\t7\t+0123456789\tflush failed\t=0123456\t+x\tflush\t=0123456789x
1\t8\t+0123456789\tflush failed\t=01234567\t+x\tflush\t=0123456789x
1\t9\t+0123456789\tflush failed\t=012345678\t+x\tflush\t=0123456789x";

/// Makes a shelf with one text `abcdef` under the name `a`, and an empty one under the empty name.
fn shelf_of(alloc: Global, most: u64, failing: &str) -> Result<MemShelf, NoMemory> {
    let mut texts = Vec::new(alloc);
    let text = Vec::from_slice(alloc, b"abcdef")?;
    texts.push((String::from_str(alloc, "a")?, Bytes::from(text)))?;
    texts.push((String::from_str(alloc, "")?, Bytes::from(Vec::new(alloc))))?;
    MemShelf::new(alloc, texts, most, numbers(alloc, failing)?)
}

/// Reads a text in memory: no fault comes where none is asked for.
fn read_named(
    alloc: Global,
    shelf: &mut MemShelf,
    name: &str,
    limit: u64,
) -> Result<ReadEnd, ReadStop>
    ensures sound { shelf.old.failing ≡ [] → 0 < shelf.old.most → IsSome (text_named shelf.old.texts name.now)
        → result ≢ Err ReadStop.Failed }
    ensures end { IfOk result (λ end. IfSome (text_named shelf.old.texts name.now) (IsReadTo limit end)) }
{
    shelf.begin(name)?;
    read_all(alloc, shelf, limit)
}

/// Writes to a sink in memory: no fault comes where none is asked for and there is room.
fn write_within(out: &mut MemSink, bytes: &[u8]) -> Result<(), Failed>
    ensures sound { out.old.failing ≡ [] → 0 < out.old.most → length bytes.now ≤ out.old.room
        → IsOk result × (out.new.written ≡ out.old.written ++ bytes.now) }
{
    write_all(out, bytes)
}

/// Gives the word and the bytes of what reading came to.
fn came_to<'a>(got: &'a Result<ReadEnd, ReadStop>) -> Result<(&'static str, &'a [u8]), NoMemory> {
    match got {
        Ok(ReadEnd::Whole(bytes)) => Ok(("whole", bytes.as_slice())),
        Ok(ReadEnd::Cut(bytes)) => Ok(("cut", bytes.as_slice())),
        Err(ReadStop::Failed) => Ok(("failed", b"")),
        Err(ReadStop::Memory) => Err(NoMemory),
    }
}

/// Tells whether a text is read as its row says.
fn is_read_so(alloc: Global, row: &str) -> Result<bool, NoMemory> {
    let mut parts = row.split('\t');
    let name = parts.next().unwrap_or("");
    let limit = number(parts.next().unwrap_or(""));
    let most = number(parts.next().unwrap_or(""));
    let mut shelf = shelf_of(alloc, most, parts.next().unwrap_or(""))?;
    let got = if name == "-" {
        read_all(alloc, &mut shelf, limit)
    } else {
        read_named(alloc, &mut shelf, name, limit)
    };
    let (kind, bytes) = came_to(&got)?;
    Ok(kind == parts.next().unwrap_or("") && bytes == parts.next().unwrap_or("").as_bytes())
}

/// Begins a text and reads three times, and gives the number of the first call that fails, the greatest number where none does.
fn first_failing(shelf: &mut MemShelf, name: &str) -> u64 {
    if shelf.begin(name).is_err() {
        return 0;
    }
    for call in 1..4u64 {
        let mut buf = [0u8; 8];
        if shelf.read(&mut buf).is_err() {
            return call;
        }
    }
    u64::MAX
}

/// Tells whether the first call that fails is the one of a row.
fn fails_first(alloc: Global, row: &str) -> Result<bool, NoMemory> {
    let mut parts = row.split('\t');
    let most = number(parts.next().unwrap_or(""));
    let mut shelf = shelf_of(alloc, most, parts.next().unwrap_or(""))?;
    let first = first_failing(&mut shelf, parts.next().unwrap_or(""));
    Ok(first == number(parts.next().unwrap_or("")))
}

/// Tells whether a sink takes three pieces as its row says.
fn is_written_so(alloc: Global, row: &str) -> Result<bool, NoMemory> {
    let mut parts = row.split('\t');
    let room = number(parts.next().unwrap_or(""));
    let most = number(parts.next().unwrap_or(""));
    let failing = numbers(alloc, parts.next().unwrap_or(""))?;
    let mut sink = MemSink::new(alloc, room, most, failing)?;
    let is_done = write_pieces(&mut sink, &[b"abc", b"", b"def"]).is_ok();
    let is_ok = parts.next().unwrap_or("") == "ok";
    Ok(is_done == is_ok && sink.written() == parts.next().unwrap_or("").as_bytes())
}

/// Takes a step of a row of `BUFFERED`, and tells whether it goes as it says.
fn goes_on(alloc: Global, out: &mut BufferedSink<MemSink>, step: &str) -> Result<bool, NoMemory> {
    if step == "flush" {
        return Ok(out.flush().is_ok());
    }
    if step == "flush failed" {
        return Ok(out.flush().is_err());
    }
    let Some(first) = step.as_bytes().first() else {
        return Ok(false);
    };
    let bytes = bytes_of(alloc, step)?;
    let bytes = bytes.get(1..).unwrap_or(b"");
    if *first == b'+' {
        return Ok(write_all(out, bytes).is_ok());
    }
    Ok(*first == b'=' && out.sink().written() == bytes)
}

/// Tells whether a buffer before a sink with ample room goes as its row says.
fn is_buffered_so(alloc: Global, row: &str) -> Result<bool, NoMemory> {
    let mut parts = row.split('\t');
    let most = number(parts.next().unwrap_or(""));
    let failing = numbers(alloc, parts.next().unwrap_or(""))?;
    let mut out = BufferedSink::new(alloc, MemSink::new(alloc, 20000, most, failing)?)?;
    for step in parts {
        if !goes_on(alloc, &mut out, step)? {
            return Ok(false);
        }
    }
    Ok(true)
}

/// What the rows of a table say.
#[derive(Clone, Copy)]
enum Topic {
    Reads,
    Calls,
    Rooms,
    Buffered,
}

/// Gives the first row that is not so, if there is one.
fn first_other(alloc: Global, topic: Topic, rows: &str) -> Result<Option<&str>, NoMemory> {
    for row in rows.lines() {
        let is_so = match topic {
            Topic::Reads => is_read_so(alloc, row)?,
            Topic::Calls => fails_first(alloc, row)?,
            Topic::Rooms => is_written_so(alloc, row)?,
            Topic::Buffered => is_buffered_so(alloc, row)?,
        };
        if !is_so {
            return Ok(Some(row));
        }
    }
    Ok(None)
}

#[test]
fn shelves_and_sinks_go_by_their_rows(rt: HostRuntime) -> Result<(), Fail> {
    let alloc = rt.alloc();
    assert!(rt; first_other(alloc, Topic::Reads, READS)? == None);
    assert!(rt; first_other(alloc, Topic::Calls, CALLS)? == None);
    assert!(rt; first_other(alloc, Topic::Rooms, ROOMS)? == None);
    assert!(rt; first_other(alloc, Topic::Buffered, BUFFERED)? == None);
    Ok(())
}

/// Tells whether a write takes so many bytes, none where it fails.
fn takes<K: Sink>(out: &mut K, bytes: &[u8], count: Option<usize>) -> bool {
    out.write(bytes).ok() == count
}

/// Tells whether a sink that has room for three bytes takes three of four, and then none.
fn is_filled(alloc: Global) -> Result<bool, NoMemory> {
    let mut sink = MemSink::new(alloc, 3, 64, Vec::new(alloc))?;
    let is_refused = write_within(&mut sink, b"abcd") == Err(Failed)
        && sink.written() == b"abc".as_slice();
    Ok(is_refused && takes(&mut sink, b"", Some(0)) && takes(&mut sink, b"d", None))
}

/// Writes to a sink through a buffer, and tells whether all came to be written.
fn is_flushed<K: Sink + Drop>(out: &mut BufferedSink<K>, bytes: &[u8]) -> bool {
    write_all(out, bytes).is_ok() && out.flush().is_ok()
}

/// Tells whether a buffer before a buffer is flushed too.
fn are_flushed(alloc: Global) -> Result<bool, NoMemory> {
    let sink = MemSink::new(alloc, 20000, 20000, Vec::new(alloc))?;
    let mut out = BufferedSink::new(alloc, BufferedSink::new(alloc, sink)?)?;
    Ok(is_flushed(&mut out, b"sat\n") && out.sink().sink().written() == b"sat\n".as_slice())
}

/// Tells whether bytes come back.
fn are_given_back(alloc: Global, text: &str) -> Result<bool, NoMemory> {
    let bytes = Bytes::from(bytes_of(alloc, text)?);
    let is_lent = bytes.as_slice() == text.as_bytes() && bytes.len() == text.len();
    Ok(is_lent && bytes.into_vec().as_slice() == text.as_bytes())
}

#[test]
fn sinks_and_bytes_give_back_what_they_got(rt: HostRuntime) -> Result<(), Fail> {
    let alloc = rt.alloc();
    assert!(rt; is_filled(alloc)?);
    assert!(rt; are_flushed(alloc)?);
    assert!(rt; are_given_back(alloc, "xyz")?);
    assert!(rt; MemSink::new(alloc, u64::MAX, 1, Vec::new(alloc)).is_err());
    Ok(())
}

/// Tells whether a text is begun.
fn begins<S: Shelf>(shelf: &mut S, name: &str) -> bool {
    shelf.begin(name).is_ok()
}

/// Tells whether a read of two bytes gives so many, none where it fails.
fn gives<S: Shelf>(shelf: &mut S, count: Option<usize>) -> bool {
    let mut buf = [0u8; 2];
    shelf.read(&mut buf).ok() == count
}

/// Tells whether what is left is read to its end or to the limit.
fn has_left<S: Shelf>(
    alloc: Global,
    shelf: &mut S,
    limit: u64,
    kind: &str,
    wanted: &[u8],
) -> Result<bool, NoMemory> {
    let got = read_all(alloc, shelf, limit);
    let (found, bytes) = came_to(&got)?;
    Ok(found == kind && bytes == wanted)
}

#[test]
fn files_and_standard_output_are_reached(rt: HostRuntime) -> Result<(), Fail> {
    let alloc = rt.alloc();
    let _ = fs::remove_dir_all(&rt, FOLDER);
    fs::create_dir(&rt, FOLDER)?;
    fs::write(&rt, FILE, b"abc".as_slice())?;
    let mut shelf = HostShelf::new(&rt);
    assert!(rt; gives(&mut shelf, Some(0)));
    assert!(rt; begins(&mut shelf, FILE) && gives(&mut shelf, Some(2)));
    assert!(rt; !begins(&mut shelf, ABSENT));
    assert!(rt;
        has_left(alloc, &mut shelf, 9, "whole", b"c")?,
        "what was left stays"
    );
    assert!(rt; begins(&mut shelf, FILE) && has_left(alloc, &mut shelf, 2, "cut", b"ab")?);
    assert!(rt;
        !begins(&mut shelf, FOLDER) || gives(&mut shelf, None),
        "a folder is no text"
    );
    fs::remove_dir_all(&rt, FOLDER)?;
    let mut sink = HostSink::new(&rt);
    assert!(rt; takes(&mut sink, b"", Some(0)));
    assert!(rt; write_pieces(&mut sink, &[b"written", b" by world_io", b"\n"]).is_ok());
    Ok(())
}
