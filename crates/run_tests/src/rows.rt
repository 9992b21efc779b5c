//! Scripts with their outputs, as text: a row a line, with a tab between its parts. A `~` stands for a line feed.

use no_memory::NoMemory;
use std::alloc::Global;

/// The command, the script, the number of the status, the output, and how much of it is due after how many bytes: numbers in
/// pairs. An output that ends with `..` begins so; `all` is its length.
pub(crate) const ROWS: &str = "solve\t\t0\t\t
solve\t(set-option :print-success false)~(check-sat)\t0\tsat~\t45 4
certify\t(set-option :print-success false)~(check-sat)\t0\tsat~(~)~\t45 8
solve\t(assert false)(check-sat)\t0\tsuccess~unsat~\t14 8 25 14
certify\t(set-option :print-success false)~(declare-sort U 0)(declare-fun f (U) U)(declare-const a U)(declare-const b U)(assert (= a b))(assert (distinct (f a) (f b)))(check-sat)\t0\tunsat~(~..\t169 all
solve\t(set-option :print-success false)~(declare-sort U 0)(declare-fun f (U) U)(declare-const a U)(assert (= (f (f (f a))) a))(assert (= (f (f (f (f (f a))))) a))(assert (not (= (f a) a)))(check-sat)\t0\tunsat~\t193 6
solve\t(set-option :print-success false)~(set-option :produce-models true)(declare-const x Real)(assert (< 0 x 1))(assert (= (* 3 x) 1))(check-sat)(get-value (x (+ x 1)))\t0\tsat~((x (/ 1 3)) ((+ x 1) (/ 4 3)))~\t140 4 163 36
solve\t(set-option :print-success false)~(declare-fun f (Real) Real)(declare-const x Real)(declare-const y Real)(assert (<= x y))(assert (<= y x))(assert (distinct (f x) (f y)))(check-sat)\t0\tunsat~\t181 6
solve\t(set-option :print-success false)~(declare-sort U 0)(declare-fun g (U) Real)(declare-const a U)(declare-const b U)(assert (= a b))(assert (> (g a) (g b)))(check-sat)\t0\tunsat~\t165 6
solve\t(set-option :print-success false)~(declare-fun f (Real) Real)(declare-const x Real)(declare-const y Real)(assert (< 0 x))(assert (< x y))(assert (< y 1))(assert (= (f x) 1))(assert (= (f y) 2))(check-sat)\t0\tsat~\t204 4
solve\t(set-option :print-success false)~(push 1)(declare-const c Real)(assert (< c c))(check-sat)(pop 1)(declare-const c Bool)(assert c)(check-sat)\t0\tunsat~sat~\t91 6 141 10
solve\t(set-option :print-success false)~(push 2)(pop 3)(check-sat)\t1\t(error \"2:9: PopTooFar\")~sat~\t49 25 60 29
solve\t(set-option :print-success false)~(declare-const x Real)(assert (> (* 100000000000000000000 (* 100000000000000000000 x)) 1))(check-sat)(get-info :reason-unknown)\t0\tunknown~(:reason-unknown (overflow mul 100000000000000000000 100000000000000000000))~\t135 8 161 85
solve\t(set-option :print-success false)~(assert (= 170141183460469231731687303715884105727 0))~(assert (= 170141183460469231731687303715884105728 0))~(check-sat)\t1\t(error \"3:12: NumberWide\")~unsat~\t143 27 155 33
solve\t(set-option :print-success false)~(declare-const x Real)~(declare-const y Real)~(assert (< (* x y) 1))~(assert (< (/ x 0.0) 1))~(assert (< (/ x (- (/ 1 2))) 1))~(assert (< (/ x (+ 1 1)) 1))~(check-sat)\t1\t(error \"4:12: NotLinear\")~(error \"5:12: ZeroDivisor\")~(error \"7:12: NotLinear\")~sat~\t102 26 127 54 189 80 201 84";

/// A script that is run, and what is to come of it.
#[derive(Drop)]
pub(crate) struct Row {
    /// The arguments.
    pub(crate) words: Vec<String>,
    /// The script.
    pub(crate) text: Vec<u8>,
    /// The number of the status.
    pub(crate) status: u8,
    /// The output, or its beginning.
    pub(crate) output: Vec<u8>,
    /// Whether that is the whole output.
    pub(crate) is_whole: bool,
    /// After how many bytes how much of the output is due, in pairs.
    pub(crate) due: Vec<u64>,
}

/// Gives the bytes that a part of a row means.
pub(crate) fn bytes_of(alloc: Global, part: &str) -> Result<Vec<u8>, NoMemory> {
    let mut bytes = Vec::new(alloc);
    for byte in part.as_bytes() {
        bytes.push(if *byte == b'~' { b'\n' } else { *byte })?;
    }
    Ok(bytes)
}

/// Reads a number; any other text is the greatest one.
fn number(part: &str) -> u64 {
    part.parse::<u64>().unwrap_or(u64::MAX)
}

/// Reads numbers with a space between them; the empty text has none.
fn numbers(alloc: Global, part: &str) -> Result<Vec<u64>, NoMemory> {
    let mut numbers = Vec::new(alloc);
    if part != "" {
        for word in part.split(' ') {
            numbers.push(number(word))?;
        }
    }
    Ok(numbers)
}

/// Gives arguments with a space between them, after the program's name.
pub(crate) fn arguments_of(alloc: Global, part: &str) -> Result<Vec<String>, NoMemory> {
    let mut words = Vec::new(alloc);
    words.push(String::from_str(alloc, "smt_cli")?)?;
    for word in part.split(' ') {
        words.push(String::from_str(alloc, word)?)?;
    }
    Ok(words)
}

/// Reads a row.
pub(crate) fn row_of(alloc: Global, line: &str) -> Result<Row, NoMemory> {
    let mut parts = line.split('\t');
    let words = arguments_of(alloc, parts.next().unwrap_or(""))?;
    let text = bytes_of(alloc, parts.next().unwrap_or(""))?;
    let status = parts.next().unwrap_or("").parse::<u8>().unwrap_or(9);
    let written = parts.next().unwrap_or("");
    let output = bytes_of(alloc, written.strip_suffix("..").unwrap_or(written))?;
    let due = numbers(alloc, parts.next().unwrap_or(""))?;
    Ok(Row {
        words,
        text,
        status,
        output,
        is_whole: !written.ends_with(".."),
        due,
    })
}

/// Counts the bytes of the output that are due after so many of the script.
pub(crate) fn due_after(due: &[u64], count: u64) -> u64 {
    let mut size = 0;
    for n in 0..due.len() / 2 {
        if due.get(2 * n).copied().unwrap_or(u64::MAX) <= count {
            size = due.get(2 * n + 1).copied().unwrap_or(0);
        }
    }
    size
}
