//! Tells, byte by byte, when the next s-expression of a text is settled: when each text that begins with these bytes has the
//! same one next, or the same fault.
//!
//! The scan is an automaton over bytes. Its state is the pending token and the number of open lists, so it takes no memory.
//! It says when to read, and builds nothing. What stands next can then be read from the bytes that there are.
#![tactic(auto)]

ghost use Rattle.std.specs.Prelude.{◌≡◌, ◌≢◌, false, ℕ, ◌+◌, ◌^◌, ◌<◌, ◌≤◌, ◌++◌, length, List, []};
ghost use Rattle.spec_text.specs.Faults.{Located};
ghost use Rattle.spec_text.specs.Lexemes.{Lexeme, lexemes_from};
ghost use Rattle.spec_text.specs.Trees.{Tree, spelled};
ghost use Rattle.spec_text.specs.Readings.{is_of_end};
ghost use Rattle.stream_scan.specs.Scanning.{lists_of, scanned, scanned_from};
ghost use Rattle.stream_scan.specs.Next.{IsSettled, IsOpen, IsNext, IsFault};
ghost use Rattle.stream_scan.specs.declared.Scan.TheVariants as scans;

mod transitions;

use transitions::next_scan;

/// The pending token: what the bytes after the last whole token are. A parenthesis is whole at once, and so is a quoted
/// symbol at its closing bar. Any other word is whole at the byte after it. Source: SMT-LIB 2.6, section 3.1.
#[derive(Clone, Copy, Debug, PartialEq, Eq)]
pub enum Pending {
    /// White space, or no bytes: no token is pending.
    Blank,
    /// A semicolon and what follows it on its line. A line feed or carriage return ends it.
    Comment,
    /// One or more bytes of a symbol without bars, or of a reserved word. Any other byte ends it.
    Symbol,
    /// `0`: a numeral, unless a point follows. A byte of symbols may not.
    Zero,
    /// Digits, the first not `0`: a numeral, unless a digit or a point follows. A byte of symbols may not.
    Digits,
    /// A numeral and a point. A digit has to follow.
    Point,
    /// A numeral, a point and one or more digits: a decimal, unless a digit follows. A byte of symbols may not.
    Fraction,
    /// A string that is open: its opening quote, and bytes in which quotes come in pairs.
    Text,
    /// A string and a quote, which ends it unless a second one follows.
    Quote,
    /// A quoted symbol that is open: its opening bar, and bytes after it.
    Quoted,
    /// A colon. A byte of symbols has to follow.
    Colon,
    /// A keyword: a colon and one or more bytes of symbols. Any other byte ends it.
    Keyword,
}

/// What bytes tell of what is next. Own.
#[derive(Clone, Copy, Debug, PartialEq, Eq)]
pub enum Scan {
    /// The pending token, and how many lists are open. Nothing is next in each text that goes on so.
    Open(Pending, u64),
    /// One s-expression, or one fault, is next however the text goes on.
    Settled,
}

/// Scans bytes, one after the other, and gives the scan after them. Where no token is pending, `from` is
/// `Scan::Open(Pending::Blank, 0)`; a text may come in pieces of any length, each with the scan after the one before. An
/// s-expression or a fault settles at the first byte that leaves no choice: a list at its closing parenthesis, a quoted symbol
/// at its closing bar, any other word at the byte after it, a fault at the byte that shows it. No byte after that one is
/// looked at, and none changes the scan. What is missing at the end of a text never settles, nor does a word that ends there.
/// Each byte opens one list at most, so lists and bytes together have to be fewer than 2^64. Takes no memory.
/// Source: SMT-LIB 2.6, section 3.1, for the tokens; what is settled is own.
pub fn scan_on(from: Scan, bytes: &[u8]) -> Scan
    requires room { lists_of from + length bytes.now < 2 ^ 64 }
    ensures { result ≡ scanned from bytes.now }
{
    let mut scan = from;
    for b in bytes {
        match scan {
            Scan::Settled => return Scan::Settled,
            Scan::Open(pending, open_lists) => scan = next_scan(pending, open_lists, *b),
        }
    }
    scan
}

/// Says what a scan tells: in whatever pieces bytes come, it is the same. Where it is settled, what comes next is the same in
/// each text that goes on as these bytes do. Where it is open, no one outcome is that of each such text.
pub fn scanning_is_exact()
    ensures pieces { (s : Scan) (xs ys : List ℕ)
        → scanned s (xs ++ ys) ≡ scanned (scanned s xs) ys }
    ensures settled { (text : List ℕ) (at : ℕ) → at ≤ length text
        → scanned_from text at ≡ scans.Settled → IsSettled text at }
    ensures open { (text : List ℕ) (at : ℕ) → at ≤ length text
        → scanned_from text at ≢ scans.Settled → IsOpen text at }
{}

/// Says the same of trees and faults. Where a scan is settled, a tree that comes first in these bytes is next in each text
/// that goes on as they do, and so is a fault, which is none of what is missing at the end of a text; and there are lexemes.
/// Where it is open, no tree is next in each such text.
pub fn settled_trees_and_faults_stay()
    ensures tree { (text : List ℕ) (at : ℕ) (t : Tree) (rest : List (ℕ × Lexeme)) → at ≤ length text
        → scanned_from text at ≡ scans.Settled → lexemes_from text at ≡ spelled t ++ rest
        → (more : List ℕ) → IsNext (text ++ more) at t }
    ensures fault { (text : List ℕ) (at : ℕ) (f : Located) → at ≤ length text
        → scanned_from text at ≡ scans.Settled → IsFault text at f
        → (more : List ℕ) → IsFault (text ++ more) at f }
    ensures inner { (text : List ℕ) (at : ℕ) (f : Located) → at ≤ length text
        → scanned_from text at ≡ scans.Settled → IsFault text at f → is_of_end f.fault ≡ false }
    ensures some { (text : List ℕ) (at : ℕ) → scanned_from text at ≡ scans.Settled → lexemes_from text at ≢ [] }
    ensures open { (text : List ℕ) (at : ℕ) (t : Tree) → at ≤ length text
        → scanned_from text at ≢ scans.Settled → ((more : List ℕ) → IsNext (text ++ more) at t) → ⊥ }
{}
