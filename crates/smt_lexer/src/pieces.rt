//! What bytes begin with.

ghost use Rattle.std.specs.Prelude.{◌≡◌, ℕ, ◌+◌, ◌-◌, ◌^◌, ◌<◌, ◌≤◌, length, take, drop, slice_index, Some, None};
ghost use Rattle.spec_text.specs.Bytes as names;
ghost use Rattle.spec_text.specs.Lexemes as lexicon;
ghost use Rattle.smt_lexer.specs.Pieces.{piece_of, head_at, IsBody, IsPieceWithin};

use crate::bytes::{Class, front_len, is_blank_byte, is_of_symbols};
use crate::words::is_reserved;
use spec_text::{Fault, Kind};

/// What bytes begin with.
#[derive(Clone, Copy, Debug)]
pub enum What<'a> {
    /// White space, or a comment.
    Blank,
    /// `(`
    Open,
    /// `)`
    Close,
    /// A word by its kind, and its bytes as written, but without quotes, bars or colon.
    Word(Kind, &'a [u8]),
    /// A fault.
    Wrong(Fault),
}

/// What bytes begin with, and how many of them it has; of a fault, how many are before it.
#[derive(Clone, Copy, Debug)]
pub struct FoundPiece<'a> {
    /// What it is.
    pub what: What<'a>,
    /// How many bytes.
    pub size: usize,
}

/// What a first byte begins.
#[derive(Clone, Copy, Debug, PartialEq, Eq)]
enum FirstByte {
    /// White space.
    Blank,
    /// `;`, which begins a comment.
    Semicolon,
    /// `(`
    Open,
    /// `)`
    Close,
    /// `0`, a number's first digit that no other follows.
    Zero,
    /// `1` to `9`, which begin a number.
    Digit,
    /// `"`, which begins a string.
    Quote,
    /// `|`, which begins a quoted symbol.
    Bar,
    /// `:`, which begins a keyword.
    Colon,
    /// A byte of symbols that is no digit: it begins a symbol without bars.
    Symbol,
    /// A byte that begins no token.
    Other,
}

/// Says what a first byte begins. Source: SMT-LIB 2.6, section 3.1.
fn head_of(b: u8) -> FirstByte
    ensures { result ≡ head_at b }
{
    if is_blank_byte(b) {
        return FirstByte::Blank;
    }
    match b {
        b';' => FirstByte::Semicolon,
        b'(' => FirstByte::Open,
        b')' => FirstByte::Close,
        b'0' => FirstByte::Zero,
        b'1'..=b'9' => FirstByte::Digit,
        b'"' => FirstByte::Quote,
        b'|' => FirstByte::Bar,
        b':' => FirstByte::Colon,
        _ if is_of_symbols(b) => FirstByte::Symbol,
        _ => FirstByte::Other,
    }
}

/// Gives a fault after so many bytes.
fn fault_at<'a>(fault: Fault, size: usize) -> FoundPiece<'a>
    ensures within { (n : ℕ) → size ≤ n → IsPieceWithin result.what result.size n }
    ensures piece { piece_of result ≡ lexicon.piece (lexicon.wrong fault) size }
{
    FoundPiece {
        what: What::Wrong(fault),
        size,
    }
}

/// Ends a number after so many bytes: there is no byte of symbols. Source: SMT-LIB 2.6, section 3.1.
fn ended<'a>(bytes: &'a [u8], size: usize, kind: Kind) -> FoundPiece<'a>
    requires some { 0 < size }
    requires within { size ≤ length bytes.now }
    ensures within { IsPieceWithin result.what result.size (length bytes.now) }
    ensures piece { piece_of result
        ≡ lexicon.ended (drop size bytes.now) size (lexicon.word kind (take size bytes.now)) }
{
    if size < bytes.len() && is_of_symbols(bytes[size]) {
        return fault_at(Fault::BadChar, size);
    }
    FoundPiece {
        what: What::Word(kind, &bytes[..size]),
        size,
    }
}

/// Reads a number that begins with so many digits. Source: SMT-LIB 2.6, section 3.1.
fn number<'a>(bytes: &'a [u8], digits: usize) -> FoundPiece<'a>
    requires some { 0 < digits }
    requires within { digits ≤ length bytes.now }
    ensures within { IsPieceWithin result.what result.size (length bytes.now) }
    ensures piece { piece_of result ≡ lexicon.number (take digits bytes.now) (drop digits bytes.now) }
{
    if digits == bytes.len() || bytes[digits] != b'.' {
        return ended(bytes, digits, Kind::Numeral);
    }
    let places = front_len(&bytes[digits + 1..], Class::Digit);
    if places == 0 {
        return fault_at(Fault::BadChar, digits);
    }
    ended(bytes, digits + 1 + places, Kind::Decimal)
}

/// Counts the bytes after an opening quote up to the closing one; two quotes stand for one and close nothing.
/// `None` where no quote closes. Source: SMT-LIB 2.6, section 3.1.
fn body_len(bytes: &[u8]) -> Option<usize>
    ensures { IsBody bytes.now result }
{
    let mut n = 0;
    while n < bytes.len() {
        if bytes[n] != b'"' {
            n += 1;
        } else if n + 1 < bytes.len() && bytes[n + 1] == b'"' {
            n += 2;
        } else {
            return Some(n);
        }
    }
    None
}

/// Reads a string after its opening quote. Source: SMT-LIB 2.6, section 3.1.
fn string<'a>(rest: &'a [u8]) -> FoundPiece<'a>
    requires { length rest.now + 1 < 2 ^ 64 }
    ensures within { (n : ℕ) → 1 + length rest.now ≤ n → IsPieceWithin result.what result.size n }
    ensures piece { piece_of result ≡ lexicon.string (lexicon.string_body rest.now) }
{
    match body_len(rest) {
        None => fault_at(Fault::UnclosedString, 0),
        Some(n) => FoundPiece {
            what: What::Word(Kind::Text, &rest[..n]),
            size: n + 2,
        },
    }
}

/// Reads a quoted symbol after its opening bar. Source: SMT-LIB 2.6, section 3.1.
fn quoted<'a>(rest: &'a [u8]) -> FoundPiece<'a>
    ensures within { (n : ℕ) → 1 + length rest.now ≤ n → IsPieceWithin result.what result.size n }
    ensures piece { piece_of result
        ≡ lexicon.quoted (names.front names.is_in_bars rest.now)
        (drop (length (names.front names.is_in_bars rest.now)) rest.now) }
{
    let n = front_len(rest, Class::InBars);
    if n == rest.len() {
        return fault_at(Fault::UnclosedQuote, 0);
    }
    if rest[n] != b'|' {
        return fault_at(Fault::BadChar, n + 1);
    }
    FoundPiece {
        what: What::Word(Kind::Quoted, &rest[..n]),
        size: n + 2,
    }
}

/// Reads a keyword after its colon. Source: SMT-LIB 2.6, section 3.1.
fn keyword<'a>(rest: &'a [u8]) -> FoundPiece<'a>
    ensures within { (n : ℕ) → 1 + length rest.now ≤ n → IsPieceWithin result.what result.size n }
    ensures piece { piece_of result ≡ lexicon.keyword (names.front names.is_symbol_byte rest.now) }
{
    let n = front_len(rest, Class::Symbol);
    if n == 0 {
        return fault_at(Fault::BadChar, 0);
    }
    FoundPiece {
        what: What::Word(Kind::Keyword, &rest[..n]),
        size: n + 1,
    }
}

/// Reads a symbol without bars, or a reserved word. Source: SMT-LIB 2.6, section 3.1.
fn symbol<'a>(bytes: &'a [u8], size: usize) -> FoundPiece<'a>
    requires some { 0 < size }
    requires within { size ≤ length bytes.now }
    ensures within { IsPieceWithin result.what result.size (length bytes.now) }
    ensures piece { piece_of result ≡ lexicon.symbol (take size bytes.now) }
{
    let name = &bytes[..size];
    let kind = if is_reserved(name) {
        Kind::Reserved
    } else {
        Kind::Simple
    };
    FoundPiece {
        what: What::Word(kind, name),
        size,
    }
}

/// Reads what bytes begin with, as long as it can be. Source: SMT-LIB 2.6, section 3.1.
fn first_piece<'a>(bytes: &'a [u8]) -> FoundPiece<'a>
    requires { 0 < length bytes.now }
    ensures within { IsPieceWithin result.what result.size (length bytes.now) }
    ensures piece { piece_of result ≡ lexicon.first_piece (slice_index bytes.now 0) (drop 1 bytes.now) }
{
    let rest = &bytes[1..];
    let (what, size) = match head_of(bytes[0]) {
        FirstByte::Blank => (What::Blank, 1),
        FirstByte::Semicolon => (What::Blank, 1 + front_len(rest, Class::InComment)),
        FirstByte::Open => (What::Open, 1),
        FirstByte::Close => (What::Close, 1),
        FirstByte::Zero => return number(bytes, 1),
        FirstByte::Digit => return number(bytes, 1 + front_len(rest, Class::Digit)),
        FirstByte::Quote => return string(rest),
        FirstByte::Bar => return quoted(rest),
        FirstByte::Colon => return keyword(rest),
        FirstByte::Symbol => return symbol(bytes, 1 + front_len(rest, Class::Symbol)),
        FirstByte::Other => return fault_at(Fault::BadChar, 0),
    };
    FoundPiece { what, size }
}

/// Reads what the bytes from an offset on begin with. Source: SMT-LIB 2.6, section 3.1.
pub fn piece_at<'a>(bytes: &'a [u8], at: usize) -> FoundPiece<'a>
    requires { at < length bytes.now }
    ensures within { IsPieceWithin result.what result.size (length bytes.now - at) }
    ensures piece { piece_of result ≡ lexicon.first_piece (slice_index bytes.now at) (drop (at + 1) bytes.now) }
{
    first_piece(&bytes[at..])
}
