//! What one byte more makes of a scan: the transitions of the automaton.

ghost use Rattle.std.specs.Prelude.{◌≡◌, ◌+◌, ◌^◌, ◌<◌};
ghost use Rattle.spec_text.specs.Bytes as bytes;
ghost use Rattle.stream_scan.specs.Scanning as scanning;

use crate::{Pending, Scan};

/// Says whether a byte is tab, line feed, carriage return or space. Source: SMT-LIB 2.6, section 3.1.
fn is_blank(b: u8) -> bool
    ensures { result ≡ bytes.is_blank b }
{
    b == b'\t' || b == b'\n' || b == b'\r' || b == b' '
}

/// Says whether a byte is one of a symbol without bars. Source: SMT-LIB 2.6, section 3.1.
fn is_symbol_byte(b: u8) -> bool
    ensures { result ≡ bytes.is_symbol_byte b }
{
    match b {
        b'0'..=b'9' | b'A'..=b'Z' | b'a'..=b'z' => true,
        b'~' | b'!' | b'@' | b'$' | b'%' | b'^' | b'&' | b'*' | b'_' => true,
        b'-' | b'+' | b'=' | b'<' | b'>' | b'.' | b'?' | b'/' => true,
        _ => false,
    }
}

/// Takes a byte where no token is pending.
fn between_tokens(open_lists: u64, b: u8) -> Scan
    requires { open_lists + 1 < 2 ^ 64 }
    ensures { result ≡ scanning.between_tokens open_lists b }
{
    if is_blank(b) {
        return Scan::Open(Pending::Blank, open_lists);
    }
    match b {
        b';' => Scan::Open(Pending::Comment, open_lists),
        b'(' => Scan::Open(Pending::Blank, open_lists + 1),
        b')' => {
            if 1 < open_lists {
                return Scan::Open(Pending::Blank, open_lists - 1);
            }
            Scan::Settled
        }
        b'0' => Scan::Open(Pending::Zero, open_lists),
        b'1'..=b'9' => Scan::Open(Pending::Digits, open_lists),
        b'"' => Scan::Open(Pending::Text, open_lists),
        b'|' => Scan::Open(Pending::Quoted, open_lists),
        b':' => Scan::Open(Pending::Colon, open_lists),
        _ if is_symbol_byte(b) => Scan::Open(Pending::Symbol, open_lists),
        _ => Scan::Settled,
    }
}

/// Takes a byte that ends a word.
fn after_word(open_lists: u64, b: u8) -> Scan
    requires { open_lists + 1 < 2 ^ 64 }
    ensures { result ≡ scanning.after_word open_lists b }
{
    if open_lists == 0 {
        return Scan::Settled;
    }
    between_tokens(open_lists, b)
}

/// Takes a byte after a number.
fn after_number(open_lists: u64, b: u8) -> Scan
    requires { open_lists + 1 < 2 ^ 64 }
    ensures { result ≡ scanning.after_number open_lists b }
{
    if is_symbol_byte(b) {
        return Scan::Settled;
    }
    after_word(open_lists, b)
}

/// Takes a byte after a numeral.
fn after_numeral(open_lists: u64, b: u8) -> Scan
    requires { open_lists + 1 < 2 ^ 64 }
    ensures { result ≡ scanning.after_numeral open_lists b }
{
    if b == b'.' {
        return Scan::Open(Pending::Point, open_lists);
    }
    after_number(open_lists, b)
}

/// Takes a byte after an opening bar.
fn between_bars(open_lists: u64, b: u8) -> Scan
    ensures { result ≡ scanning.between_bars open_lists b }
{
    if b != b'|' && b != b'\\' {
        return Scan::Open(Pending::Quoted, open_lists);
    }
    if b == b'|' && open_lists > 0 {
        return Scan::Open(Pending::Blank, open_lists);
    }
    Scan::Settled
}

/// Takes one byte more.
pub(crate) fn next_scan(pending: Pending, open_lists: u64, b: u8) -> Scan
    requires { open_lists + 1 < 2 ^ 64 }
    ensures { result ≡ scanning.next_scan pending open_lists b }
{
    match pending {
        Pending::Blank => between_tokens(open_lists, b),
        Pending::Comment if b != b'\n' && b != b'\r' => Scan::Open(Pending::Comment, open_lists),
        Pending::Comment => Scan::Open(Pending::Blank, open_lists),
        Pending::Symbol if is_symbol_byte(b) => Scan::Open(Pending::Symbol, open_lists),
        Pending::Symbol => after_word(open_lists, b),
        Pending::Zero => after_numeral(open_lists, b),
        Pending::Digits if b.is_ascii_digit() => Scan::Open(Pending::Digits, open_lists),
        Pending::Digits => after_numeral(open_lists, b),
        Pending::Point if b.is_ascii_digit() => Scan::Open(Pending::Fraction, open_lists),
        Pending::Point => Scan::Settled,
        Pending::Fraction if b.is_ascii_digit() => Scan::Open(Pending::Fraction, open_lists),
        Pending::Fraction => after_number(open_lists, b),
        Pending::Text if b == b'"' => Scan::Open(Pending::Quote, open_lists),
        Pending::Text => Scan::Open(Pending::Text, open_lists),
        Pending::Quote if b == b'"' => Scan::Open(Pending::Text, open_lists),
        Pending::Quote => after_word(open_lists, b),
        Pending::Quoted => between_bars(open_lists, b),
        Pending::Colon if is_symbol_byte(b) => Scan::Open(Pending::Keyword, open_lists),
        Pending::Colon => Scan::Settled,
        Pending::Keyword if is_symbol_byte(b) => Scan::Open(Pending::Keyword, open_lists),
        Pending::Keyword => after_word(open_lists, b),
    }
}
