//! Runs of bytes.

ghost use Rattle.std.specs.Prelude.{◌≡◌, ◌≤◌, length};
ghost use Rattle.spec_text.specs.Bytes.{front, is_blank, is_symbol_byte};
ghost use Rattle.smt_lexer.specs.Classes.{test_of};

/// What a run is made of.
#[derive(Clone, Copy, Debug, PartialEq, Eq)]
pub enum Class {
    /// Digits.
    Digit,
    /// Bytes of symbols without bars.
    Symbol,
    /// All but the bar and the backslash.
    InBars,
    /// All but line feed and carriage return.
    InComment,
}

/// Says whether a byte is tab, line feed, carriage return or space. Source: SMT-LIB 2.6, section 3.1.
pub fn is_blank_byte(b: u8) -> bool
    ensures { result ≡ is_blank b }
{
    b == b'\t' || b == b'\n' || b == b'\r' || b == b' '
}

/// Says whether a byte is one of a symbol without bars. Source: SMT-LIB 2.6, section 3.1.
pub fn is_of_symbols(b: u8) -> bool
    ensures { result ≡ is_symbol_byte b }
{
    b.is_ascii_digit() || b.is_ascii_alphabetic() || b"~!@$%^&*_-+=<>.?/".contains(&b)
}

/// Says whether a byte is of a class. Source: SMT-LIB 2.6, section 3.1.
pub fn has(class: Class, b: u8) -> bool
    ensures { result ≡ test_of class b }
{
    match class {
        Class::Digit => b.is_ascii_digit(),
        Class::Symbol => is_of_symbols(b),
        Class::InBars => b != b'|' && b != b'\\',
        Class::InComment => b != b'\n' && b != b'\r',
    }
}

/// Counts the bytes of the longest prefix that is of a class.
pub fn front_len(bytes: &[u8], class: Class) -> usize
    ensures length { result ≡ length (front (test_of class) bytes.now) }
    ensures within { result ≤ length bytes.now }
{
    let mut n = 0;
    for b in bytes {
        if !has(class, *b) {
            return n;
        }
        n += 1;
    }
    n
}
