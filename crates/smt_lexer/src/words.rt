//! Reserved words.

ghost use Rattle.std.specs.Prelude.{◌≡◌, ◌++◌};
ghost use Rattle.spec_text.specs.Bytes.{among, reserved_words};
ghost use Rattle.spec_text.specs.Printed.{is_bare, printed_symbol};
ghost use Rattle.smt_lexer.specs.Classes.{texts_of};

use crate::bytes::{Class, front_len};

/// The words that are no symbols without bars.
const RESERVED: [&[u8]; 43] = [
    b"!",
    b"_",
    b"as",
    b"BINARY",
    b"DECIMAL",
    b"exists",
    b"HEXADECIMAL",
    b"forall",
    b"let",
    b"match",
    b"NUMERAL",
    b"par",
    b"STRING",
    b"assert",
    b"check-sat",
    b"check-sat-assuming",
    b"declare-const",
    b"declare-datatype",
    b"declare-datatypes",
    b"declare-fun",
    b"declare-sort",
    b"define-fun",
    b"define-fun-rec",
    b"define-funs-rec",
    b"define-sort",
    b"echo",
    b"exit",
    b"get-assertions",
    b"get-assignment",
    b"get-info",
    b"get-model",
    b"get-option",
    b"get-proof",
    b"get-unsat-assumptions",
    b"get-unsat-core",
    b"get-value",
    b"pop",
    b"push",
    b"reset",
    b"reset-assertions",
    b"set-info",
    b"set-logic",
    b"set-option",
];

/// Says whether a name is one of these words, byte by byte; of no words none is.
pub fn is_one_of(words: &[&[u8]], name: &[u8]) -> bool
    ensures { result ≡ among (texts_of words.now) name.now }
{
    for word in words {
        if *word == name {
            return true;
        }
    }
    false
}

/// Says whether a name is a reserved word. Source: SMT-LIB 2.6, section 3.1 and appendix B.
pub fn is_reserved(name: &[u8]) -> bool
    ensures { result ≡ among reserved_words name.now }
{
    is_one_of(&RESERVED, name)
}

/// Says whether a name may be a symbol without bars: bytes of symbols, the first of them no digit, that are no
/// reserved word. Source: SMT-LIB 2.6, section 3.1.
pub fn is_bare(name: &[u8]) -> bool
    ensures { result ≡ is_bare name.now }
{
    let Some((first, _)) = name.split_first() else {
        return false;
    };
    if first.is_ascii_digit() {
        return false;
    }
    if front_len(name, Class::Symbol) < name.len() {
        return false;
    }
    !is_reserved(name)
}

/// Lends what is before a symbol's name and after it where it is written: a bar each, or nothing where the name may
/// be written without. Source: SMT-LIB 2.6, section 3.1.
pub fn bars_of<'a>(name: &'a [u8]) -> (&'a [u8], &'a [u8])
    ensures { result.0.now ++ (name.now ++ result.1.now) ≡ printed_symbol name.now }
{
    if is_bare(name) {
        return (b"", b"");
    }
    (b"|", b"|")
}
