//! Definitions about texts: bytes, places, lexemes, s-expressions, and the first lexical fault.
//!
//! Nothing here runs but the names of faults. The functions with empty bodies are laws: what they ensure is proved of
//! the definitions in `specs/`.
#![tactic(auto)]

ghost use Rattle.std.specs.Prelude.{◌≡◌};
ghost use Rattle.spec_text.specs.Places.{number_of, name_of};

pub mod laws;

/// What a word is, by its first bytes. Source: SMT-LIB 2.6, section 3.1.
#[derive(Clone, Copy, Debug, PartialEq, Eq, Hash)]
pub enum Kind {
    /// A numeral: `0`, or digits that do not begin with `0`.
    Numeral,
    /// A decimal: a numeral, a point, and one or more digits.
    Decimal,
    /// A string: bytes between double quotes; two of them inside stand for one.
    Text,
    /// A symbol without bars that is no reserved word: digits, letters and `~ ! @ $ % ^ & * _ - + = < > . ? /`, the
    /// first of them no digit.
    Simple,
    /// A symbol between bars: all bytes but the bar and the backslash.
    Quoted,
    /// A reserved word, a general one or the name of a command. Source: SMT-LIB 2.6, section 3.1 and appendix B.
    Reserved,
    /// A keyword: a colon and one or more bytes of symbols, whichever they are.
    Keyword,
}

/// The place of a byte, or of the end of a text.
#[derive(Clone, Copy, Debug, PartialEq, Eq)]
pub struct Place {
    /// How many bytes are before it: 0 at the first byte.
    pub offset: u64,
    /// 1 plus the number of line feeds before it; a carriage return begins no line.
    pub line: u64,
    /// 1 plus the number of bytes since the last line feed before it, or since the start: bytes, not characters.
    pub col: u64,
}

/// Why a text or a script is refused. The numbers, E1 to E25 without E6, and the names are part of
/// the product.
#[derive(Clone, Copy, Debug, PartialEq, Eq)]
pub enum Fault {
    /// A byte that begins no token, or may not are where it does.
    BadChar,
    /// A string that does not end, at its opening quote.
    UnclosedString,
    /// A quoted symbol that does not end, at its opening bar.
    UnclosedQuote,
    /// The end of a text in which a list is open.
    UnclosedList,
    /// A closing parenthesis that closes nothing.
    StrayClose,
    /// The first byte beyond the limit on the length of a text.
    TooLong,
    /// A list that begins with the name of no command.
    UnknownCommand,
    /// A command, a term or an atom of another form than is wanted there.
    BadShape,
    /// A symbol that is neither declared nor bound, nor one of a theory.
    UnknownSymbol,
    /// A sort that is neither declared nor one of a theory.
    UnknownSort,
    /// A name that is declared already, is a theory's, or is bound twice in one list.
    Twice,
    /// A reserved word where a name is wanted, or a kept name, which begins with `@` or `.`, where a new one is wanted.
    Reserved,
    /// A function with another number of arguments than it takes.
    WrongCount,
    /// A term of another sort than is wanted there.
    WrongSort,
    /// A product of two terms that are no constants, or a divisor that is no number.
    NotLinear,
    /// A divisor that is zero.
    ZeroDivisor,
    /// A literal beyond 128 bits.
    NumberWide,
    /// A `pop` of more levels than are open.
    PopTooFar,
    /// A command that may not come in the mode that the script is in then.
    WrongMode,
    /// A command whose answer is not to be had, since no option asked for it.
    NotEnabled,
    /// A logic that is not known.
    UnknownLogic,
    /// An assumption that is neither a symbol nor the negation of one.
    NotLiteral,
    /// A limit on the number of terms, names or levels that is reached.
    Full,
    /// A value beyond 128 bits.
    ValueWide,
}

impl Fault {
    /// Gives the number of the fault, from 1 to 25: E1 is 1, and none is 6.
    pub fn number(self) -> u8
        ensures { result ≡ number_of self }
    {
        match self {
            Fault::BadChar => 1,
            Fault::UnclosedString => 2,
            Fault::UnclosedQuote => 3,
            Fault::UnclosedList => 4,
            Fault::StrayClose => 5,
            Fault::TooLong => 7,
            Fault::UnknownCommand => 8,
            Fault::BadShape => 9,
            Fault::UnknownSymbol => 10,
            Fault::UnknownSort => 11,
            Fault::Twice => 12,
            Fault::Reserved => 13,
            Fault::WrongCount => 14,
            Fault::WrongSort => 15,
            Fault::NotLinear => 16,
            Fault::ZeroDivisor => 17,
            Fault::NumberWide => 18,
            Fault::PopTooFar => 19,
            Fault::WrongMode => 20,
            Fault::NotEnabled => 21,
            Fault::UnknownLogic => 22,
            Fault::NotLiteral => 23,
            Fault::Full => 24,
            Fault::ValueWide => 25,
        }
    }

    /// Gives the name that is printed: the variant's, letter by letter.
    pub fn name(self) -> &'static str
        ensures { result.now ≡ name_of self }
    {
        match self {
            Fault::BadChar => "BadChar",
            Fault::UnclosedString => "UnclosedString",
            Fault::UnclosedQuote => "UnclosedQuote",
            Fault::UnclosedList => "UnclosedList",
            Fault::StrayClose => "StrayClose",
            Fault::TooLong => "TooLong",
            Fault::UnknownCommand => "UnknownCommand",
            Fault::BadShape => "BadShape",
            Fault::UnknownSymbol => "UnknownSymbol",
            Fault::UnknownSort => "UnknownSort",
            Fault::Twice => "Twice",
            Fault::Reserved => "Reserved",
            Fault::WrongCount => "WrongCount",
            Fault::WrongSort => "WrongSort",
            Fault::NotLinear => "NotLinear",
            Fault::ZeroDivisor => "ZeroDivisor",
            Fault::NumberWide => "NumberWide",
            Fault::PopTooFar => "PopTooFar",
            Fault::WrongMode => "WrongMode",
            Fault::NotEnabled => "NotEnabled",
            Fault::UnknownLogic => "UnknownLogic",
            Fault::NotLiteral => "NotLiteral",
            Fault::Full => "Full",
            Fault::ValueWide => "ValueWide",
        }
    }
}
