//! Definitions about model files: the values, rows and definitions of such a file, the interpretation that it says, its
//! first fault, and the verdict on it at a check of a script.
//!
//! Nothing here runs but the names and numbers of faults. The functions with empty bodies are laws: what they ensure is
//! proved of the definitions in `specs/`.
#![tactic(auto)]

ghost use Rattle.std.specs.Prelude.{◌≡◌};
ghost use Rattle.spec_model_files.specs.Faults.{kind_name, kind_number};

use spec_text::Fault;

pub mod examples;
pub mod laws;

/// Tells why a model file says no interpretation, or why the one that it says makes not all of a check's expressions
/// true. `NoSuchCheck` counts before all others. Of the faults of the file the first in the order of reading counts.
/// `NotTrue` and `ValueWide` come of files without a fault: of several such expressions the first asked about counts.
#[derive(Clone, Copy, Debug, PartialEq, Eq)]
pub enum ModelKind {
    /// The text cannot be read on, by a fault of its lexemes, its parentheses or its length: at the fault's place.
    Lexical(Fault),
    /// An item of another form than is wanted: at its opening parenthesis, or the atom. Or no list of definitions: at
    /// the end of the text, or at the atom in its place. Or more after the list: there.
    BadShape,
    /// The name of a definition that is no declared symbol of the check: at the name.
    UnknownSymbol,
    /// The name of a definition that an earlier one has, or of a parameter that an earlier one has: at the name.
    Twice,
    /// A sort or a value that is not the symbol's or the parameter's: there. Or another number of parameters than the
    /// symbol has: at the opening parenthesis of their list.
    WrongSort,
    /// The script ends before that check: at the start.
    NoSuchCheck,
    /// A value that leaves the bounds: at its first byte. A part of its fraction, or of one inside it, is beyond
    /// 2^127 - 1, or it has a literal that no script may have, or it is an element of a number beyond 2^64 - 1.
    NumberWide,
    /// An expression that is false: at that expression in the script.
    NotTrue,
    /// An expression of which an operation leaves the bound on fractions: at that expression in the script.
    ValueWide,
}

impl ModelKind {
    /// Gives the name that is printed: the variant's, or that of the fault of reading.
    pub fn name(self) -> &'static str
        ensures { result.now ≡ kind_name self }
    {
        match self {
            ModelKind::Lexical(fault) => fault.name(),
            ModelKind::BadShape => "BadShape",
            ModelKind::UnknownSymbol => "UnknownSymbol",
            ModelKind::Twice => "Twice",
            ModelKind::WrongSort => "WrongSort",
            ModelKind::NoSuchCheck => "NoSuchCheck",
            ModelKind::NumberWide => "NumberWide",
            ModelKind::NotTrue => "NotTrue",
            ModelKind::ValueWide => "ValueWide",
        }
    }

    /// Gives the number of the fault, from 1 to 9.
    pub fn number(self) -> u8
        ensures { result ≡ kind_number self }
    {
        match self {
            ModelKind::Lexical(_) => 1,
            ModelKind::BadShape => 2,
            ModelKind::UnknownSymbol => 3,
            ModelKind::Twice => 4,
            ModelKind::WrongSort => 5,
            ModelKind::NoSuchCheck => 6,
            ModelKind::NumberWide => 7,
            ModelKind::NotTrue => 8,
            ModelKind::ValueWide => 9,
        }
    }
}
