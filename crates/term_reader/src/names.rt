//! What a new name may be.

ghost use Rattle.std.specs.Prelude.{◌≡◌};
ghost use Rattle.spec_reading.specs.Names.{is_kept_name, is_barred, new_name};
ghost use Rattle.smt_sexpr.specs.Views.{word_view};
ghost use Rattle.term_reader.specs.Names.{setting_meant, answered};

use crate::faults::{TermFault, fault_at};
use smt_sexpr::{Word, is_reserved};
use spec_text::Fault;

/// Says where a text is read: what its new names may be.
#[derive(Clone, Copy, Debug)]
pub struct Setting<'a> {
    /// Whether a new name may begin with `@` or `.`.
    pub kept_names: bool,
    /// Whether `:named` is allowed
    pub may_name: bool,
    /// The name whose body is read.
    pub own: Option<&'a [u8]>,
}

/// Tells whether a name begins as those that are kept for solvers, with `@` or `.`. Source: SMT-LIB 2.6, section 3.1.
pub fn is_kept_name(name: &[u8]) -> bool
    ensures { result ≡ is_kept_name name.now }
{
    match name.first() {
        None => false,
        Some(first) => *first == b'@' || *first == b'.',
    }
}

/// Tells whether a word may not be a new name: it is reserved, or kept for solvers where such names are not allowed.
///
/// Source: SMT-LIB 2.6, section 3.1.
pub fn is_barred(setting: Setting<'_>, word: Word<'_>) -> bool
    ensures { result ≡ is_barred (setting_meant setting.entry) (word_view word.entry) }
{
    is_reserved(word.kind) || (!setting.kept_names && is_kept_name(word.bytes))
}

/// Gives a word as a new name, where `taken` tells whether its name is taken.
///
/// `Reserved` at the word comes where it is reserved, or kept for solvers and not allowed; then `Twice` at the word
/// where its name is taken. It takes no memory. Source: SMT-LIB 2.6, sections 3.1 and 4.2.3.
pub fn new_name<'a>(
    setting: Setting<'_>,
    taken: bool,
    word: Word<'a>,
) -> Result<&'a [u8], TermFault>
    ensures { answered (λ name. name.now) result
        ≡ new_name (setting_meant setting.entry) (λ _. taken) (word_view word.entry) }
{
    if is_barred(setting, word) {
        return Err(fault_at(word.at, Fault::Reserved));
    }
    if taken {
        return Err(fault_at(word.at, Fault::Twice));
    }
    Ok(word.bytes)
}
