//! The names that `get-info` knows.

ghost use Rattle.std.specs.Prelude.{◌≡◌, option_map};
ghost use Rattle.spec_sessions.specs.Replies.{info_named};
ghost use Rattle.smt_question.specs.Infos.{info_meant};

use smt_sexpr::same_bytes;

/// Names information that is known. Source: SMT-LIB 2.6, section 4.1.8.
#[derive(Clone, Copy, Debug, PartialEq, Eq)]
pub enum Info {
    /// `:name`.
    Name,
    /// `:version`.
    Version,
    /// `:authors`.
    Authors,
    /// `:error-behavior`.
    ErrorBehavior,
    /// `:reason-unknown`.
    ReasonUnknown,
    /// `:assertion-stack-levels`.
    AssertionStackLevels,
}

impl Info {
    /// Finds the information of a name, without its colon; `None` where none that is known has it.
    pub fn named(name: &[u8]) -> Option<Info>
        ensures { option_map info_meant result ≡ info_named name.now }
    {
        if same_bytes(name, b"name") {
            return Some(Info::Name);
        }
        if same_bytes(name, b"version") {
            return Some(Info::Version);
        }
        if same_bytes(name, b"authors") {
            return Some(Info::Authors);
        }
        if same_bytes(name, b"error-behavior") {
            return Some(Info::ErrorBehavior);
        }
        if same_bytes(name, b"reason-unknown") {
            return Some(Info::ReasonUnknown);
        }
        if same_bytes(name, b"assertion-stack-levels") {
            return Some(Info::AssertionStackLevels);
        }
        None
    }
}
