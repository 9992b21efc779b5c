//! The options of a script.

ghost use Rattle.std.specs.Prelude.{◌≡◌};
ghost use Rattle.spec_commands.specs.Stack.{empty_stack, with_option};
ghost use Rattle.smt_command.specs.Settings.{key_meant};
ghost use Rattle.assertion_stack.specs.Stacks.{options_meant};

use smt_command::OptionKey;

/// Holds the value of each option that is known.
///
/// Source: SMT-LIB 2.6, section 4.1.7.
#[derive(Clone, Copy, Debug, PartialEq, Eq)]
pub struct Options {
    /// `:print-success`: whether commands that are taken are answered `success`.
    pub print_success: bool,
    /// `:produce-models`.
    pub models: bool,
    /// `:produce-proofs`.
    pub proofs: bool,
    /// `:produce-assertions`.
    pub assertions: bool,
    /// `:produce-unsat-cores`.
    pub unsat_cores: bool,
    /// `:produce-unsat-assumptions`.
    pub unsat_assumptions: bool,
    /// `:global-declarations`: whether what is declared and defined belongs to no level.
    pub global_declarations: bool,
}

impl Options {
    /// Makes the options as they are before any command: `:print-success` alone is true.
    pub fn new() -> Options
        ensures { options_meant result ≡ empty_stack.options }
    {
        Options {
            print_success: true,
            models: false,
            proofs: false,
            assertions: false,
            unsat_cores: false,
            unsat_assumptions: false,
            global_declarations: false,
        }
    }

    /// Gives the options with one of them set.
    pub fn with(self, key: OptionKey, value: bool) -> Options
        ensures { options_meant result ≡ with_option (key_meant key) value (options_meant self) }
    {
        let mut options = self;
        match key {
            OptionKey::PrintSuccess => options.print_success = value,
            OptionKey::ProduceModels => options.models = value,
            OptionKey::ProduceProofs => options.proofs = value,
            OptionKey::ProduceAssertions => options.assertions = value,
            OptionKey::ProduceUnsatCores => options.unsat_cores = value,
            OptionKey::ProduceUnsatAssumptions => options.unsat_assumptions = value,
            OptionKey::GlobalDeclarations => options.global_declarations = value,
        }
        options
    }
}
