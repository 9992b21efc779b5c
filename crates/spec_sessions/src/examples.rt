//! Worked examples: what is written for the scripts of `specs/Examples.antt`. Each is a function whose contract says
//! it; it computes nothing.

ghost use Rattle.std.specs.Prelude.{true, false, Bool, [], codes};
ghost use Rattle.spec_checking.specs.Examples.{contradiction};
ghost use Rattle.spec_sessions.specs.Responses.{solve, certify};
ghost use Rattle.spec_sessions.specs.Transcripts.{IsTranscript};
ghost use Rattle.spec_sessions.specs.Examples.{limits, four, checks_alone, checks_written, refusals, refusals_written};
ghost use Rattle.spec_sessions.specs.Examples.{numbers, numbers_written, strings, strings_written};
ghost use Rattle.spec_sessions.specs.Examples.{asked_for, asked_for_written, contradiction_written};
ghost use Rattle.spec_sessions.specs.Examples.{functions, functions_written, large, large_written};
ghost use Rattle.spec_sessions.specs.Examples.{closed_too_often, false_asserted};

/// States what is written for the empty text, and for checks of nothing: models without lines, where these are wanted.
/// An option that is not known is no refusal, and nothing is answered after `exit`.
pub fn checks_of_nothing_are_sat()
    ensures nothing { IsTranscript limits solve [] [] false }
    ensures checks { IsTranscript limits certify checks_alone checks_written false }
{}

/// States that refused commands are passed over: each has its line, with the place of its fault.
pub fn refused_commands_are_passed_over()
    ensures names { IsTranscript limits solve refusals refusals_written true }
    ensures numbers { IsTranscript limits solve numbers numbers_written true }
    ensures large { IsTranscript four solve large large_written true }
{}

/// States what is written where a model and values are asked for, and information, and what is refused of that.
pub fn what_is_asked_is_answered()
    ensures { IsTranscript limits solve asked_for asked_for_written true }
{}

/// States that a string is written as it is, and `success` while its option is on.
pub fn strings_are_written()
    ensures { IsTranscript limits solve strings strings_written false }
{}

/// States that a model has a line for each declared symbol: of a constant, of a sort of its own, of a function.
pub fn models_have_each_symbol()
    ensures { IsTranscript limits certify functions functions_written false }
{}

/// States that this is written for a contradiction, with the proof after the answer.
pub fn contradiction_is_refuted()
    ensures { IsTranscript limits certify contradiction contradiction_written false }
{}

/// States that a fault of the text ends the run, after the answers to the commands before it, and counts as a refusal.
pub fn faults_end_a_run()
    ensures { IsTranscript limits solve closed_too_often (codes "sat\n(error \"2:1: StrayClose\")\n") true }
{}

/// States that `sat` is not written where what is asserted is false.
pub fn false_is_not_sat()
    ensures { (refused : Bool) → IsTranscript limits solve false_asserted (codes "success\nsat\n") refused → ⊥ }
{
    spec_text::laws::a_text_is_read_up_to_one_end();
}
