//! Worked examples: verdicts on the texts of `specs/FileExamples.antt`. Each is a function whose contract is the
//! verdict; it computes nothing.

ghost use Rattle.std.specs.Prelude.{[], Some, None, codes};
ghost use Rattle.spec_text.specs.declared.Fault.TheVariants as faults;
ghost use Rattle.spec_model_files.specs.declared.ModelKind.TheVariants.{Lexical, BadShape};
ghost use Rattle.spec_model_files.specs.Faults.{model_fault};
ghost use Rattle.spec_model_files.specs.Verdicts.{no_such_check, IsModelVerdict};
ghost use Rattle.spec_model_files.specs.Examples.{plain_script};
ghost use Rattle.spec_model_files.specs.FileExamples.{listed, without_check};

/// States that a model file is one list of definitions, after the word `sat` or without it, and where the fault of one
/// that is not is: at its end, at what is there in place of the list, or at what comes after it.
pub fn model_files_are_one_list()
    ensures listed { IsModelVerdict plain_script 1 listed None }
    ensures nothing { IsModelVerdict plain_script 1 [] (Some (model_fault 0 BadShape)) }
    ensures word { IsModelVerdict plain_script 1 (codes "sat") (Some (model_fault 3 BadShape)) }
    ensures other_word { IsModelVerdict plain_script 1 (codes "unsat ()") (Some (model_fault 0 BadShape)) }
    ensures atom { IsModelVerdict plain_script 1 (codes "sat unknown ()") (Some (model_fault 4 BadShape)) }
    ensures two { IsModelVerdict plain_script 1 (codes "() ()") (Some (model_fault 3 BadShape)) }
{}

/// States where a model file that cannot be read on has its fault.
pub fn model_files_have_the_faults_of_texts()
    ensures open { IsModelVerdict plain_script 1 (codes "(") (Some (model_fault 1 (Lexical faults.UnclosedList))) }
    ensures close { IsModelVerdict plain_script 1 (codes "sat )") (Some (model_fault 4 (Lexical faults.StrayClose))) }
{}

/// States that a model file for a check which the script does not have has that fault, at its start, whatever it is.
pub fn checks_are_there()
    ensures { IsModelVerdict without_check 1 (codes "(((((") (Some no_such_check) }
{}
