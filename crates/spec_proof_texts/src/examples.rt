//! Worked examples: the lines of `specs/Examples.antt` as proofs. Each is a function whose contract says it; it computes
//! nothing.

ghost use Rattle.std.specs.Prelude.{◌++◌, codes};
ghost use Rattle.spec_checking.specs.Accepted.{IsAccepted};
ghost use Rattle.spec_checking.specs.Examples.{contradiction};
ghost use Rattle.spec_proof_texts.specs.Lines.{proof_text};
ghost use Rattle.spec_proof_texts.specs.Examples.{refutation};

/// States that the printed refutation is an accepted proof of the check of `contradiction`, alone and after the answer.
pub fn refutation_is_accepted()
    ensures alone { IsAccepted contradiction 1 (proof_text refutation) }
    ensures answered { IsAccepted contradiction 1 (codes "unsat\n" ++ proof_text refutation) }
{
    crate::laws::printed_proofs_are_accepted();
}
