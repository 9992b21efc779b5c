//! Worked examples: verdicts on the texts of `specs/ProofTexts.antt`. Each is a function whose contract is the verdict; it
//! computes nothing. Next to each fault are its line and its column.

ghost use Rattle.std.specs.Prelude.{Some, None};
ghost use Rattle.spec_text.specs.declared.Fault.TheVariants as faults;
ghost use Rattle.spec_sorts.specs.Written.{trees_in};
ghost use Rattle.spec_commands.specs.Checks.{term_limit, HasNoModel};
ghost use Rattle.spec_proofs.specs.declared.ProofKind.TheVariants.{Lexical, BadShape, UnknownPremise, NotAsserted, RuleFails, NoEmptyClause, Term, NoSuchCheck};
ghost use Rattle.spec_proofs.specs.Faults.{fault_at};
ghost use Rattle.spec_checking.specs.Good.{AreGood, IsGood};
ghost use Rattle.spec_checking.specs.Accepted.{IsAccepted, IsVerdict};
ghost use Rattle.spec_checking.specs.Examples.{contradiction, known};
ghost use Rattle.spec_checking.specs.ProofTexts.{IsAt, refutation, listed_proof, with_numbers, unknown_premise, not_linear, one_premise, dropped_literal, not_asserted, assumption, behind_list, unclosed};

/// States that a refutation has no fault, and is accepted: a row of commands, or a list of them after `unsat`. So the
/// script has no model.
pub fn refutation_is_accepted()
    ensures row { IsVerdict contradiction 1 refutation None }
    ensures list { IsVerdict contradiction 1 listed_proof None }
    ensures accepted { IsAccepted contradiction 1 listed_proof }
    ensures no_model { HasNoModel term_limit contradiction 1 }
{
    crate::laws::accepted_proofs_have_no_fault();
    crate::laws::acceptance_is_sound();
}

/// States that a proof may have numbers, `let`, and definitions with parameters, and arguments of a rule that takes none.
pub fn terms_of_the_whole_language_are_taken()
    ensures { IsVerdict contradiction 1 with_numbers None }
{}

/// States that a proof of more names and terms than a limit allows is good, though not within that limit.
pub fn good_proofs_have_no_limit()
    ensures good { AreGood None known (trees_in refutation) }
    ensures limited { AreGood (Some 3) known (trees_in refutation) → ⊥ }
    ensures whole { IsGood term_limit contradiction 1 listed_proof }
{
    crate::laws::accepted_proofs_are_good();
    refutation_is_accepted();
}

/// States where the fault of a command that cannot be read is.
pub fn commands_are_read()
    ensures premise { IsVerdict contradiction 1 unknown_premise (Some (fault_at 79 UnknownPremise))
        × IsAt unknown_premise 79 3 46 }
    ensures term { IsVerdict contradiction 1 not_linear (Some (fault_at 28 (Term faults.NotLinear)))
        × IsAt not_linear 28 2 15 }
{}

/// States where the fault of a command that is read, but not right, is.
pub fn commands_are_judged()
    ensures assumed { IsVerdict contradiction 1 not_asserted (Some (fault_at 25 NotAsserted))
        × IsAt not_asserted 25 2 12 }
    ensures resolved { IsVerdict contradiction 1 one_premise (Some (fault_at 34 RuleFails)) × IsAt one_premise 34 3 1 }
    ensures dropped { IsVerdict contradiction 1 dropped_literal (Some (fault_at 14 RuleFails))
        × IsAt dropped_literal 14 2 1 }
{}

/// States that a proof without an empty clause is none, though its commands are right.
pub fn empty_clause_is_wanted()
    ensures { IsVerdict contradiction 1 assumption (Some (fault_at 14 NoEmptyClause)) × IsAt assumption 14 2 1 }
{}

/// States that a proof's text is commands to its end, and where the fault of one that is not is.
pub fn texts_end_with_their_commands()
    ensures unclosed { IsVerdict contradiction 1 unclosed (Some (fault_at 26 (Lexical faults.UnclosedList)))
        × IsAt unclosed 26 2 13 }
    ensures behind_list { IsVerdict contradiction 1 behind_list (Some (fault_at 16 BadShape))
        × IsAt behind_list 16 2 1 }
{}

/// States that a proof of a check which the script does not have has that fault, at its start, whatever it is.
pub fn checks_are_there()
    ensures { IsVerdict contradiction 2 refutation (Some (fault_at 0 NoSuchCheck)) }
{}
