//! What the definitions imply. Each law is a function whose contract is the law; it computes nothing.

ghost use Rattle.std.specs.Prelude.{◌≡◌, ◌↔◌, ◌≤◌, ℕ, Bool, true, List, length, All, Contains, Option, Some, None, Ok, Err};
ghost use Rattle.spec_text.specs.Trees.{Tree, Trees};
ghost use Rattle.spec_text.specs.Offsets.{HasOffset};
ghost use Rattle.spec_text.specs.Readings.{prefix};
ghost use Rattle.spec_text.specs.Bytes.{Name};
ghost use Rattle.spec_sorts.specs.Terms.{Symbol, Truth};
ghost use Rattle.spec_sorts.specs.Values.{Value, truth, Interpretation, Interprets, table_value};
ghost use Rattle.spec_sorts.specs.Signatures.{symbols_in};
ghost use Rattle.spec_rules.specs.Clauses.{term_true};
ghost use Rattle.spec_rules.specs.Truths.{Truths, term_true_by};
ghost use Rattle.spec_commands.specs.Stack.{Assertion, signature_of};
ghost use Rattle.spec_commands.specs.Checks.{Check, asked, term_limit, IsCurrent, MakesTrue, HasNoModel};
ghost use Rattle.spec_proofs.specs.Faults.{Fault};
ghost use Rattle.spec_checking.specs.Commands.{Known, Command, known_at};
ghost use Rattle.spec_checking.specs.Reading.{command_of};
ghost use Rattle.spec_checking.specs.Judging.{fault_of, FirstFault};
ghost use Rattle.spec_checking.specs.Good.{AreGood, IsGood};
ghost use Rattle.spec_checking.specs.Limits.{IsWithinLimits};
ghost use Rattle.spec_checking.specs.Accepted.{IsAccepted, IsVerdict};

/// States that commands are good exactly where they have no first fault, wherever the text ends. The two are stated apart:
/// goodness of the whole list, and the first fault by going through it.
pub fn good_proofs_have_no_fault()
    ensures { (limit : Option ℕ) (k : Known) (end : ℕ) (ts : Trees)
        → AreGood limit k ts ↔ FirstFault limit k end None ts None }
{}

/// States that the verdict has no fault exactly where the proof is accepted.
pub fn accepted_proofs_have_no_fault()
    ensures { (script proof : List ℕ) (k : ℕ) → IsVerdict script k proof None ↔ IsAccepted script k proof }
{
    good_proofs_have_no_fault();
}

/// States that limits only refuse: what is good within a limit on terms is good without one. So a proof is accepted exactly
/// where it is good and within the limits on bytes, and on terms and names.
pub fn accepted_proofs_are_good()
    ensures commands { (limit : Option ℕ) (k : Known) (ts : Trees) → AreGood limit k ts → AreGood None k ts }
    ensures whole { (script proof : List ℕ) (k : ℕ) → IsAccepted script k proof → IsGood term_limit script k proof }
    ensures exact { (script proof : List ℕ) (k : ℕ)
        → IsAccepted script k proof ↔ ((g : IsGood term_limit script k proof) × IsWithinLimits script k proof g) }
{}

/// States that no interpretation makes true what a check asks about, under any limit on terms, of which commands or a
/// whole text are a good proof. It may be as long as one likes, as deep, and have as many terms.
pub fn good_proofs_are_sound()
    ensures commands { (limit : ℕ) (script : List ℕ) (k : ℕ) (c : Check) (ts : Trees) → IsCurrent limit script k c
        → AreGood None (known_at c) ts → HasNoModel limit script k }
    ensures whole { (limit : ℕ) (script proof : List ℕ) (k : ℕ) → IsGood limit script k proof
        → HasNoModel limit script k }
{
    spec_rules::laws::rules_are_sound();
    spec_commands::texts_have_one_check_of_a_number();
    spec_commands::what_is_asked_has_its_texts_value();
    spec_commands::assertions_have_their_texts_value();
}

/// States that no interpretation makes true what is current at a check of which a proof is accepted.
pub fn acceptance_is_sound()
    ensures { (script proof : List ℕ) (k : ℕ) → IsAccepted script k proof → HasNoModel term_limit script k }
{
    accepted_proofs_are_good();
    good_proofs_are_sound();
}

/// States that commands have at most one first fault.
pub fn first_fault_is_one()
    ensures { (limit : Option ℕ) (k : Known) (end : ℕ) (ending : Option Fault) (ts : Trees) (a b : Option Fault)
        → FirstFault limit k end ending ts a → FirstFault limit k end ending ts b → a ≡ b }
{
    spec_rules::laws::wide_steps_are_not_right();
}

/// States that a script and a proof have at most one verdict at a check.
pub fn verdict_is_one()
    ensures { (script proof : List ℕ) (k : ℕ) (a b : Option Fault) → IsVerdict script k proof a
        → IsVerdict script k proof b → a ≡ b }
{
    first_fault_is_one();
    spec_proofs::laws::proofs_have_one_reading();
    spec_commands::texts_have_one_check_of_a_number();
}

/// States that a verdict on the prefixes of two texts, of 2^30 + 1 bytes each at the most, is the verdict on the whole
/// texts.
pub fn verdicts_need_a_prefix_alone()
    ensures { (script proof : List ℕ) (k : ℕ) (found : Option Fault) → IsVerdict (prefix script) k (prefix proof) found
        → IsVerdict script k proof found }
{}

/// States that the definition of models is met where it should be. Whatever truths names have, some interpretation of the
/// declared symbols gives them to those of sort Bool. And an interpretation under which the term of each assertion is true
/// makes the texts true.
pub fn satisfied_scripts_have_a_model()
    ensures truths { (limit : ℕ) (script : List ℕ) (k : ℕ) (c : Check) (v : Name → Bool) → IsCurrent limit script k c
        → (i : Interpretation) × Interprets i (symbols_in (signature_of c.stack))
        × ((f : Symbol) (vs : List Value) → Contains (symbols_in (signature_of c.stack)) f → f.result ≡ Truth
        → table_value i f.name vs ≡ truth (v f.name)) }
    ensures model { (limit : ℕ) (script : List ℕ) (k : ℕ) (c : Check) → IsCurrent limit script k c
        → (i : Interpretation) → Interprets i (symbols_in (signature_of c.stack))
        → All (λ (a : Assertion). term_true i a.term ≡ true) (asked c) → MakesTrue limit i script k }
{
    spec_commands::assertions_have_their_texts_value();
    spec_commands::what_is_asked_has_its_texts_value();
    spec_sorts::values_have_their_terms_sort();
}

/// States that the fault of a command of a proof is at the offset of one of its atoms or lists: that of reading it,
/// and that of a command that is read and is not right.
pub fn faults_are_in_their_command()
    ensures reading { (limit : Option ℕ) (k : Known) (t : Tree) (f : Fault) → command_of limit k t ≡ Err f
        → HasOffset t f.offset }
    ensures judging { (limit : Option ℕ) (k : Known) (t : Tree) (c : Command) → command_of limit k t ≡ Ok c
        → HasOffset t (fault_of c.statement).offset }
{}

/// States that the fault of a verdict lies in the proof, or at its end.
pub fn faults_are_in_their_proof()
    ensures { (script proof : List ℕ) (k : ℕ) (f : Fault) → IsVerdict script k proof (Some f)
        → f.offset ≤ length proof }
{
    spec_text::laws::trees_are_in_their_text();
    spec_text::laws::lexical_faults_are_in_their_text();
}

/// States that goodness is not asked in vain. Where no truths of the terms below negations make true what a check asks
/// about, there is a good proof, within the limit of the script. It is given by its trees: its text may be longer than a
/// text may be.
pub fn unsatisfiable_scripts_have_a_proof()
    ensures truths { (limit : ℕ) (script : List ℕ) (k : ℕ) (c : Check) → IsCurrent limit script k c
        → ((v : Truths) → All (λ (a : Assertion). term_true_by v a.term ≡ true) (asked c) → ⊥)
        → (ts : Trees) × AreGood (Some limit) (known_at c) ts }
{
    spec_commands::assertions_have_their_texts_value();
}
