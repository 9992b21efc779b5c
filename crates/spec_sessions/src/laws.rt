//! What the definitions imply. Each law is a function whose contract is the law; it computes nothing.

ghost use Rattle.std.specs.Prelude.{◌≡◌, ℕ, Bool, List, Some, Err, All};
ghost use Rattle.spec_numbers.specs.Bounds.{Overflow};
ghost use Rattle.spec_text.specs.Faults.{Located};
ghost use Rattle.spec_text.specs.Answers.{Answer};
ghost use Rattle.spec_text.specs.Offsets.{HasOffset};
ghost use Rattle.spec_text.specs.Readings.{prefix};
ghost use Rattle.spec_text.specs.Trees.{Tree, offset_of};
ghost use Rattle.spec_sorts.specs.Literals.{Literal};
ghost use Rattle.spec_commands.specs.Checks.{Check, IsCurrent};
ghost use Rattle.spec_derivations.specs.Derivations.{Derivation};
ghost use Rattle.spec_sessions.specs.Evidence.{Limits, Kept, Found, spent, overflowed, Checked, Justifies, SpeaksOf};
ghost use Rattle.spec_sessions.specs.States.{State};
ghost use Rattle.spec_sessions.specs.Questions.{Question, question_of};
ghost use Rattle.spec_sessions.specs.Responses.{Mode, answer_to};
ghost use Rattle.spec_sessions.specs.Transcripts.{IsTranscript, IsBegun};
ghost use Rattle.spec_sessions.specs.Meaning.{IsKeptCheck, MeansAt, AnswerSays};
ghost use Rattle.spec_sessions.specs.Statements.{AnswersSay};

/// States that a transcript, or a prefix of one, of the prefix of a text, of 2^30 + 1 bytes at most, is one of the
/// whole text.
pub fn transcripts_need_a_prefix_alone()
    ensures whole { (limits : Limits) (mode : Mode) (text out : List ℕ) (refused : Bool)
        → IsTranscript limits mode (prefix text) out refused → IsTranscript limits mode text out refused }
    ensures begun { (limits : Limits) (mode : Mode) (text out : List ℕ) → IsBegun limits mode (prefix text) out
        → IsBegun limits mode text out }
{}

/// States what the answer of a check means. Take a check of what commands left, with names that can be printed. A model
/// makes true what is asked, and so does each interpretation with the values that its printed text defines. Where there
/// is a proof, no interpretation does, however long it is; and its text is a good proof of what is current there,
/// whatever the limits of the checker are. Of a check of a text it means the same. There a proof is accepted if it is
/// not too long, where the limit on terms is that of the checker. That a check was given up means nothing of what it
/// asks.
pub fn what_is_shown_is_so()
    ensures at { (limits : Limits) (c : Check) (f : Found) → IsKeptCheck limits.terms c → Justifies limits c f
        → MeansAt c f }
    ensures text { (limits : Limits) (text : List ℕ) (k : ℕ) (c : Checked) → IsCurrent limits.terms text k c.check
        → Justifies limits c.check c.found → AnswerSays limits text k c }
{
    spec_commands::texts_have_one_check_of_a_number();
    spec_commands::assertions_have_their_texts_value();
    spec_commands::what_is_asked_has_its_texts_value();
    spec_rules::laws::rules_are_sound();
    spec_models::laws::model_texts_say_their_interpretation();
    spec_models::laws::interpretations_of_one_text_agree();
    spec_checking::laws::accepted_proofs_are_good();
    spec_proof_texts::laws::checks_have_script_names();
    spec_proof_texts::laws::planned_lines_are_right();
    spec_proof_texts::laws::right_lines_are_good();
    spec_proof_texts::laws::printed_proofs_are_good();
    spec_proof_texts::laws::printed_proofs_are_accepted();
}

/// States of which equalities of elements learned clauses speak, where a check was given up: of atoms of its own terms
/// alone. The search may have spoken of others.
pub fn learned_clauses_speak_of_the_check()
    ensures spent { (limits : Limits) (c : Check) (n : ℕ) (d : Derivation) (learned : List (List Literal))
        → Justifies limits c (spent n d learned) → All (SpeaksOf c) learned }
    ensures overflowed { (limits : Limits) (c : Check) (o : Overflow) (k : Kept)
        → Justifies limits c (overflowed o k) → All (SpeaksOf c) k.learned }
{}

/// States that the fault of what is asked is at the offset of one of its atoms or lists.
pub fn faults_are_in_their_question()
    ensures { (limits : Limits) (s : State) (t : Tree) (asked : Answer Question) (f : Located)
        → question_of t ≡ Some asked → answer_to limits s (offset_of t) asked ≡ Err f → HasOffset t f.offset }
{}

/// States that the checks of a transcript are those of the text, the first of them the first. Each answer says what is so
/// of its check. The same is so of what was begun.
pub fn answers_say_what_is_so()
    ensures whole { (limits : Limits) (mode : Mode) (text out : List ℕ) (refused : Bool)
        → (t : IsTranscript limits mode text out refused) → AnswersSay limits text t.answers }
    ensures begun { (limits : Limits) (mode : Mode) (text out : List ℕ) (t : IsBegun limits mode text out)
        → AnswersSay limits text t.answers }
{
    what_is_shown_is_so();
}
