//! What the definitions imply. Each law is a function whose contract is the law; it computes nothing.

ghost use Rattle.std.specs.Prelude.{◌≡◌, ℕ, List};
ghost use Rattle.spec_text.specs.Trees.{Trees};
ghost use Rattle.spec_proofs.specs.Texts.{Ending, IsProofText};

/// States that a proof's text is one row of commands with one ending.
pub fn proofs_have_one_reading()
    ensures { (text : List ℕ) (ts us : Trees) (e f : Ending) → IsProofText text ts e → IsProofText text us f
        → (ts ≡ us) × (e ≡ f) }
{
    spec_text::laws::lexemes_are_read_up_to_one_end();
}
