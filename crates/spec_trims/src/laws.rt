//! What the definitions imply. Each law is a function whose contract is the law; it computes nothing.

ghost use Rattle.std.specs.Prelude.{◌≡◌, ℕ, ◌||◌, false, List, Option, Some, Ok};
ghost use Rattle.spec_text.specs.Trees.{Tree, Trees};
ghost use Rattle.spec_text.specs.Printed.{SameTrees};
ghost use Rattle.spec_text.specs.Readings.{is_long};
ghost use Rattle.spec_commands.specs.Checks.{Check};
ghost use Rattle.spec_proofs.specs.Texts.{IsWholeText};
ghost use Rattle.spec_checking.specs.Commands.{Known, Command, Shape, known_at};
ghost use Rattle.spec_checking.specs.Reading.{command_of};
ghost use Rattle.spec_checking.specs.Good.{AreGood, IsGood};
ghost use Rattle.spec_checking.specs.Accepted.{IsAccepted};
ghost use Rattle.spec_trims.specs.Trims.{definition_names, steps_made, terms_made, command_shape, some_rests_on};
ghost use Rattle.spec_trims.specs.Trims.{trimmed, trim_text, ArePart, AreNeeded};
ghost use Rattle.spec_trims.specs.Used.{some_among, all_steps_used, all_terms_used};

/// States that what is kept stands in the proof, in its order, and that nothing is kept without need: after each
/// command comes one that rests on it, up to a step with the empty clause.
pub fn trims_are_in_order()
    ensures part { (ts : Trees) → ArePart (trimmed ts) ts }
    ensures needed { (ts : Trees) → AreNeeded (trimmed ts) }
{}

/// States that trimming what is trimmed changes nothing.
pub fn trimming_is_idempotent()
    ensures { (ts : Trees) → trimmed (trimmed ts) ≡ trimmed ts }
{}

/// States that what is kept of a good proof of a check is a good proof of it, within the same limit.
pub fn trims_are_good()
    ensures { (limit : Option ℕ) (c : Check) (ts : Trees) → AreGood limit (known_at c) ts
        → AreGood limit (known_at c) (trimmed ts) }
{}

/// States that the names of terms that a command makes by its shape are those of the definitions that it is read with.
pub fn names_are_made_by_shape()
    ensures { (limit : Option ℕ) (k : Known) (t : Tree) (c : Command) (s : Shape) → command_of limit k t ≡ Ok c
        → command_shape t ≡ Some s → definition_names c.made ≡ terms_made s }
{}

/// States that some commands rest on another exactly where a name that this makes is one of those that they use. So
/// one pass from the last command to the first finds what is kept, with the names that are used so far.
pub fn commands_rest_on_names()
    ensures { (ds : Trees) (t : Tree) (c : Shape) → command_shape t ≡ Some c
        → some_rests_on ds t ≡ (some_among (steps_made c) (all_steps_used ds)
        || some_among (terms_made c) (all_terms_used ds)) }
{}

/// States that commands are good alike where they are equal but for offsets and bars.
pub fn places_do_not_matter()
    ensures { (limit : Option ℕ) (k : Known) (ts us : Trees) → SameTrees ts us → AreGood limit k ts
        → AreGood limit k us }
{}

/// States that the text of what is kept of a proof's text is read back, the whole of it, as what is kept but for
/// offsets and bars.
pub fn trimmed_texts_are_read_back()
    ensures { (text : List ℕ) (ts : Trees) → IsWholeText text ts
        → (us : Trees) × IsWholeText (trim_text ts) us × SameTrees (trimmed ts) us }
{}

/// States that to trim a trimmed text gives the same bytes.
pub fn trimming_texts_is_idempotent()
    ensures { (text : List ℕ) (ts us : Trees) → IsWholeText text ts → IsWholeText (trim_text ts) us
        → trim_text us ≡ trim_text ts }
{}

/// States that the trimmed text of a good proof is a good proof of the same check.
pub fn trimmed_texts_are_good()
    ensures { (limit : ℕ) (script : List ℕ) (k : ℕ) (proof : List ℕ) (g : IsGood limit script k proof)
        → IsGood limit script k (trim_text g.commands) }
{}

/// States that the trimmed text of an accepted proof is accepted for the same check where it is no longer than a text may
/// be.
pub fn trimmed_texts_are_accepted()
    ensures { (script : List ℕ) (k : ℕ) (proof : List ℕ) (a : IsAccepted script k proof)
        → is_long (trim_text a.commands) ≡ false → IsAccepted script k (trim_text a.commands) }
{}
