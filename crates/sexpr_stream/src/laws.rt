//! Laws of streams.

ghost use Rattle.std.specs.Prelude.{◌≡◌, ℕ, List, [], ◌++◌, Some, None, false, true};
ghost use Rattle.spec_text.specs.declared.Place.{Place};
ghost use Rattle.spec_text.specs.Trees.{Trees, none};
ghost use Rattle.spec_text.specs.Readings.{prefix, kept, IsReadUpTo};
ghost use Rattle.spec_text.specs.Lexemes.{lexemes_from};
ghost use Rattle.stream_scan.specs.Next.{IsNext};
ghost use Rattle.smt_lexer.specs.declared.Refusal.{Refusal};
ghost use Rattle.smt_sexpr.specs.declared.sexpr.Sexpr.{Sexpr};
ghost use Rattle.smt_sexpr.specs.Items.{tree_of};
ghost use Rattle.smt_sexpr.specs.Limited.{refusal_meant, IsStopped};
ghost use Rattle.smt_sexpr.specs.Open.{add};
ghost use Rattle.sexpr_stream.specs.declared.stream.Stream.{Stream};
ghost use Rattle.sexpr_stream.specs.Streams.{bytes_of, taken_to, is_fixed, HasItem, HasFault, IsDone};
ghost use Rattle.sexpr_stream.specs.Pieces.{MayCome, HasTaken};

/// States that what `next` gives is next in each text that goes on as the bytes do, of which the first 2^30 bytes are read.
/// It computes nothing.
pub fn what_is_next_stays()
    ensures item { (s : Stream) (x : Sexpr) (after : Place) (rest : List ℕ) → HasItem s x after → MayCome s rest
        → IsNext (kept (bytes_of s ++ rest)) (taken_to s) (tree_of x) }
    ensures fault { (s : Stream) (r : Refusal) (rest : List ℕ)
        → HasFault (is_fixed s) (bytes_of s) (taken_to s) r → MayCome s rest
        → IsStopped (bytes_of s ++ rest) 0 (lexemes_from (kept (bytes_of s ++ rest)) (taken_to s)) r }
{}

/// States that the s-expressions and the end of a text are those of its joined pieces, however it was cut: what was taken
/// are its first trees, call by call, and at the end they are all up to what stops them. It computes nothing.
///
/// One text has one such list of trees, and one such end (`a_text_is_read_up_to_one_end` of `spec_text`).
pub fn items_are_those_of_the_joined_pieces()
    ensures begun { (s : Stream) → bytes_of s ≡ [] → taken_to s ≡ 0 → HasTaken s [] none }
    ensures fed { (old new : Stream) (fed piece : List ℕ) (ts : Trees) → HasTaken old fed ts → old.closed ≡ false
        → bytes_of new ≡ prefix (bytes_of old ++ piece) → new.place ≡ old.place → HasTaken new (fed ++ piece) ts }
    ensures taken { (old new : Stream) (fed : List ℕ) (ts : Trees) (x : Sexpr) → HasTaken old fed ts
        → HasItem old x new.place → bytes_of new ≡ bytes_of old → new.closed ≡ old.closed
        → HasTaken new fed (add ts (tree_of x)) }
    ensures closed { (old new : Stream) (fed : List ℕ) (ts : Trees) → HasTaken old fed ts
        → bytes_of new ≡ bytes_of old → new.place ≡ old.place → new.closed ≡ true → HasTaken new fed ts }
    ensures done { (s : Stream) (fed : List ℕ) (ts : Trees) → HasTaken s fed ts → IsDone s → IsReadUpTo fed ts None }
    ensures fault { (s : Stream) (fed rest : List ℕ) (ts : Trees) (r : Refusal) → HasTaken s fed ts
        → HasFault (is_fixed s) (bytes_of s) (taken_to s) r → MayCome s rest
        → IsReadUpTo (fed ++ rest) ts (Some (refusal_meant r)) }
{}
