//! Laws of linked terms and of their paths, as functions without a body.

ghost use Rattle.std.specs.Prelude.{◌≡◌, ℕ, suc, ◌<◌, ◌≤◌, ◌↔◌, ◌⊎◌, List, ◌∷◌, [], length};
ghost use Rattle.explain_forest.specs.declared.types.Edge.{Edge};
ghost use Rattle.explain_forest.specs.Forest.{Linked, IsBetween, path, numbered, older};

/// States that with one edge more those terms are linked that were, and those between which it is.
pub fn an_edge_links_what_it_is_between()
    ensures { (e : Edge) (es : List Edge) (x y : ℕ) → Linked (e ∷ es) x y ↔ (Linked es x y ⊎ IsBetween es e x y) }
{}

/// States that what the oldest edges link, all link, by the same path; a term has no step to itself.
pub fn older_edges_give_the_path()
    ensures linked { (es : List Edge) (k x y : ℕ) → Linked (older es k) x y → Linked es x y }
    ensures path { (es : List Edge) (k x y : ℕ) → Linked (older es k) x y → path es x y ≡ path (older es k) x y }
    ensures none { (es : List Edge) (x : ℕ) → path es x x ≡ [] }
{}

/// States which edges the oldest are, and that they keep their numbers.
pub fn older_edges_keep_their_numbers()
    ensures none { (es : List Edge) → older es 0 ≡ [] }
    ensures next { (es : List Edge) (k : ℕ) → k < length es → older es (suc k) ≡ numbered es k ∷ older es k }
    ensures all { (es : List Edge) (k : ℕ) → length es ≤ k → older es k ≡ es }
    ensures count { (es : List Edge) (k : ℕ) → k ≤ length es → length (older es k) ≡ k }
    ensures numbers { (es : List Edge) (k j : ℕ) → j < k → k ≤ length es → numbered (older es k) j ≡ numbered es j }
{}
