//! Laws of places and of the bounds that literals state.

ghost use Rattle.std.specs.Prelude.{◌≡◌, ℕ, false, Some, [], Contains};
ghost use Rattle.spec_numbers.specs.Fractions.{IsReduced, times};
ghost use Rattle.spec_sorts.specs.Terms.{Term};
ghost use Rattle.spec_arithmetic.specs.Forms.{Form, form_value};
ghost use Rattle.spec_tableaux.specs.Spaces.{Pair, as_space};
ghost use Rattle.spec_tableaux.specs.Rows.{Solves};
ghost use Rattle.spec_tableaux.specs.Numbers.{Number, numbers};
ghost use Rattle.spec_simplex.specs.Constraints.{Relation};
ghost use Rattle.spec_simplex.specs.Points.{Point, base_at, tilt_at, KeepsLiteral};
ghost use Rattle.spec_simplex.specs.Weights.{signed_weight};
ghost use Rattle.ratio128.specs.Meant.{fraction};
ghost use Rattle.term_core.specs.declared.ids.Lit.{Lit};
ghost use Rattle.term_core.specs.Tables.{TableView, Extends};
ghost use Rattle.tableau.specs.Numbers.{number_of};
ghost use Rattle.spec_tableaux.specs.Points.{deltas};
ghost use Rattle.simplex_bounds.specs.Held.{BoundsView};
ghost use Rattle.simplex_check.specs.Assignments.{AssignmentView, empty_assignment};
ghost use Rattle.simplex_atoms.specs.declared.slack.Slack.{Slack};
ghost use Rattle.simplex_atoms.specs.Owners.{AreOwned};
ghost use Rattle.simplex_atoms.specs.Slacks.{AtomSetting, IsFormOf, HasSlackIn, relation_by};
ghost use Rattle.simplex_atoms.specs.Limits.{Limit, limits_by, AreLimitsKept, signed_by, weight_of, is_strict};
ghost use Rattle.simplex_atoms.specs.Atoms.{AtomsView, AtomsFit};

/// States what value a form has by its place: over numbers, and at points with infinitesimals.
pub fn slacks_tell_values()
    ensures numbers { (s : AtomSetting) (slack : Slack) (f : Form) → IsFormOf s slack f
        → (n : Term → Number) (v : ℕ → Number) → AreOwned s.table s.owners n v → Solves (as_space numbers) v s.listed
        → form_value (λ u. (n u).fraction) f
        ≡ (numbers.plus (numbers.times (number_of slack.factor) (v slack.variable))
        (number_of slack.constant)).fraction }
    ensures bases { (s : AtomSetting) (slack : Slack) (f : Form) → IsFormOf s slack f
        → (p : Point) (v : ℕ → Pair Number) → AreOwned s.table s.owners p v → Solves deltas v s.listed → base_at p f
        ≡ (numbers.plus (numbers.times (number_of slack.factor) (v slack.variable).base)
        (number_of slack.constant)).fraction }
    ensures tilts { (s : AtomSetting) (slack : Slack) (f : Form) → IsFormOf s slack f
        → (p : Point) (v : ℕ → Pair Number) → AreOwned s.table s.owners p v → Solves deltas v s.listed
        → tilt_at p f ≡ (numbers.times (number_of slack.factor) (v slack.variable).tilt).fraction }
{}

/// States that where values of variables keep the bounds that a literal states, a point that has them for terms keeps
/// the literal.
pub fn kept_bounds_keep_literals()
    ensures { (s : AtomSetting) (slack : Slack) (atom : Term) → HasSlackIn s slack atom
        → (p : Point) (v : ℕ → Pair Number) → AreOwned s.table s.owners p v → Solves deltas v s.listed
        → (l : Lit) → AreLimitsKept v (limits_by slack l)
        → KeepsLiteral p (record { atom = atom; positive = l.positive }) }
{}

/// States what the bounds are that a literal states: of the place's variable, off its bound by an infinitesimal only
/// where 0 does not compare with 0 as the literal says; and that the weight of a bound makes one of the literal, in
/// lowest terms, which times the factor is the bound's.
pub fn bounds_have_weights()
    ensures states { (slack : Slack) (l : Lit) (b : Limit) → Contains (limits_by slack l) b
        → (b.variable ≡ slack.variable) × (b.literal ≡ l) × (b.value.base ≡ number_of slack.bound) }
    ensures tilt { (slack : Slack) (l : Lit) (r : Relation) → relation_by slack.kind l.positive ≡ Some r
        → (b : Limit) → Contains (limits_by slack l) b → is_strict r ≡ false → b.value.tilt ≡ numbers.zero }
    ensures reduced { (slack : Slack) (r : Relation) (s : Number) → IsReduced (weight_of r slack s) }
    ensures weight { (slack : Slack) (l : Lit) (r : Relation) → relation_by slack.kind l.positive ≡ Some r
        → numbers.is_zero (number_of slack.factor) ≡ false → (b : Limit) → Contains (limits_by slack l) b
        → (m : Number) → numbers.is_negative m ≡ false
        → times (signed_weight r (weight_of r slack (signed_by b.side m))) (fraction slack.factor)
        ≡ (signed_by b.side m).fraction }
{}

/// States that no atoms fit each table, an assignment without variables and bounds of no variables.
pub fn no_atoms_fit()
    ensures { (t : TableView) → AtomsFit t (record { owners = []; sums = []; slack_list = [] }) empty_assignment
        (record { variables = 0; held = []; room = 0 }) }
{}

/// States that atoms that fit a table fit it once it has grown.
pub fn atoms_fit_grown_tables()
    ensures { (old new : TableView) → Extends old new → (a : AtomsView) (b : AssignmentView) (bounds : BoundsView)
        → AtomsFit old a b bounds → AtomsFit new a b bounds }
{}
