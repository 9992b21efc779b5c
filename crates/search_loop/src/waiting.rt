//! Which variables wait to be decided.

ghost use Rattle.std.specs.Prelude.{◌≡◌, ◌<◌, ◌++◌, [], length, List, All};
ghost use Rattle.term_core.specs.declared.ids.TermId.{TermId as Number};
ghost use Rattle.term_core.specs.declared.ids.Lit.{Lit as Literal};
ghost use Rattle.sat_trail.specs.Trails.{TrailView, IsCutTo};
ghost use Rattle.search_loop.specs.Waiting.{AreWaiting, AreOfAtoms};

use sat_trail::SatTrail;
use term_core::TermId;
use variable_order::VariableOrder;

/// Lets these atoms wait, besides others.
pub(crate) fn insert_all(order: &mut VariableOrder, atoms: &[TermId])
    requires known { All (λ v. v.0 < length order.old) atoms.now }
    ensures size { length order.new ≡ length order.old }
    ensures waiting { (before : List Number) (held : List Literal) → AreWaiting before held order.old
        → AreWaiting (before ++ atoms.now) held order.new }
{
    for atom in atoms {
        order.insert(*atom);
    }
}

/// Lets the variables wait whose literals are of higher levels than this, and keeps their signs.
pub(crate) fn put_back(
    order: &mut VariableOrder,
    phases: &mut Vec<bool>,
    trail: &SatTrail,
    level: u64,
)
    requires phases { length phases.old.items ≡ length order.old }
    requires vars { length order.old ≡ trail.now.vars }
    ensures phases { length phases.new.items ≡ length phases.old.items }
    ensures size { length order.new ≡ length order.old }
    ensures waiting { (atoms : List Number) (after : TrailView) → AreOfAtoms atoms trail.now.literals
        → IsCutTo trail.now level after → AreWaiting atoms trail.now.literals order.old
        → AreWaiting atoms after.literals order.new }
{
    trail.is_sound();
    let mut place = trail.len();
    'literals: while place > 0 {
        if trail.level_of(place - 1) <= level {
            return;
        }
        place -= 1;
        let l = trail.literal(place);
        phases[l.term.0 as usize] = l.positive;
        order.insert(l.term);
    }
}

/// Lets all variables wait that have a value, and keeps their signs.
pub(crate) fn put_all_back(order: &mut VariableOrder, phases: &mut Vec<bool>, trail: &SatTrail)
    requires phases { length phases.old.items ≡ length order.old }
    requires vars { length order.old ≡ trail.now.vars }
    ensures phases { length phases.new.items ≡ length phases.old.items }
    ensures size { length order.new ≡ length order.old }
    ensures waiting { (atoms : List Number) → AreOfAtoms atoms trail.now.literals
        → AreWaiting atoms trail.now.literals order.old → AreWaiting atoms [] order.new }
{
    trail.is_sound();
    let mut place = trail.len();
    'literals: while place > 0 {
        place -= 1;
        let l = trail.literal(place);
        phases[l.term.0 as usize] = l.positive;
        order.insert(l.term);
    }
}
