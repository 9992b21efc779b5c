//! What is decided next.

ghost use Rattle.std.specs.Prelude.{◌≡◌, ◌<◌, length, List, IfSome};
ghost use Rattle.term_core.specs.declared.ids.TermId.{TermId as Number};
ghost use Rattle.search_loop.specs.Waiting.{AreWaiting, IsDecision, IsOpen, Chooses};

use sat_trail::SatTrail;
use term_core::{Lit, TermId};
use variable_order::VariableOrder;

/// Gives the literal of a variable that has no value, with the sign that it had last; nothing where it has one.
fn choice_of(phases: &[bool], trail: &SatTrail, v: TermId) -> Option<Lit>
    requires phase { v.0 < length phases.now }
    requires known { v.0 < trail.now.vars }
    ensures { IsDecision trail.now.literals v result }
{
    let l = Lit {
        term: v,
        positive: phases[v.0 as usize],
    };
    match trail.value(l) {
        None => Some(l),
        Some(_) => None,
    }
}

/// Takes variables from the order until one has no value, and gives its literal with the sign that it had last; nothing where each has
/// a value.
pub(crate) fn next_decision(
    order: &mut VariableOrder,
    phases: &[bool],
    trail: &SatTrail,
) -> Option<Lit>
    requires phases { length phases.now ≡ length order.old }
    requires vars { length order.old ≡ trail.now.vars }
    ensures size { length order.new ≡ length order.old }
    ensures open { IfSome result (IsOpen trail.now) }
    ensures choice { (atoms : List Number) → AreWaiting atoms trail.now.literals order.old
        → Chooses atoms trail.now.literals order.new result }
{
    'variables: loop {
        let Some(v) = order.pop() else {
            return None;
        };
        if let Some(l) = choice_of(phases, trail, v) {
            return Some(l);
        }
    }
}
