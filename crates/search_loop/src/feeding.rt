//! What a theory is given: literals as they come to hold, and levels that are taken back.

ghost use Rattle.std.specs.Prelude.{◌≡◌, ◌≤◌, ◌<◌, length, take, Contains};
ghost use Rattle.term_core.specs.declared.ids.Lit.{Lit as Literal};
ghost use Rattle.proof_log.specs.Meanings.{GoesBack};
ghost use Rattle.sat_trail.specs.Trails.{IsCutTo};
ghost use Rattle.search_loop.specs.Asking.{MarksRise, KeepsUp};
ghost use Rattle.search_loop.specs.Loops.{FeedsTheory, GoesBackWith};

use proof_log::Theory;
use sat_trail::SatTrail;

/// Lets a theory hold the literals of the trail from a place on, where it holds those before it. It takes no memory.
pub(crate) fn feed<T: Theory>(theory: &mut T, trail: &SatTrail, from: u64)
    requires from { from ≤ length trail.now.literals }
    requires front { (T.meaning theory.old).view.held ≡ take from trail.now.literals }
    requires watched { (l : Literal) → Contains trail.now.literals l
        → Contains (T.meaning theory.old).view.watched l.term }
    ensures { FeedsTheory trail.now.literals (T.meaning theory.old) (T.meaning theory.new) }
{
    trail.is_sound();
    'places: for place in from..trail.len() {
        theory.assume_lit(trail.literal(place));
    }
}

/// Lets a theory go back over so many marks. It takes no memory.
fn back<T: Theory>(theory: &mut T, marks: u64)
    requires there { marks ≤ length (T.meaning theory.old).view.marks }
    requires rising { MarksRise (T.meaning theory.old).view }
    ensures { GoesBack marks (T.meaning theory.old) (T.meaning theory.new) }
{
    'marks: for _ in 0..marks {
        theory.back(1);
    }
}

/// Goes back to a level below the trail's, and lets a theory do so. It takes no memory.
pub(crate) fn go_back<T: Theory>(theory: &mut T, trail: &mut SatTrail, level: u64)
    requires below { level < trail.old.level }
    requires keeps { KeepsUp (T.meaning theory.old).view trail.old }
    ensures cut { IsCutTo trail.old level trail.new }
    ensures back { GoesBackWith trail.new (T.meaning theory.old) (T.meaning theory.new) }
{
    trail.is_sound();
    back(theory, trail.level() - level);
    trail.back_to(level);
}
