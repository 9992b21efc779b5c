//! Laws of the type of fractions: functions with empty bodies, whose clauses are proved of each value of it.

ghost use Rattle.std.specs.Prelude.{◌≡◌, true};
ghost use Rattle.spec_numbers.specs.Fractions.{IsReduced};
ghost use Rattle.spec_numbers.specs.Bounds.{fits};
ghost use Rattle.ratio128.specs.declared.ratio.Ratio.{Ratio};
ghost use Rattle.ratio128.specs.Meant.{fraction};

/// States that each `Ratio` is a fraction in lowest terms within the bound, and that two which are one fraction are the same.
pub fn ratios_are_fractions()
    ensures reduced { (a : Ratio) → IsReduced (fraction a) }
    ensures bounded { (a : Ratio) → fits (fraction a) ≡ true }
    ensures same { (a b : Ratio) → fraction a ≡ fraction b → a ≡ b }
{}
