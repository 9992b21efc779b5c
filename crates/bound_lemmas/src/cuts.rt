//! Where orders of numbers cut the values of sums.

ghost use Rattle.std.specs.Prelude.{◌≡◌, IfOk, IfSome};
ghost use Rattle.term_core.specs.Tables.{IsIn};

use crate::sums::SumNumbers;
use linear_form::Form;
use no_memory::NoMemory;
use ratio128::Ratio;
use simplex_atoms::{AtomSides, AtomStop, Comparison, difference_of, sides_of};
use std::alloc::Global;
use term_core::{Lit, TermId, TermTable};

/// Says where an order cuts the values of a sum in two.
#[derive(Clone, Copy, Debug, PartialEq, Eq)]
pub(crate) struct Cut {
    /// The number of the sum.
    pub(crate) sum: u64,
    /// The value at which it cuts.
    pub(crate) place: Ratio,
    /// Whether that value itself is below the cut.
    pub(crate) after: bool,
    /// The size of the number by which the form of the order is the sum's: that of its first coefficient.
    pub(crate) size: Ratio,
    /// The literal of the order that says that the sum is below the cut.
    pub(crate) below: Lit,
}

/// Gives the quotient of two numbers; nothing where the second is 0 or the quotient leaves 128 bits.
pub(crate) fn quotient(a: Ratio, d: Ratio) -> Option<Ratio> {
    if d.is_zero() {
        return None;
    }
    Ratio::div(a, d).ok()
}

/// Writes a sum's terms by their numbers, with the coefficients over one number; nothing where one of these leaves 128 bits.
///
/// `NoMemory` comes where there is no memory.
fn over(
    alloc: Global,
    variables: &[(TermId, Ratio)],
    lead: Ratio,
) -> Result<Option<Vec<(u64, Ratio)>>, NoMemory> {
    let mut sum = Vec::new(alloc);
    'variables: for at in 0..variables.len() {
        let (id, k) = variables[at];
        let Some(k) = quotient(k, lead) else {
            return Ok(None);
        };
        sum.push((id.0, k))?;
    }
    Ok(Some(sum))
}

/// Says where an atom cuts, by the form of which it says that it is below 0, or not above it.
///
/// Nothing is given where the form has no variable or a number leaves 128 bits; `NoMemory` comes where there is no memory.
fn cut_by(
    alloc: Global,
    form: &Form,
    sums: &mut SumNumbers,
    sides: AtomSides,
) -> Result<Option<Cut>, NoMemory>
    ensures { IfOk result (λ found. IfSome found (λ cut. cut.below.term ≡ sides.atom)) }
{
    let mut variables = form.variables(alloc)?;
    variables.sort_unstable_by_key(|x| x.0.0);
    let Some((_, lead)) = variables.first() else {
        return Ok(None);
    };
    let lead = *lead;
    let Some(place) = quotient(form.constant().neg(), lead) else {
        return Ok(None);
    };
    let Some(sum) = over(alloc, &variables, lead)? else {
        return Ok(None);
    };
    let is_below = lead.num() > 0;
    let is_strict = sides.kind == Comparison::Less;
    let size = if is_below { lead } else { lead.neg() };
    Ok(Some(Cut {
        sum: sums.number(sum)?,
        place,
        after: is_strict != is_below,
        size,
        below: Lit {
            term: sides.atom,
            positive: is_below,
        },
    }))
}

/// Says where an atom cuts.
///
/// Nothing is given where it is no order of numbers, where no term is in it with a coefficient other than 0, and where a number
/// leaves 128 bits; `NoMemory` comes where there is no memory.
pub(crate) fn cut_of(
    alloc: Global,
    table: &TermTable,
    sums: &mut SumNumbers,
    atom: TermId,
) -> Result<Option<Cut>, NoMemory>
    requires { IsIn table.now atom }
    ensures { IfOk result (λ found. IfSome found (λ cut. cut.below.term ≡ atom)) }
{
    let Some(sides) = sides_of(table, atom) else {
        return Ok(None);
    };
    if sides.kind == Comparison::Equal {
        return Ok(None);
    }
    let sides = AtomSides { atom, ..sides };
    match difference_of(alloc, table, sides) {
        Ok(form) => cut_by(alloc, &form, sums, sides),
        Err(AtomStop::Wide(_)) => Ok(None),
        Err(AtomStop::Memory) => Err(NoMemory),
    }
}
