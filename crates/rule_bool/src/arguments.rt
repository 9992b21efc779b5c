//! The arguments of a step, by what their texts write.

ghost use Rattle.std.specs.Prelude.{IfOk};
ghost use Rattle.rule_bool.specs.Arguments.{texts_of, fractions_of, WritesCoefficients};

use linear_form::Coeff;
use ratio128::Ratio;
use ratio128::laws::ratios_are_fractions;
use std::alloc::{AllocError, Global};

/// Gives numbers as arguments: what is read of the text that is printed of each.
///
/// Time and memory go with how many they are; where there are none, it takes no memory. Source: Alethe specification, `:args`.
pub fn written_numbers(alloc: Global, numbers: &[Ratio]) -> Result<Vec<Coeff>, AllocError>
    ensures { IfOk result (λ v. WritesCoefficients (texts_of (fractions_of numbers.now)) v.items) }
{
    ratios_are_fractions();
    let mut found = Vec::new(alloc);
    for number in numbers {
        found.push(Coeff::Number(*number))?;
    }
    Ok(found)
}
