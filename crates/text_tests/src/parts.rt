//! Fractions and operations, by the parts of rows.

use ratio128::{Op, Ratio};

/// Reads a fraction, if the text is one within the bound.
pub(crate) fn ratio_of(text: &str) -> Option<Ratio> {
    let (num, den) = text.split_once('/')?;
    let num = num.parse::<i128>().ok()?;
    let den = den.parse::<i128>().ok()?;
    if den == 0 || num == i128::MIN || den == i128::MIN {
        return None;
    }
    Some(Ratio::of(num, den))
}

/// Reads an operation by its sign.
pub(crate) fn op_of(text: &str) -> Option<Op> {
    match text {
        "+" => Some(Op::Add),
        "-" => Some(Op::Sub),
        "*" => Some(Op::Mul),
        "/" => Some(Op::Div),
        _ => None,
    }
}
