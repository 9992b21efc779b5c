//! Reasons why a check was answered `unknown`: each alone on a line, or under its keyword.

ghost use Rattle.std.specs.Prelude.{◌≡◌, ◌++◌};
ghost use Rattle.spec_text.specs.Printed.{printed};
ghost use Rattle.spec_models.specs.Replies.{operation_word, count_tree, conflicts, overflow, reason_text, reason_line, reason_info};
ghost use Rattle.ratio128.specs.Meant.{overflow as overflow_meant};
ghost use Rattle.world_io.specs.Writing.{Sends};

use crate::values::write_ratio;
use itoa::Buffer;
use ratio128::{Op, Wide};
use spec_models::laws::numerals_are_decimal;
use world_io::{Failed, Sink, write_all, write_pieces};

/// Writes a number after a word, in parentheses, between the bytes before it and those after it.
fn write_count<'a, K: Sink>(
    before: &'a [u8],
    what: &'a [u8],
    count: u64,
    after: &'a [u8],
    out: &mut K,
) -> Result<(), Failed>
    ensures { Sends (before.now ++ (printed (count_tree what.now count) ++ after.now)) result
        (K.state out.old) (K.state out.new) }
{
    numerals_are_decimal();
    let mut number = Buffer::new();
    write_pieces(
        out,
        &[
            before,
            b"(",
            what,
            b" ",
            number.format(count).as_bytes(),
            b")",
            after,
        ],
    )
}

/// Writes the line of a check that learned from as many conflicts as it may, as `(conflicts 10)`.
///
/// It takes no memory. `Failed` comes only where the sink's count of faults rose in this call; a prefix was then appended.
pub fn spent<K: Sink>(count: u64, out: &mut K) -> Result<(), Failed>
    ensures { Sends (reason_line (conflicts count)) result (K.state out.old) (K.state out.new) }
{
    write_count(b"", b"conflicts", count, b"\n", out)
}

/// Writes the same reason under its keyword, as `(:reason-unknown (conflicts 10))` on a line.
///
/// It takes no memory. `Failed` comes only where the sink's count of faults rose in this call; a prefix was then appended.
/// Source: SMT-LIB 2.6, section 4.1.8; the text of the reason is own.
pub fn spent_info<K: Sink>(count: u64, out: &mut K) -> Result<(), Failed>
    ensures { Sends (reason_info (conflicts count)) result (K.state out.old) (K.state out.new) }
{
    write_count(b"(:reason-unknown ", b"conflicts", count, b")\n", out)
}

/// Gives the letters of an operation.
fn letters(op: Op) -> &'static [u8]
    ensures { result.now ≡ operation_word op }
{
    match op {
        Op::Add => b"add",
        Op::Sub => b"sub",
        Op::Mul => b"mul",
        Op::Div => b"div",
    }
}

/// Writes an operation that leaves the bound, with its operands.
fn write_overflow<K: Sink>(wide: Wide, out: &mut K) -> Result<(), Failed>
    ensures { Sends (reason_text (overflow (overflow_meant wide))) result (K.state out.old) (K.state out.new) }
{
    write_pieces(out, &[b"(overflow ", letters(wide.op), b" "])?;
    write_ratio(wide.left, out)?;
    write_all(out, b" ")?;
    write_ratio(wide.right, out)?;
    write_all(out, b")")
}

/// Writes the line of a check that needs an operation which leaves the bound: the operation, and its operands as models
/// print them, as `(overflow mul 100 (/ 1 3))`.
///
/// It takes no memory. `Failed` comes only where the sink's count of faults rose in this call; a prefix was then appended.
pub fn overflow<K: Sink>(wide: Wide, out: &mut K) -> Result<(), Failed>
    ensures { Sends (reason_line (overflow (overflow_meant wide))) result (K.state out.old) (K.state out.new) }
{
    write_overflow(wide, out)?;
    write_all(out, b"\n")
}

/// Writes the same reason under its keyword, as `(:reason-unknown (overflow mul 100 (/ 1 3)))` on a line.
///
/// It takes no memory. `Failed` comes only where the sink's count of faults rose in this call; a prefix was then appended.
/// Source: SMT-LIB 2.6, section 4.1.8; the text of the reason is own.
pub fn overflow_info<K: Sink>(wide: Wide, out: &mut K) -> Result<(), Failed>
    ensures { Sends (reason_info (overflow (overflow_meant wide))) result (K.state out.old) (K.state out.new) }
{
    write_all(out, b"(:reason-unknown ")?;
    write_overflow(wide, out)?;
    write_all(out, b")\n")
}
