//! The script of a size: a cycle of orders between numbers, and a function of two of them.

ghost use Rattle.std.specs.Prelude.{◌≡◌, ◌++◌, ◌+◌, ◌%◌, ◌==◌, flat_map, IfOk, OnOk, if◌then◌else◌};
ghost use Rattle.gen_script.specs.Scripts.{numbers, declaration, order, equality, difference, script};

use itoa::Buffer;
use no_memory::NoMemory;
use std::alloc::Global;
use world_io::Bytes;

/// The lines before the first constant is declared.
const HEAD: &[u8] =
    b"(set-option :print-success false)\n(set-logic QF_UFLRA)\n(declare-fun f (Real) Real)\n";

/// Puts pieces last, one after the other.
fn add(text: &mut Vec<u8>, pieces: &[&[u8]]) -> Result<(), NoMemory>
    ensures { OnOk result (text.new.items ≡ text.old.items ++ flat_map (λ p. p.now) pieces.now) }
{
    for piece in pieces {
        text.extend_from_slice(piece)?;
    }
    Ok(())
}

/// Puts the line last that declares the constant with a number.
fn add_declaration(text: &mut Vec<u8>, i: u64) -> Result<(), NoMemory>
    ensures { OnOk result (text.new.items ≡ text.old.items ++ declaration i) }
{
    let mut digits = Buffer::new();
    let constant = digits.format(i).as_bytes();
    add(text, &[b"(declare-const x", constant, b" Real)\n"])
}

/// Puts the lines last that declare the first constants, so many of them.
fn add_declarations(text: &mut Vec<u8>, count: u64) -> Result<(), NoMemory>
    ensures { OnOk result (text.new.items ≡ text.old.items ++ flat_map declaration (numbers count)) }
{
    for i in 0..count {
        add_declaration(text, i)?;
    }
    Ok(())
}

/// Puts the line last that asserts that one constant is at most another.
fn add_order(text: &mut Vec<u8>, i: u64, j: u64) -> Result<(), NoMemory>
    ensures { OnOk result (text.new.items ≡ text.old.items ++ order i j) }
{
    let mut lower = Buffer::new();
    let mut upper = Buffer::new();
    add(
        text,
        &[
            b"(assert (<= x",
            lower.format(i).as_bytes(),
            b" x",
            upper.format(j).as_bytes(),
            b"))\n",
        ],
    )
}

/// Puts the lines last that assert that each of the first constants, so many of them, is at most the next one.
fn add_orders(text: &mut Vec<u8>, count: u64) -> Result<(), NoMemory>
    ensures { OnOk result (text.new.items ≡ text.old.items ++ flat_map (λ i. order i (i + 1)) (numbers count)) }
{
    for i in 0..count {
        add_order(text, i, i + 1)?;
    }
    Ok(())
}

/// Puts the line last that asserts that the function has one value at the first constant and at the one with this number, for
/// an even number, and that it has two, for an odd one.
fn add_ending(text: &mut Vec<u8>, n: u64) -> Result<(), NoMemory>
    ensures { OnOk result (text.new.items
        ≡ text.old.items ++ (if n % 2 == 0 then equality n else difference n)) }
{
    let mut digits = Buffer::new();
    let last = digits.format(n).as_bytes();
    if n % 2 == 0 {
        return add(text, &[b"(assert (= (f x0) (f x", last, b")))\n"]);
    }
    add(text, &[b"(assert (not (= (f x0) (f x", last, b"))))\n"])
}

/// Makes the script of a size.
///
/// It declares a function `f` and the constants `x0` to `xN`, asserts that each is at most the next one and the last at most
/// the first, and that `f` has one value at `x0` and `xN`, for an even N, or two, for an odd one. So all constants are equal,
/// and its check is answered `sat` for an even size, and `unsat` for an odd one. `NoMemory` comes where memory ran out.
pub fn text(alloc: Global, n: u64) -> Result<Bytes, NoMemory>
    ensures { IfOk result (λ b. b ≡ script n) }
{
    let mut text = Vec::new(alloc);
    text.extend_from_slice(HEAD)?;
    add_declarations(&mut text, n)?;
    add_declaration(&mut text, n)?;
    add_orders(&mut text, n)?;
    add_order(&mut text, n, 0)?;
    add_ending(&mut text, n)?;
    text.extend_from_slice(b"(check-sat)\n")?;
    Ok(Bytes::from(text))
}
