//! The arguments that a program is started with, its name first.

ghost use Rattle.std.specs.Prelude.{◌≡◌, ℕ, List, Option, None, IfOk};
ghost use Rattle.std.specs.Io.{WritesAtMost};
ghost use Rattle.smt_top.specs.CommandLine.{Fills, GivesBytes, GivesArgument, GivesArguments};
ghost use Rattle.smt_top.specs.declared.command_line.UnreadArguments.TheVariants as unread;

use std::alloc::{AllocError, Global};
use std::env::FillError;
use std::rt::Env;

/// How many bytes are first asked for of an argument.
const FIRST_SIZE: usize = 256;

/// Tells why the arguments were not had.
#[derive(Clone, Copy, Debug, PartialEq, Eq)]
pub enum UnreadArguments {
    /// One of them is not UTF-8.
    NotUnicode,
    /// An allocation was refused.
    Memory,
}

impl From<AllocError> for UnreadArguments {
    ghost from_gives = { λ _ e. e ≡ unread.Memory };

    fn from(_error: AllocError) -> UnreadArguments {
        UnreadArguments::Memory
    }
}

/// Holds the arguments that a program is started with, its name first.
///
/// Contracts see them in order, where they are known.
pub trait CommandLine {
    /// The arguments in order, where they are known.
    ghost arguments: { Self → Option (List (List ℕ)) };

    /// Copies the argument at this place, from 0, to the start of the buffer, and gives its length in bytes.
    ///
    /// `NotPresent` comes after the last argument, `TooLong` where the buffer has fewer bytes than the argument.
    fn fill(&self, place: usize, buf: &mut [u8]) -> Result<usize, FillError>
        ensures bound { WritesAtMost result buf.new }
        ensures argument { Fills (arguments self.now) place result buf.new };
}

/// Gives the arguments of the environment. Contracts know nothing of them.
#[derive(Drop)]
pub struct HostCommandLine<'a, R: Env> {
    rt: &'a R,
}

impl<'a, R: Env> HostCommandLine<'a, R> {
    /// Makes the command line of the environment of `rt`.
    pub fn new(rt: &'a R) -> Self {
        HostCommandLine { rt }
    }
}

impl<'a, R: Env> CommandLine for HostCommandLine<'a, R> {
    ghost arguments = { λ _. None };

    fn fill(&self, place: usize, buf: &mut [u8]) -> Result<usize, FillError> {
        self.rt.arg(place, buf)
    }
}

/// Collects all arguments in order, the program's name first.
///
/// `NotUnicode` comes only where one of them is not UTF-8, `Memory` only where an allocation was refused.
pub fn arguments_of<C: CommandLine>(alloc: Global, line: &C) -> Result<Vec<String>, UnreadArguments>
    ensures { GivesArguments (C.arguments line.now) result }
{
    let mut arguments = Vec::new(alloc);
    'turns: for _ in 0..usize::MAX {
        let Some(argument) = argument_at(alloc, line, arguments.len())? else {
            return Ok(arguments);
        };
        let Ok(()) = arguments.push(argument) else {
            return Err(UnreadArguments::Memory);
        };
    }
    Err(UnreadArguments::Memory)
}

/// Gives the argument at this place, from 0, and `None` after the last.
///
/// Errors are those of `arguments_of`.
fn argument_at<C: CommandLine>(
    alloc: Global,
    line: &C,
    place: usize,
) -> Result<Option<String>, UnreadArguments>
    ensures { GivesArgument (C.arguments line.now) place result }
{
    let Some(bytes) = bytes_at(alloc, line, place)? else {
        return Ok(None);
    };
    match String::from_utf8(bytes) {
        Ok(argument) => Ok(Some(argument)),
        Err(_) => Err(UnreadArguments::NotUnicode),
    }
}

/// Gives the bytes of the argument at this place, from 0, and `None` after the last.
///
/// `AllocError` comes where an allocation was refused.
fn bytes_at<C: CommandLine>(
    alloc: Global,
    line: &C,
    place: usize,
) -> Result<Option<Vec<u8>>, AllocError>
    ensures { IfOk result (GivesBytes (C.arguments line.now) place) }
{
    let mut bytes = Vec::new(alloc);
    let mut size = FIRST_SIZE;
    for _ in 0..usize::BITS {
        bytes.resize(size, 0)?;
        match line.fill(place, bytes.as_mut_slice()) {
            Ok(n) => {
                bytes.truncate(n);
                return Ok(Some(bytes));
            }
            Err(FillError::NotPresent) => return Ok(None),
            Err(FillError::TooLong) => size = size.saturating_mul(2),
        }
    }
    Err(AllocError)
}
