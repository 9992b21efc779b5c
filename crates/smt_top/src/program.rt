//! The program: a run over the arguments that it is started with, and the exit code that it ends with.

ghost use Rattle.std.specs.Prelude.{◌≡◌, ℕ, List, map, string_bytes, IfOk};
ghost use Rattle.std.specs.Process.{exit_status};
ghost use Rattle.world_io.specs.Outside.{Rose};
ghost use Rattle.script_run.specs.Runs.{code_of};
ghost use Rattle.smt_top.specs.CommandLine.{AreTaken};
ghost use Rattle.smt_top.specs.RunMeans.{through};
ghost use Rattle.smt_top.specs.Program.{Exits, ExitsOutside, code_at};

use crate::command_line::{CommandLine, HostCommandLine, UnreadArguments, arguments_of};
use crate::run_buffered;
use script_run::Status;
use std::alloc::{AllocError, Global};
use std::process::{ExitCode, Termination};
use std::rt::{Env, Files};
use world_io::{BufferedSink, HostShelf, HostSink, Shelf, Sink};

/// Gives the exit code of a run: the number of its status, from 0 to 5.
pub fn exit_code(status: Status) -> ExitCode
    ensures { exit_status result ≡ code_of status }
{
    ExitCode::from(status.code())
}

/// Gives all arguments of the program, or none where one of them is not UTF-8.
///
/// `AllocError` comes only where an allocation was refused.
fn arguments_taken<C: CommandLine>(alloc: Global, line: &C) -> Result<Vec<String>, AllocError>
    ensures { IfOk result (λ v. AreTaken (C.arguments line.now) (map string_bytes v.items)) }
{
    match arguments_of(alloc, line) {
        Ok(arguments) => Ok(arguments),
        Err(UnreadArguments::NotUnicode) => Ok(Vec::new(alloc)),
        Err(UnreadArguments::Memory) => Err(AllocError),
    }
}

/// Runs what the arguments of a command line ask for, as `run_buffered` does, and gives the exit code of the run.
///
/// Where one of the arguments is not UTF-8, it is the run of no arguments. Where memory for the arguments runs out, the exit
/// code is that of `Memory`.
pub fn run_command_line<C: CommandLine, F: Shelf, K: Sink + Drop>(
    alloc: Global,
    line: &C,
    shelf: &mut F,
    out: &mut BufferedSink<K>,
) -> ExitCode
    ensures ends { Exits (exit_status result) (C.arguments line.now) (F.holds shelf.old) (through K.state out.old)
        (through K.state out.new) }
    ensures read_fault { exit_status result ≡ code_of Status.ReadFault
        → Rose (F.faults shelf.old) (F.faults shelf.new) }
    ensures same { (n : List ℕ) → F.holds shelf.new n ≡ F.holds shelf.old n }
    ensures sound { F.is_sound shelf.old → F.is_sound shelf.new }
{
    match arguments_taken(alloc, line) {
        Ok(arguments) => exit_code(run_buffered(alloc, arguments.as_slice(), shelf, out)),
        Err(_) => exit_code(Status::Memory),
    }
}

/// Holds the exit code of a run of the program. Nothing but `run_program` makes one.
#[derive(Clone, Copy)]
pub struct ProgramEnd {
    code: ExitCode,
}

impl Termination for ProgramEnd {
    /// Gives the exit code of the run.
    fn report<R: Eprint>(self, _rt: &R) -> ExitCode
        ensures { exit_status result ≡ code_at self }
    {
        self.code
    }
}

/// Runs the program: what its arguments ask for, over real files, standard input and standard output, the last buffered.
///
/// The exit code is that of `run_command_line`. Where memory for the buffer runs out, it is that of `Memory`.
pub fn run_program<R: Files + Input + Print + Env + AllocGlobal>(rt: &R) -> ProgramEnd
    ensures { ExitsOutside (code_at result) }
{
    ProgramEnd {
        code: run_outside(rt),
    }
}

/// Runs the program as `run_program` does, and gives its exit code.
fn run_outside<R: Files + Input + Print + Env + AllocGlobal>(rt: &R) -> ExitCode
    ensures { ExitsOutside (exit_status result) }
{
    let mut shelf = HostShelf::new(rt);
    match BufferedSink::new(rt.alloc(), HostSink::new(rt)) {
        Ok(mut out) => run_command_line(
            rt.alloc(),
            &HostCommandLine::new(rt),
            &mut shelf,
            &mut out,
        ),
        Err(_) => exit_code(Status::Memory),
    }
}
