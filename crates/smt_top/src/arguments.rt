//! The arguments of a run, as they are after the program's name.

ghost use Rattle.std.specs.Prelude.{◌≡◌, ◌↔◌, ℕ, [], false, map, option_map, option_and_then, unwrap_or, IfOk, IsTrue, IfSome, None, string_bytes};
ghost use Rattle.clap.specs.Words.{app_of, rule_of, FailsBy, fault_of, first_of, found_of, kind_of, rows_of, subcommand_of, subcommand_rows_of};
ghost use Rattle.clap.specs.declared.builder.command.Command.TheViews.{out-Command};
ghost use Rattle.smt_session.specs.Sessions.{mode_meant};
ghost use Rattle.judge_run.specs.Calls.{judging_meant, names_of};
ghost use Rattle.smt_top.specs.Calls.{asked_by, Asks};
ghost use Rattle.smt_top.specs.Arguments.{asked, asked_in, IsNumber, number_of, number_or, run_in, names_in, size_of, size_in, option_named, required_argument, run_app, judge_app, gen_app, bare_app, app_with_runs, app_with_judgings, smt_app};

use clap::error::ErrorKind;
use clap::{Arg, ArgMatches, Command, Error};
use itoa::Buffer;
use judge_run::{JudgeRequest, Names, Subject};
use smt_session::Mode;
use std::alloc::{AllocError, Global};

/// No number of the arguments is greater.
const MOST_NUMBER: u64 = 1_000_000_000;

/// How many conflicts a search may learn from where no argument says so.
pub(crate) const USUAL_CONFLICTS: u64 = 1_000_000;

/// No script that is made has a greater size.
const MOST_SIZE: u64 = 10_000;

/// Holds what the arguments of `solve` and of `certify` ask for.
#[derive(Clone, Copy)]
pub(crate) struct RunRequest<'a> {
    /// How much is written.
    pub(crate) mode: Mode,
    /// The script's name; it is empty where no argument gives one.
    pub(crate) name: &'a str,
    /// How many conflicts each search of a check may learn from, from 1 to 1,000,000,000.
    pub(crate) conflicts: u64,
}

/// Holds what the arguments of a run ask for.
#[derive(Clone, Copy)]
pub(crate) enum Request<'a> {
    /// A script is to be run.
    Run(RunRequest<'a>),
    /// A text is to be judged against a script, as a proof or as a model.
    Judge(JudgeRequest<'a>),
    /// The script of this size, from 1 to 10,000, is to be made and run.
    Generate(u64),
}

/// Tells why arguments give no request.
#[derive(Clone, Copy, Debug, PartialEq, Eq)]
pub(crate) enum ArgumentsStop {
    /// The arguments are not those of a run.
    Wrong,
    /// Memory ran out.
    Memory,
}

/// Gives what the arguments after the program's name ask for: `solve [--conflicts N] [NAME]`, `certify` with the same,
/// `check [--at K] SCRIPT PROOF`, `validate [--at K] SCRIPT MODEL`, or `gen SIZE`.
///
/// N and K are from 1 to 1,000,000,000, SIZE is from 1 to 10,000, in decimal digits. Where they are not given, a search may
/// learn from 1,000,000 conflicts, K is 1, and NAME is empty. `Wrong` comes for all other arguments. `Memory` comes only where
/// an allocation was refused, whatever the arguments are.
pub(crate) fn request_from<'a>(
    alloc: Global,
    arguments: &'a [String],
) -> Result<Request<'a>, ArgumentsStop>
    ensures { Asks (asked arguments.entry.now) result }
{
    let matches = match matches_of(alloc, arguments) {
        Ok(matches) => matches,
        Err(error) => return Err(stop_of(&error)),
    };
    request_of(&matches).ok_or(ArgumentsStop::Wrong)
}

/// Tells why arguments give no request, by the fault that was found in them.
fn stop_of(error: &Error) -> ArgumentsStop
    ensures { (result ≡ ArgumentsStop.Memory) ↔ (kind_of error.now ≡ ErrorKind.OutOfMemory) }
{
    match error.kind() {
        ErrorKind::OutOfMemory => ArgumentsStop::Memory,
        _ => ArgumentsStop::Wrong,
    }
}

/// Makes an option of this name, with any argument as its value.
fn option_named<'a>(alloc: Global, id: &'a str) -> Arg<'a>
    ensures rule { rule_of result ≡ option_named id.entry.now }
    ensures own { result.global ≡ false }
{
    Arg::new(alloc, id).long(id)
}

/// Makes an argument that must be there.
fn required_argument<'a>(alloc: Global, id: &'a str) -> Arg<'a>
    ensures rule { rule_of result ≡ required_argument id.entry.now }
    ensures own { result.global ≡ false }
{
    Arg::new(alloc, id).required(true)
}

/// Makes a command that runs a script, `solve` or `certify`.
///
/// `AllocError` comes where an allocation was refused.
fn run_command<'a>(alloc: Global, name: &'a str) -> Result<Command<'a>, AllocError>
    ensures app { IfOk result (λ c. app_of c ≡ run_app name.entry.now) }
    ensures own { IfOk result (λ c. (out-Command c).has_globals ≡ false) }
{
    Command::new(alloc, name)
        .arg(option_named(alloc, "conflicts"))?
        .arg(Arg::new(alloc, "name"))
}

/// Makes a command that judges a text against a script, `check` or `validate`.
///
/// `AllocError` comes where an allocation was refused.
fn judge_command<'a>(alloc: Global, name: &'a str, text: &'a str) -> Result<Command<'a>, AllocError>
    ensures app { IfOk result (λ c. app_of c ≡ judge_app name.entry.now text.entry.now) }
    ensures own { IfOk result (λ c. (out-Command c).has_globals ≡ false) }
{
    Command::new(alloc, name)
        .arg(option_named(alloc, "at"))?
        .arg(required_argument(alloc, "script"))?
        .arg(required_argument(alloc, text))
}

/// Makes the command `gen`.
///
/// `AllocError` comes where an allocation was refused.
fn gen_command<'a>(alloc: Global) -> Result<Command<'a>, AllocError>
    ensures app { IfOk result (λ c. app_of c ≡ gen_app) }
    ensures own { IfOk result (λ c. (out-Command c).has_globals ≡ false) }
{
    Command::new(alloc, "gen").arg(required_argument(alloc, "size"))
}

/// Makes the program's command without those below it.
fn bare_command<'a>(alloc: Global) -> Command<'a>
    ensures { app_of result ≡ bare_app }
{
    Command::new(alloc, "smt_cli")
        .disable_help_flag(true)
        .disable_help_subcommand(true)
        .disable_version_flag(true)
        .subcommand_required(true)
}

/// Makes the program's command with `solve` and `certify` below it.
///
/// `AllocError` comes where an allocation was refused.
fn command_with_runs<'a>(alloc: Global) -> Result<Command<'a>, AllocError>
    ensures { IfOk result (λ c. app_of c ≡ app_with_runs) }
{
    let solve = run_command(alloc, "solve")?;
    let certify = run_command(alloc, "certify")?;
    bare_command(alloc).subcommand(solve)?.subcommand(certify)
}

/// Makes the program's command with these and with `check` and `validate` below it.
///
/// `AllocError` comes where an allocation was refused.
fn command_with_judgings<'a>(alloc: Global) -> Result<Command<'a>, AllocError>
    ensures { IfOk result (λ c. app_of c ≡ app_with_judgings) }
{
    let check = judge_command(alloc, "check", "proof")?;
    let validate = judge_command(alloc, "validate", "model")?;
    command_with_runs(alloc)?
        .subcommand(check)?
        .subcommand(validate)
}

/// Makes the program's command, with `solve`, `certify`, `check`, `validate` and `gen` below it.
///
/// `AllocError` comes where an allocation was refused.
fn whole_command<'a>(alloc: Global) -> Result<Command<'a>, AllocError>
    ensures { IfOk result (λ c. app_of c ≡ smt_app) }
{
    let generate = gen_command(alloc)?;
    command_with_judgings(alloc)?.subcommand(generate)
}

/// Reads the arguments by the program's command.
///
/// An error of the kind `OutOfMemory` comes where an allocation was refused, one of another kind where the arguments have such
/// a fault.
fn matches_of<'a>(alloc: Global, arguments: &'a [String]) -> Result<ArgMatches<'a>, Error>
    ensures matches { IfOk result (λ m. subcommand_rows_of m
        ≡ subcommand_of smt_app (map string_bytes arguments.entry.now)) }
    ensures kinds { FailsBy (fault_of smt_app (map string_bytes arguments.entry.now)) result }
{
    let command = whole_command(alloc)?;
    command.try_get_matches_from(arguments)
}

/// Gives what the matches ask for, and `None` where they have no command with all its values.
fn request_of<'a>(matches: &ArgMatches<'a>) -> Option<Request<'a>>
    ensures { option_map asked_by result ≡ option_and_then asked_in (subcommand_rows_of matches.now) }
{
    let (name, found) = matches.subcommand()?;
    request_in(name, found)
}

/// Gives what a command of this name asks for by its matches, and `None` where it is none of the five, or a value is missing or
/// is no number.
fn request_in<'a>(name: &str, found: &ArgMatches<'a>) -> Option<Request<'a>>
    ensures { option_map asked_by result ≡ asked_in (name.now, rows_of (found_of found.now)) }
{
    match name {
        "solve" => Some(Request::Run(run_in(Mode::Solve, found)?)),
        "certify" => Some(Request::Run(run_in(Mode::Certify, found)?)),
        "check" => Some(Request::Judge(judge_in(Subject::Proof, "proof", found)?)),
        "validate" => Some(Request::Judge(judge_in(Subject::Model, "model", found)?)),
        "gen" => Some(Request::Generate(size_in(found)?)),
        _ => None,
    }
}

/// Gives what the matches of `solve` or `certify` ask for, and `None` where the value of `--conflicts` is no number.
fn run_in<'a>(mode: Mode, found: &ArgMatches<'a>) -> Option<RunRequest<'a>>
    ensures { option_map (λ r. asked_by (Request.Run r)) result
        ≡ run_in (mode_meant mode) (rows_of (found_of found.now)) }
{
    let conflicts = number_or(USUAL_CONFLICTS, value_of(found, "conflicts"))?;
    Some(RunRequest {
        mode,
        name: name_or_empty(value_of(found, "name")),
        conflicts,
    })
}

/// Gives what the matches of `check` or `validate` ask for, by the name of the argument that is judged, and `None` where a name
/// is missing or the value of `--at` is no number.
fn judge_in<'a>(subject: Subject, id: &str, found: &ArgMatches<'a>) -> Option<JudgeRequest<'a>>
    ensures { option_map names_of result ≡ names_in (judging_meant subject) id.now (rows_of (found_of found.now)) }
{
    let script = value_of(found, "script")?;
    let text = value_of(found, id)?;
    let at = number_or(1, value_of(found, "at"))?;
    Some(JudgeRequest {
        subject,
        names: Names { script, text },
        at,
    })
}

/// Gives the size that the matches of `gen` ask for, and `None` where the value is missing or is no size.
fn size_in<'a>(found: &ArgMatches<'a>) -> Option<u64>
    ensures { result ≡ size_in (rows_of (found_of found.now)) }
{
    size_of(value_of(found, "size")?)
}

/// Gives the size from 1 to 10,000 of which a word is the decimal digits, as `number_of` does, and `None` where there is none.
fn size_of(word: &str) -> Option<u64>
    ensures { result ≡ size_of word.now }
{
    let n = number_of(word)?;
    if n <= MOST_SIZE { Some(n) } else { None }
}

/// Gives the value of an argument, where it has one.
fn value_of<'a>(found: &ArgMatches<'a>, id: &str) -> Option<&'a str>
    ensures { option_map (λ s. s.now) result ≡ first_of id.now (rows_of (found_of found.now)) }
{
    found.get_str(id)
}

/// Gives the name that a value is: the empty one where there is no value.
fn name_or_empty<'a>(value: Option<&'a str>) -> &'a str
    ensures { result.now ≡ unwrap_or (option_map (λ s. s.now) value.entry) [] }
{
    match value {
        Some(name) => name,
        None => "",
    }
}

/// Gives the number that the value of an option stands for: the usual one where there is no value, and `None` where it is no
/// number.
fn number_or(usual: u64, value: Option<&str>) -> Option<u64>
    ensures { result ≡ number_or usual (option_map (λ s. s.now) value.entry) }
{
    match value {
        Some(word) => number_of(word),
        None => Some(usual),
    }
}

/// Gives the number from 1 to 1,000,000,000 of which a word is the decimal digits, with no sign and no zero before them, and
/// `None` where there is none.
fn number_of(word: &str) -> Option<u64>
    ensures value { result ≡ number_of word.now }
    ensures some { IfSome result (IsNumber word.now) }
    ensures none { result ≡ None → (n : ℕ) → IsNumber word.now n → ⊥ }
{
    let Ok(n) = word.parse::<u64>() else {
        return None;
    };
    if is_decimal_of(word, n) {
        Some(n)
    } else {
        None
    }
}

/// Tells whether a word is this number in decimal digits, and the number is from 1 to 1,000,000,000.
fn is_decimal_of(word: &str, n: u64) -> bool
    ensures { IsTrue result ↔ IsNumber word.now n }
{
    let mut digits = Buffer::new();
    1 <= n && n <= MOST_NUMBER && word == digits.format(n)
}
