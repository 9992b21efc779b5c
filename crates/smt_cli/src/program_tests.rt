//! Tests of what no clause says: how the program ends over an environment.

use crate::made_up::MadeUp;
use smt_top::run_program;
use std::cell::Cell;
use std::process::{ExitCode, Termination};
use std::test::Fail;

/// The exit code, whether what is written is taken, the arguments, and standard input. A `!` is no text.
const RUNS: &str = "0\tyes\tsmt_cli solve\t(check-sat)
0\tyes\tsmt_cli certify --conflicts 1\t(check-sat)
1\tyes\tsmt_cli solve\t(assert zz)
0\tyes\tsmt_cli gen 7\t
2\tyes\tsmt_cli gen 0\t
2\tyes\tsmt_cli\t
2\tyes\tsmt_cli solve --conflicts\t
2\tyes\tsmt_cli solve --pivots 1\t
2\tyes\tsmt_cli solve !\t
4\tyes\tsmt_cli solve absent\t
4\tyes\tsmt_cli check --at 1 absent absent\t
5\tno\tsmt_cli gen 7\t
5\tno\tsmt_cli\t
5\tno\tsmt_cli solve\t(check-sat)";

/// Tells whether the program ends as a row says.
fn ends_so<R: Eprint + AllocGlobal>(rt: &R, row: &str) -> bool {
    let mut parts = row.split('\t');
    let code = parts.next().unwrap_or("").parse::<u8>().unwrap_or(9);
    let takes = parts.next() == Some("yes");
    let met = MadeUp {
        alloc: rt.alloc(),
        arguments: parts.next().unwrap_or(""),
        input: Cell::new(parts.next().unwrap_or("")),
        takes,
    };
    run_program(&met).report(rt) == ExitCode::from(code)
}

/// Gives the first row of which the program ends otherwise.
fn first_other<R: Eprint + AllocGlobal>(rt: &R) -> Option<&'static str> {
    for row in RUNS.lines() {
        if !ends_so(rt, row) {
            return Some(row);
        }
    }
    None
}

#[test]
fn the_program_ends_with_the_number_of_its_status(rt: HostRuntime) -> Result<(), Fail> {
    assert_eq!(rt; first_other(&rt), None);
    Ok(())
}
