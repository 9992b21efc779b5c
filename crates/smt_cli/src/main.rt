//! Runs SMT-LIB scripts, and judges Alethe proofs against them.
#![tactic(auto)]

#[cfg(test)]
mod made_up;
#[cfg(test)]
mod program_tests;

use smt_top::{ProgramEnd, run_program};

/// Runs what the program's arguments ask for, and ends with the number of the run's status, from 0 to 5.
fn main(rt: HostRuntime) -> ProgramEnd {
    run_program(&rt)
}
