//! Tests of what no clause says: how long the runs between restarts are.

use search_loop::Restarts;
use std::test::Fail;

/// The first numbers of the sequence. Source: Luby, Sinclair and Zuckerman 1993.
const FIRST: [u64; 15] = [1, 1, 2, 1, 1, 2, 4, 1, 1, 2, 1, 1, 2, 4, 8];

/// Counts the conflicts up to the next restart, or to four thousand.
fn count_run(restarts: &mut Restarts) -> u64 {
    for n in 1..4000 {
        if restarts.level_after(1) == 0 {
            return n;
        }
    }
    4000
}

/// Gives the place of the first run that is not 256 times as long as the number there.
fn first_other(numbers: &[u64]) -> Option<usize> {
    let mut restarts = Restarts::new();
    for (n, number) in numbers.iter().enumerate() {
        if count_run(&mut restarts) != number.saturating_mul(256) {
            return Some(n);
        }
    }
    None
}

#[test]
fn runs_are_as_long_as_the_sequence_says(rt: HostRuntime) -> Result<(), Fail> {
    assert!(rt; first_other(&FIRST) == None);
    Ok(())
}
