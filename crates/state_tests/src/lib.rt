//! Tests of what the search goes back over: trails, watches, waiting variables, and congruence closure; and of when it begins again.
#![tactic(auto)]

#[cfg(test)]
mod closure_tests;
#[cfg(test)]
mod order_tests;
#[cfg(test)]
mod plain_closure;
#[cfg(test)]
mod restart_tests;
#[cfg(test)]
mod sat_tests;
#[cfg(test)]
mod watch_tests;
