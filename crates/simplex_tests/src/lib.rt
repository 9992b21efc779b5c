//! Tests of the feasibility check of simplex: cases by chance, answered as an elimination of variables answers them; small systems by
//! hand, with the exchanges that are made; systems that cycle by other rules, and one that takes over a thousand exchanges.
#![tactic(auto)]

#[cfg(test)]
mod chance_tests;
#[cfg(test)]
mod checked;
#[cfg(test)]
mod elimination;
#[cfg(test)]
mod known;
#[cfg(test)]
mod long_tests;
#[cfg(test)]
mod small_tests;
