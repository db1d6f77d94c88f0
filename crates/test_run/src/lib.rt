//! Tests of everything that runs clients: the interpreter, over both allocators and both indexes, with its traces, and hosts that
//! embed the library. The other modules have lemmas and small examples about the results of the checker and of runs. Their
//! functions do nothing: their `ensures` clauses are the lemmas. All of it is proved once, with the tests.
#![tactic(auto)]

#[cfg(test)]
pub mod faults;
#[cfg(test)]
pub mod outcomes;
#[cfg(test)]
pub mod sharing;
#[cfg(test)]
mod tests;
