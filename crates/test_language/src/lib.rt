//! Tests of clients' files, of their texts, of the verifier, and of the trees of programs.
#![tactic(auto)]

#[cfg(test)]
mod tests;
