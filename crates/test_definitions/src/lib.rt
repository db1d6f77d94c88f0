//! Lemmas about the definitions of segments and of clients, and small examples. The functions of this crate do nothing: their
//! `ensures` clauses are the lemmas.
#![tactic(auto)]

pub mod agreement;
pub mod asking;
pub mod bytes;
pub mod clients;
pub mod examples;
pub mod grammar;
pub mod heaps;
pub mod images;
pub mod operations;
pub mod pictures;
pub mod safety;
pub mod shared;
pub mod sharing;
pub mod states;
pub mod trees;
pub mod values;
