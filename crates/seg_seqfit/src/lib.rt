//! Sequential fit: the allocator that takes the lowest free block that is large enough. Its free blocks form a list by
//! ascending position.
#![tactic(auto)]

mod free_list;
mod search;
mod seqfit;

pub use seqfit::SeqFit;
