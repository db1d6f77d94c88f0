//! Best fit: the allocator that takes the smallest free block that is large enough, the lowest among equals. Its free
//! blocks form a red-black tree, ordered by size and then by position. The nodes are in the blocks' own payloads.
#![tactic(auto)]

mod bestfit;
mod free_tree;

pub use bestfit::BestFit;
