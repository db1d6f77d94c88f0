//! Tests of images, over both allocators and both indexes: each call on an image, with the blocks that it leaves, worked out by hand;
//! and the checker, on images that the library makes or that are written block by block, each of which is accepted, and on changes
//! that make each fault.
#![tactic(auto)]

#[cfg(test)]
mod tests;
