//! The simulation relation between an interpreter, which has numbers and positions in its registers, and the abstract machine:
//! which states an interpreter represents, what its instructions do to the images that represent them, and where an image is
//! after a run. This crate has only definitions and lemmas.
#![tactic(auto)]
