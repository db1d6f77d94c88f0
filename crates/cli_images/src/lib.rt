//! The commands on images: their values by paths, listings, dumps that can be loaded again, and the differences of two images.
#![tactic(auto)]

mod building;
mod door;
mod editing;
mod images;
mod json_texts;
mod lines;
mod listing;
mod loading;
mod made;
mod paths;
mod spelling;
mod texts;

pub use door::{assembled, checked, opened, parsed};
pub use images::{compare_files, image_file, load_file, new_file};
