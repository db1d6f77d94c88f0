//! Shows the contents of a segment: its objects with their values, and its heap block by block, as text, as JSON and as a picture.
#![tactic(auto)]

mod blocks;
mod comparing;
mod contents;
mod document;
mod drawing;
mod dumping;
mod extent;
mod json_blocks;
mod json_objects;
mod json_types;
mod lines;
mod listing;
mod objects;
mod owners;
mod parts;
mod pattern;
mod purpose;
mod reached;
mod roots;
mod selection;
mod statistics;
mod types;
mod walk;

pub use cli_progress::{Silent, Watch};
pub use comparing::difference;
pub use drawing::picture;
pub use dumping::dump;
pub use extent::{Detail, Extent};
pub use json_blocks::heap_json;
pub use json_objects::{list_json, objects_json};
pub use json_types::types_json;
pub use listing::heap_lines;
pub use objects::{objects_text, value_lines};
pub use statistics::{Statistic, details, soundness_json, statistic_lines, statistics_json};
pub use types::{kind_word, type_lines, type_words};
