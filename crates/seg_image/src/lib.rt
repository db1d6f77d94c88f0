//! An open image: a segment with whichever allocator the image has. A sound image is opened, read and changed by the
//! host's own calls, grown, and saved.
//!
//! Begin with [`Image`]. It has the calls of the crates below, for an allocator that is only known when the image is
//! opened. A [`CheckedImage`] is an image in memory that is only read. [`ImageRead`] has the calls that read either.
#![tactic(auto)]

mod anonymous;
mod checked;
mod creating;
mod error;
mod image;
mod iterators;
mod maps;
mod named;
mod opening;
mod owners;
mod places;
mod read;
mod sequences;
mod sharing;
mod size;
mod table;
mod uniques;
mod values;

pub use checked::CheckedImage;
pub use creating::AllocatorKind;
pub use error::{Error, StoppedAt};
pub use image::Image;
pub use iterators::{Entries, Items, Keys, Names};
pub use maps::Pair;
pub use opening::{Unopened, check};
pub use read::ImageRead;
pub use seg_bestfit::BestFit;
pub use seg_check::read_types;
pub use seg_manager::{
    Code, ENTRY, Fault, Fields, Fit, Heap, IndexKind, MAX_LEN, MAX_NAME, MAX_TYPES, MIN_LEN, Named,
    Place, Reader, Region, Segment, SegmentRead, Type, TypeId, TypeTable, View, Window, is_size,
};
pub use seg_seq::Numbers;
pub use seg_seqfit::SeqFit;
pub use table::type_table;
