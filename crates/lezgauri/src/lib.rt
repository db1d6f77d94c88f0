//! Lezgauri for a host that embeds it. A sound image is opened, on the allocator that its header asks for. Then the host's own
//! calls and verified clients read and change it; it can grow, and it is saved.
//!
//! Begin with [`Image`], or with [`CheckedImage`] for an image in memory that is only read. [`ImageRead`] has the calls
//! that read either. [`verify`] and [`run`] run clients on an open image, and [`run_image`] runs several clients from the
//! bytes of an image to the bytes of the saved one.
#![tactic(auto)]

mod clients;
mod lending;

pub use client_code::{Client, parse, parse_typed};
pub use client_text::{assemble, print};
pub use client_verify::{Verified, verify_typed};
pub use client_vm::{
    Ended, Move, Outcome, Ready, Refused, Report, Schedule, Sink, Stopped, Through, Unrun, prepare,
    run_bytes, run_image, write_all,
};
pub use clients::{run, verify};
pub use lending::lend;
pub use seg_image::{
    AllocatorKind, BestFit, CheckedImage, Code, ENTRY, Entries, Error, Fault, Fields, Fit, Heap,
    Image, ImageRead, IndexKind, Items, Keys, MAX_LEN, MAX_NAME, MAX_TYPES, MIN_LEN, Named, Names,
    Numbers, Pair, Place, Reader, Region, Segment, SegmentRead, SeqFit, StoppedAt, Type, TypeId,
    TypeTable, Unopened, View, Window, check, is_size, read_types, type_table,
};
pub use std_alloc::vec::Lodged;
