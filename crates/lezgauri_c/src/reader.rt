ghost use Rattle.seg_spec.specs.Bytes.{word};
ghost use Rattle.seg_spec.specs.Header.{allocator_word};

use crate::kept_image::KeptImage;
use lezgauri::{SegmentRead, TypeTable, View};
use seg_value::{CellAt, Content, PayloadAt, TypeId, count_in, load_in, start_in};

/// The bytes of an image, in memory that is only read, with the types that C keeps.
#[derive(Clone, Copy)]
pub struct Reader<'a> {
    pub view: View<'a>,
    pub kept: &'a KeptImage,
}

impl<'a> SegmentRead for Reader<'a> {
    ghost use Rattle.seg_value.specs.Stored.{whole_of};
    ghost use Rattle.lezgauri_c.specs.KeptImages.{types_in};

    ghost stored = { λ reader. whole_of reader.view.bytes.now (types_in reader) };

    ghost allocator = { λ reader. word reader.view.bytes.now allocator_word };

    fn view(&self) -> View<'_> {
        self.view
    }

    fn types(&self) -> &TypeTable {
        self.kept.types()
    }

    fn content(&self, t: TypeId) -> Option<Content> {
        self.kept.image.content(t)
    }

    fn count(&self, cell: CellAt) -> u32 {
        count_in(self.view, cell)
    }

    fn start(&self, cell: CellAt) -> PayloadAt {
        start_in(self.view, cell)
    }

    fn load(&self, at: CellAt) -> i64 {
        load_in(self.view, at)
    }
}
