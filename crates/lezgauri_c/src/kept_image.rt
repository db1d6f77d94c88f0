ghost use Rattle.std.specs.Prelude.{◌≡◌, ◌≤◌};
ghost use Rattle.seg_spec.specs.Bytes.{word};
ghost use Rattle.seg_spec.specs.Header.{allocator_word};
ghost use Rattle.lezgauri.specs.Images.{segment_of, allocator_of, types_of};
ghost use Rattle.lezgauri_c.specs.KeptImages.{table_kept};

use lezgauri::{BestFit, Fit, Image, Segment, SeqFit, TypeTable, Window};
use seg_raw::Region;
use seg_value::header;
use std::mem::replace;
use std_alloc::vec::Lodged;

/// An image that C keeps for its types, which were laid out once. It has bytes only while a call changes the segment.
#[derive(Drop)]
pub struct KeptImage {
    pub(crate) image: Image<Lodged>,
}

impl KeptImage {
    /// No bytes, with these types.
    pub(crate) fn of(types: TypeTable) -> KeptImage
        ensures { table_kept result ≡ types }
    {
        KeptImage {
            image: Image::in_window(no_bytes(), types),
        }
    }

    pub(crate) fn types(&self) -> &TypeTable
        ensures { result.now ≡ table_kept self.now }
    {
        self.image.types()
    }

    /// Puts the image in a window, on the allocator that the window's header selects.
    #[inline(always)]
    pub(crate) fn enter(&mut self, window: Window<Lodged>)
        ensures window { (segment_of self.new.image).window ≡ window }
        ensures types { table_kept self.new ≡ table_kept self.old }
        ensures allocator { word window.bytes allocator_word ≤ 1 →
            allocator_of self.new.image ≡ word window.bytes allocator_word }
    {
        if window.get32(header::ALLOCATOR) == allocator_of(&self.image) {
            drop(swap_windows(&mut self.image, window));
        } else {
            self.enter_anew(window);
        }
    }

    /// Puts the image in a window on another allocator, and lays its types out again.
    // Not inlined, since it takes three KiB of stack, and is rarely needed.
    #[inline(never)]
    fn enter_anew(&mut self, window: Window<Lodged>)
        ensures window { (segment_of self.new.image).window ≡ window }
        ensures types { table_kept self.new ≡ table_kept self.old }
        ensures allocator { word window.bytes allocator_word ≤ 1 →
            allocator_of self.new.image ≡ word window.bytes allocator_word }
    {
        let types = self.image.types().copy();
        self.image = Image::in_window(window, types);
    }

    /// Takes the image's window. No bytes are left.
    pub(crate) fn leave(&mut self) -> Window<Lodged>
        ensures window { result ≡ (segment_of self.old.image).window }
        ensures types { table_kept self.new ≡ table_kept self.old }
    {
        swap_windows(&mut self.image, no_bytes())
    }
}

/// A window on no bytes.
fn no_bytes() -> Window<Lodged> {
    Window::place(Region::from_vec(Vec::new(Lodged)), 0, 0).unwrap()
}

/// The number of an image's allocator.
fn allocator_of(image: &Image<Lodged>) -> u32
    ensures { result ≡ allocator_of image.now }
{
    match image {
        Image::Seq(_) => SeqFit::word(),
        Image::Best(_) => BestFit::word(),
    }
}

/// Puts an image in another window, and returns its own.
fn swap_windows(image: &mut Image<Lodged>, window: Window<Lodged>) -> Window<Lodged>
    ensures left { result ≡ (segment_of image.old).window }
    ensures entered { (segment_of image.new).window ≡ window }
    ensures types { types_of image.new ≡ types_of image.old }
    ensures allocator { allocator_of image.new ≡ allocator_of image.old }
{
    match image {
        Image::Seq(segment) => swap_on(segment, window),
        Image::Best(segment) => swap_on(segment, window),
    }
}

fn swap_on<F: Fit>(segment: &mut Segment<F, Lodged>, window: Window<Lodged>) -> Window<Lodged>
    ensures left { result ≡ segment.old.window }
    ensures entered { segment.new.window ≡ window }
    ensures types { segment.new.types ≡ segment.old.types }
{
    replace(segment.heap_mut().window_mut(), window)
}
