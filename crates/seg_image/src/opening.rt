ghost use Rattle.std.specs.Prelude.{◌≡◌, ◌≤◌, IfOk, IfErr};
ghost use Rattle.seg_spec.specs.Bytes.{word};
ghost use Rattle.seg_spec.specs.Header.{allocator_word};
ghost use Rattle.seg_spec.specs.Images.{upgraded};
ghost use Rattle.seg_spec.specs.Window.{region_of};
ghost use Rattle.seg_raw.specs.Homes.{home_of};
ghost use Rattle.seg_check.specs.Faults.{IsImageOf, IsFaultOf};
ghost use Rattle.seg_check.specs.Owners.{IsOwnerFaultOf};
ghost use Rattle.seg_check.specs.Positions.{IsFaultAt};
ghost use Rattle.seg_image.specs.Images.{segment_of, allocator_of, bytes_in};

use crate::image::Image;
use seg_bestfit::BestFit;
use seg_layout::TypeTable;
use seg_manager::{Fit, MAX_LEN, Segment, View, Window, header};
use seg_raw::{Fault, Region};
use std::alloc::Allocator;

/// Bytes that weren't opened, and why. `?` converts it to the fault.
#[derive(Drop)]
pub struct Unopened<A: Allocator> {
    pub fault: Fault,
    pub bytes: Vec<u8, A>,
}

impl<A: Allocator> From<Unopened<A>> for Fault {
    ghost from_gives = { λ unopened fault. fault ≡ unopened.fault };

    fn from(unopened: Unopened<A>) -> Fault {
        unopened.fault
    }
}

/// The types of an image, or its first fault, or `Memory` if host memory for the check is refused: 9 bytes for each 16
/// of the image, or 13 if it has a shared type, freed before the call returns. Nothing of the image is copied.
/// [`Image::open`] opens exactly the images that this accepts.
pub fn check<A: Allocator>(alloc: A, bytes: &[u8]) -> Result<TypeTable, Fault>
    ensures image { IfOk result (IsImageOf bytes.now) }
    ensures fault { IfErr result (IsFaultOf bytes.now) }
    ensures owner { IfErr result (IsOwnerFaultOf bytes.now) }
    ensures position { IfErr result (IsFaultAt bytes.now) }
{
    seg_check::check(alloc, view_of(bytes)?)
}

/// The view of an image's bytes. No image has more bytes than a segment may have.
pub(crate) fn view_of(bytes: &[u8]) -> Result<View<'_>, Fault>
    ensures view { IfOk result (λ view. view.bytes.now ≡ bytes.now) }
    ensures fault { IfErr result (IsFaultOf bytes.now) }
    ensures owner { IfErr result (IsOwnerFaultOf bytes.now) }
    ensures position { IfErr result (IsFaultAt bytes.now) }
{
    if bytes.len() > MAX_LEN as usize {
        return Err(Fault::BadHeader);
    }
    Ok(View::new(bytes))
}

impl<A: Allocator> Image<A> {
    /// Opens a sound image in its own memory. It then is one of the version that may have frozen objects. Otherwise it
    /// returns the bytes with the image's first fault, or with `Memory` if host memory for the check is refused: as
    /// much as for [`check`], from `alloc`.
    pub fn open<B: Allocator>(alloc: B, bytes: Vec<u8, A>) -> Result<Image<A>, Unopened<A>>
        ensures opened { IfOk result
            (λ image. (segment_of image).window.bytes ≡ upgraded bytes.items) }
        ensures whole { IfOk result
            (λ image. region_of (segment_of image).window ≡ bytes_in image) }
        ensures image { IfOk result
            (λ image. IsImageOf bytes.items (segment_of image).types) }
        ensures allocator { IfOk result
            (λ image. word bytes.items allocator_word ≡ allocator_of image) }
        ensures fault { IfErr result (λ unopened. IsFaultOf bytes.items unopened.fault) }
        ensures owner { IfErr result (λ unopened. IsOwnerFaultOf bytes.items unopened.fault) }
        ensures position { IfErr result (λ unopened. IsFaultAt bytes.items unopened.fault) }
        ensures refused { IfErr result (λ unopened. unopened.bytes.items ≡ bytes.items) }
        ensures home { IfOk result (λ image. (segment_of image).window.home ≡ home_of bytes) }
        ensures refused_home { IfErr result
            (λ unopened. home_of unopened.bytes ≡ home_of bytes) }
    {
        let mut window = window_of(bytes)?;
        match seg_check::check(alloc, window.view()) {
            Ok(types) => {
                header::upgrade(&mut window);
                Ok(Image::in_window(window, types))
            }
            Err(fault) => Err(Unopened {
                fault,
                bytes: window.into_bytes(),
            }),
        }
    }

    /// The image in a window, with these types, on the allocator that its header selects. The image isn't checked: an
    /// earlier call found it sound, with these types.
    pub fn in_window(window: Window<A>, types: TypeTable) -> Image<A>
        ensures window { (segment_of result).window ≡ window }
        ensures types { (segment_of result).types ≡ types }
        ensures allocator { word window.bytes allocator_word ≤ 1 →
            allocator_of result ≡ word window.bytes allocator_word }
    {
        if window.get32(header::ALLOCATOR) == BestFit::word() {
            Image::Best(Segment::new(window, types))
        } else {
            Image::Seq(Segment::new(window, types))
        }
    }
}

/// A window on all bytes of an image. No image has more bytes than a segment may have.
fn window_of<A: Allocator>(bytes: Vec<u8, A>) -> Result<Window<A>, Unopened<A>>
    ensures window { IfOk result (λ window. window.bytes ≡ bytes.items) }
    ensures whole { IfOk result (λ window. region_of window ≡ window.bytes) }
    ensures fault { IfErr result (λ unopened. IsFaultOf bytes.items unopened.fault) }
    ensures owner { IfErr result (λ unopened. IsOwnerFaultOf bytes.items unopened.fault) }
    ensures position { IfErr result (λ unopened. IsFaultAt bytes.items unopened.fault) }
    ensures refused { IfErr result (λ unopened. unopened.bytes.items ≡ bytes.items) }
    ensures home { IfOk result (λ window. window.home ≡ home_of bytes) }
    ensures refused_home { IfErr result (λ unopened. home_of unopened.bytes ≡ home_of bytes) }
{
    let len = match u32::try_from(bytes.len()) {
        Ok(len) if len <= MAX_LEN => len,
        _ => {
            return Err(Unopened {
                fault: Fault::BadHeader,
                bytes,
            });
        }
    };
    Ok(Window::place(Region::from_vec(bytes), 0, len).unwrap())
}
