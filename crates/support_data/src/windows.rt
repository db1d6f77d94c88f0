//! Images in windows, and segments that are opened there.

use seg_check::open;
use seg_manager::{Fault, Fit, Region, Segment, Window};
use std::alloc::Global;

/// An image at a base of a region.
pub fn placed(region: Region<Global>, base: u32, image: &[u8]) -> Result<Window<Global>, Fault> {
    let len = u32::try_from(image.len()).map_err(|_| Fault::BadHeader)?;
    match Window::place(region, base, len) {
        Ok(mut window) => {
            window.copy_in(0, image);
            Ok(window)
        }
        Err((fault, _region)) => Err(fault),
    }
}

/// An image of at most 2 MiB in a region of its own.
pub fn window(alloc: Global, image: &[u8]) -> Result<Window<Global>, Fault> {
    let len = u32::try_from(image.len()).map_err(|_| Fault::BadHeader)?;
    placed(Region::new(alloc, len.min(1 << 21))?, 0, image)
}

/// The segment in a window, if it is sound and on this allocator.
pub fn opened<F: Fit>(
    alloc: Global,
    mut window: Window<Global>,
) -> Result<Segment<F, Global>, Fault> {
    let types = open::<F, Global, Global>(alloc, &mut window)?;
    Ok(Segment::new(window, types))
}
