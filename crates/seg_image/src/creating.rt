ghost use Rattle.std.specs.Prelude.{◌≡◌, ◌⊎◌, replicate, IfOk, IfErr};
ghost use Rattle.seg_spec.specs.Faulty.{IsImageLength};
ghost use Rattle.seg_manager.specs.NewSegments.{IsNewSegment};
ghost use Rattle.seg_image.specs.Images.{segment_of, allocator_of, allocator_number};

use crate::image::Image;
use seg_bestfit::BestFit;
use seg_manager::{Fit, IndexKind, MAX_LEN, Segment};
use seg_raw::{Fault, Region};
use seg_seqfit::SeqFit;
use std::alloc::Allocator;

/// The allocator of a segment's heap. Sequential fit takes the first free block that is large enough, best fit the
/// smallest one, like `simple_seq_fit` and `rbtree_best_fit` of Boost.Interprocess.
#[derive(Debug, Clone, Copy, PartialEq, Eq)]
pub enum AllocatorKind {
    Seq,
    Best,
}

impl<A: Allocator> Image<A> {
    /// A new image of `size` bytes without objects or types. `BadSize` if the size isn't a multiple of 16 from
    /// [`MIN_LEN`](seg_manager::MIN_LEN) to [`MAX_LEN`], `Memory` if host memory is refused.
    pub fn create(
        alloc: A,
        size: u32,
        allocator: AllocatorKind,
        index: IndexKind,
    ) -> Result<Image<A>, Fault>
        ensures empty { IfOk result (λ image.
            IsNewSegment (allocator_number allocator) (segment_of image)
            (replicate size 0) 0 size index) }
        ensures allocator { IfOk result (λ image. allocator_of image ≡ allocator_number allocator) }
        ensures refused { IfErr result (λ fault. (fault ≡ Fault.Memory)
            ⊎ ((fault ≡ Fault.BadSize) × ¬ IsImageLength size)) }
    {
        match allocator {
            AllocatorKind::Seq => Ok(Image::Seq(empty::<SeqFit, A>(alloc, size, index)?)),
            AllocatorKind::Best => Ok(Image::Best(empty::<BestFit, A>(alloc, size, index)?)),
        }
    }
}

fn empty<F: Fit, A: Allocator>(
    alloc: A,
    size: u32,
    index: IndexKind,
) -> Result<Segment<F, A>, Fault>
    ensures empty { IfOk result
        (λ segment. IsNewSegment F.allocator segment (replicate size 0) 0 size index) }
    ensures refused { IfErr result (λ fault. (fault ≡ Fault.Memory)
        ⊎ ((fault ≡ Fault.BadSize) × ¬ IsImageLength size)) }
{
    if size > MAX_LEN {
        return Err(Fault::BadSize);
    }
    let region = Region::new(alloc, size)?;
    match seg_manager::create(region, 0, size, index) {
        Ok(segment) => Ok(segment),
        Err((fault, _)) => Err(fault),
    }
}
