ghost use Rattle.std.specs.Prelude.{◌≡◌, ◌<◌, false, length, IsTrue, MatchResult, Some, None};
ghost use Rattle.seg_spec.specs.Window.{KeepsHost};
ghost use Rattle.seg_spec.specs.Sound.{Picture};
ghost use Rattle.seg_manager.specs.Segments.{IsSegment, unique_at, MakesUnique, FindsOrMakes, RefusesUnique, LosesUnique};

use crate::segment::Segment;
use seg_index::{set_unique, unique, unique_in};
use seg_raw::Code;
use seg_value::{Fit, MAX_TYPES, PayloadAt, SegmentRead, TypeId};
use std::alloc::Allocator;

/// Unique objects: at most one for each type.
impl<F: Fit, A: Allocator> Segment<F, A> {
    /// Makes the unique object of a type, with its default value, and returns the value's position. `AlreadyExists` if
    /// the object exists, `BadAlloc` if there is no room; then nothing changes.
    pub fn construct_unique(&mut self, t: TypeId) -> Result<PayloadAt, Code>
        ensures window { KeepsHost self.old.window self.new.window }
        ensures types { self.new.types ≡ self.old.types }
        ensures makes { (picture : Picture) → IsSegment F.allocator self.old picture →
            t < length self.old.types → MatchResult result
            (MakesUnique F.allocator self.old self.new picture t)
            (RefusesUnique F.allocator self.old self.new picture t) }
    {
        if unique(self.window(), t).is_some() {
            return Err(Code::AlreadyExists);
        }
        let object = self.new_anonymous(t)?;
        set_unique(self.heap_mut().window_mut(), t, Some(object));
        Ok(object)
    }

    /// The position of the unique object of a type. `Absent` if there is none.
    pub fn find_unique(&self, t: TypeId) -> Result<PayloadAt, Code>
        ensures { (picture : Picture) → IsSegment F.allocator self.now picture → t < MAX_TYPES →
            MatchResult result (λ at. unique_at picture t ≡ Some at)
            (λ code. (code ≡ Code.Absent) × (unique_at picture t ≡ None)) }
    {
        find_unique(self, t)
    }

    /// The position of the unique object of a type, which is made if it doesn't exist. `BadAlloc` if there is no room.
    pub fn find_or_construct_unique(&mut self, t: TypeId) -> Result<PayloadAt, Code>
        ensures window { KeepsHost self.old.window self.new.window }
        ensures types { self.new.types ≡ self.old.types }
        ensures makes { (picture : Picture) → IsSegment F.allocator self.old picture →
            t < length self.old.types → MatchResult result
            (FindsOrMakes F.allocator self.old self.new picture t)
            (λ code. (code ≡ Code.BadAlloc)
            × RefusesUnique F.allocator self.old self.new picture t code) }
    {
        match unique(self.window(), t) {
            Some(object) => Ok(object),
            None => self.construct_unique(t),
        }
    }

    /// Destroys the unique object of a type, and everything that it owns. False if there is none.
    pub fn destroy_unique(&mut self, t: TypeId) -> bool
        ensures window { KeepsHost self.old.window self.new.window }
        ensures types { self.new.types ≡ self.old.types }
        ensures loses { (picture : Picture) → IsSegment F.allocator self.old picture →
            t < MAX_TYPES → IsTrue result →
            LosesUnique F.allocator self.old self.new picture t }
        ensures none { (picture : Picture) → IsSegment F.allocator self.old picture →
            t < MAX_TYPES → result ≡ false → unique_at picture t ≡ None }
        ensures unchanged { result ≡ false → self.new ≡ self.old }
    {
        let Some(object) = unique(self.window(), t) else {
            return false;
        };
        set_unique(self.heap_mut().window_mut(), t, None);
        self.heap_mut().destroy(object);
        true
    }

    /// How many unique objects there are.
    pub fn num_unique(&self) -> usize
        ensures { (picture : Picture) → IsSegment F.allocator self.now picture →
            result ≡ length picture.uniques }
    {
        num_unique(self)
    }
}

/// Like [`Segment::find_unique`], in any source of values.
pub fn find_unique<S: SegmentRead>(source: &S, t: TypeId) -> Result<PayloadAt, Code>
    ensures { (picture : Picture) →
        IsSegment (S.allocator source.now) (S.stored source.now) picture → t < MAX_TYPES →
        MatchResult result (λ at. unique_at picture t ≡ Some at)
        (λ code. (code ≡ Code.Absent) × (unique_at picture t ≡ None)) }
{
    unique_in(source.view(), t).ok_or(Code::Absent)
}

/// How many unique objects there are.
pub fn num_unique<S: SegmentRead>(source: &S) -> usize
    ensures { (picture : Picture) →
        IsSegment (S.allocator source.now) (S.stored source.now) picture →
        result ≡ length picture.uniques }
{
    let view = source.view();
    let mut count = 0;
    for t in 0..MAX_TYPES as TypeId {
        if unique_in(view, t).is_some() {
            count += 1;
        }
    }
    count
}
