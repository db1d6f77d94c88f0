ghost use Rattle.std.specs.Prelude.{◌≡◌, ℕ, List, Some, MatchOption, MatchResult};
ghost use Rattle.seg_spec.specs.Types.{Form, form_at};
ghost use Rattle.seg_spec.specs.Value.{Values, Int};
ghost use Rattle.seg_spec.specs.Window.{KeepsHost};
ghost use Rattle.seg_raw.specs.declared.code.Code.TheVariants.{OtherType};
ghost use Rattle.seg_cells.specs.Places.{place_of, object_at};
ghost use Rattle.seg_value.specs.Buffers.{NamesBuffer};
ghost use Rattle.seg_seq.specs.Kinds.{HasNumbers};
ghost use Rattle.seg_seq.specs.Sequences.{HasItems, LacksRoom, PushesItem, PushesNumber, push_asks};

use crate::kind::SequenceKind;
use crate::pushing::push_number_in_place;
use crate::sequence::count_entry;
use seg_block::Fit;
use seg_raw::Code;
use seg_value::{CellAt, Content, Heap, Place, ValueAt};
use std::alloc::Allocator;

/// A vector of numbers, whose type was checked once, so that a push doesn't read the type table. Entries of the table
/// never change, so the type stays right.
#[derive(Debug, Clone, Copy, PartialEq, Eq)]
pub struct Numbers {
    vector: Place,
}

impl Numbers {
    /// The vector of numbers at a place. `OtherType` if the place has another type.
    pub fn of<F: Fit, A: Allocator>(heap: &Heap<F, A>, vector: Place) -> Result<Numbers, Code>
        ensures { MatchResult result
            (λ numbers. (numbers.vector ≡ vector) × HasNumbers heap.now.types vector.type_id)
            (λ code. (code ≡ OtherType) × ¬ HasNumbers heap.now.types vector.type_id) }
    {
        match heap.number_type(vector.type_id) {
            Some(_) => Ok(Numbers { vector }),
            None => Err(Code::OtherType),
        }
    }

    /// Appends a number, and returns its position. `BadAlloc` if there is no room for it; then nothing changes.
    #[inline(always)]
    pub fn push<F: Fit, A: Allocator>(
        self,
        heap: &mut Heap<F, A>,
        number: i64,
    ) -> Result<ValueAt, Code>
        ensures window { KeepsHost heap.old.window heap.new.window }
        ensures types { heap.new.types ≡ heap.old.types }
        ensures vector { PushesNumber F.allocator heap.old heap.new (place_of self.vector) number
            result }
    {
        match push_number_in_place(heap, self.vector.at, number) {
            Some(at) => Ok(at),
            None => self.push_asking(heap, number),
        }
    }

    /// Like [`push`](Numbers::push), if a larger buffer may be needed.
    #[inline(never)]
    fn push_asking<F: Fit, A: Allocator>(
        self,
        heap: &mut Heap<F, A>,
        number: i64,
    ) -> Result<ValueAt, Code>
        ensures window { KeepsHost heap.old.window heap.new.window }
        ensures types { heap.new.types ≡ heap.old.types }
        ensures vector { PushesNumber F.allocator heap.old heap.new (place_of self.vector) number
            result }
    {
        let (kind, content) = SequenceKind::of(heap, self.vector)?;
        match kind {
            SequenceKind::Vector => push_number(heap, &content, self.vector.at, number),
            SequenceKind::Text | SequenceKind::List => Err(Code::OtherType),
        }
    }
}

/// Appends a number to a buffer, and returns its position.
fn push_number<F: Fit, A: Allocator>(
    heap: &mut Heap<F, A>,
    content: &Content,
    cell: CellAt,
    number: i64,
) -> Result<ValueAt, Code>
    ensures window { KeepsHost heap.old.window heap.new.window }
    ensures types { heap.new.types ≡ heap.old.types }
    ensures vector { (T U : ℕ) (vs : Values) (blocks : List ℕ) →
        NamesBuffer heap.old.types T content.now →
        HasItems F.allocator heap.old (object_at cell T) U vs blocks →
        form_at heap.old.types U ≡ Some Form.i64 →
        MatchResult result
        (PushesItem (Int number) F.allocator heap.old heap.new (object_at cell T) U vs blocks)
        (LacksRoom F.allocator heap.old heap.new (push_asks heap.old (object_at cell T) U)) }
{
    let at = count_entry(heap, content, cell)?;
    heap.store(at, number);
    Ok(at)
}
