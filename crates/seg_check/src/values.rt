ghost use Rattle.std.specs.Prelude.{◌≡◌, ℕ, ◌+◌, ◌^◌, ◌<◌, ◌≤◌, ◌∷◌, [], length, Some};
ghost use Rattle.seg_spec.specs.Types.{Form, IsTable, form_at, fields_of, size};
ghost use Rattle.seg_spec.specs.Block.{IsOwnable};
ghost use Rattle.seg_spec.specs.Pointer.{target};
ghost use Rattle.seg_spec.specs.Reads.{count_at};
ghost use Rattle.seg_cells.specs.Places.{place_of, object_at};
ghost use Rattle.seg_check.specs.Turns.{places_in, LiesAt, IsTurn, AreWaiting, HoldsEntries};
ghost use Rattle.seg_check.specs.Resolving.{IsReady, Steps};
ghost use Rattle.seg_check.specs.Cells.{counted_by, blocks_counted_by, CellsPointTo, IsStringOrVector, ResolvesTurns};

use crate::bytes::frozen_number;
use crate::claims::Claims;
use crate::fault::ContentFault;
use crate::image::TypedImage;
use crate::marks::Turn;
use seg_block::{BlockAt, Kind, Tag, block_of, tag_word_in};
use seg_cells::{CellAt, Content, Entry, Place, count_in};
use seg_layout::{Type, TypeId};
use std::alloc::Allocator;

impl TypedImage<'_> {
    /// Checks the values in the claimed blocks, and in the blocks that their cells claim.
    pub(crate) fn check_values<A: Allocator>(
        &self,
        claims: &mut Claims<A>,
    ) -> Result<(), ContentFault>
        ensures { IsReady self.now.bytes.bytes.now self.now.types.now claims.old →
            AreWaiting self.now.bytes.bytes.now self.now.types.now claims.old.turns →
            ResolvesTurns self.now.bytes.bytes.now self.now.types.now claims.old claims.new result }
    {
        while let Some(turn) = claims.next_turn() {
            self.check_block(claims, turn)?;
        }
        Ok(())
    }

    /// Checks the values in a claimed block.
    fn check_block<A: Allocator>(
        &self,
        claims: &mut Claims<A>,
        turn: Turn,
    ) -> Result<(), ContentFault>
        ensures taken { claims.new.taken ≡ claims.old.taken }
        ensures steps { IsReady self.now.bytes.bytes.now self.now.types.now claims.old →
            IsTurn self.now.bytes.bytes.now self.now.types.now turn →
            Steps self.now.bytes.bytes.now self.now.types.now claims.old claims.new
            (places_in self.now.bytes.bytes.now self.now.types.now turn) result }
    {
        let Some(entry) = self.entry_of(block_of(turn.start)) else {
            return Ok(());
        };
        for index in 0..turn.count {
            if let Some(value) = entry.value(turn.start, index) {
                self.check_value(claims, value)?;
            }
        }
        Ok(())
    }

    /// The layout of the entries in a claimed block of the queue.
    fn entry_of(&self, block: BlockAt) -> Option<Entry>
        ensures { IsTable self.now.types.now →
            IsOwnable self.now.bytes.bytes.now self.now.types.now block →
            HoldsEntries self.now.bytes.bytes.now self.now.types.now block result }
    {
        let tag = Tag::read(tag_word_in(self.bytes, block))?;
        let content = match tag.kind {
            Kind::Named => Content::object(self.types, tag.type_id),
            Kind::Object
            | Kind::Buffer
            | Kind::Node
            | Kind::IndexBuffer
            | Kind::IndexNode
            | Kind::Frozen => Content::of_block(self.types, tag)?,
        };
        Some(content.entry)
    }

    /// Checks the cells of a value, by ascending position. The cells of a struct are its fields' cells, and fields have
    /// lower types, so the recursion is no deeper than the table is long.
    fn check_value<A: Allocator>(
        &self,
        claims: &mut Claims<A>,
        value: Place,
    ) -> Result<(), ContentFault>
        ensures taken { claims.new.taken ≡ claims.old.taken }
        ensures steps { IsReady self.now.bytes.bytes.now self.now.types.now claims.old →
            value.type_id < length self.now.types.now →
            value.at + size self.now.types.now value.type_id ≤ 2 ^ 32 →
            LiesAt self.now.bytes.bytes.now self.now.types.now (place_of value) →
            Steps self.now.bytes.bytes.now self.now.types.now claims.old claims.new
            (place_of value ∷ []) result }
    {
        if !self.types.has_pointers(value.type_id) {
            return Ok(());
        }
        let fields = self.types.field_count(value.type_id);
        if fields == 0 {
            return self.check_cell(claims, value);
        }
        for index in 0..fields {
            if let Some(field) = self.types.field(value.type_id, index) {
                self.check_value(claims, value.part(field))?;
            }
        }
        Ok(())
    }

    /// Checks a cell, and claims the blocks that it points to.
    fn check_cell<A: Allocator>(
        &self,
        claims: &mut Claims<A>,
        place: Place,
    ) -> Result<(), ContentFault>
        ensures taken { claims.new.taken ≡ claims.old.taken }
        ensures steps { IsReady self.now.bytes.bytes.now self.now.types.now claims.old →
            place.type_id < length self.now.types.now →
            length (fields_of self.now.types.now place.type_id) ≡ 0 →
            LiesAt self.now.bytes.bytes.now self.now.types.now (place_of place) →
            Steps self.now.bytes.bytes.now self.now.types.now claims.old claims.new
            (place_of place ∷ []) result }
    {
        let Some(kind) = self.types.kind(place.type_id) else {
            return Ok(());
        };
        if let Type::Shared(held) = kind {
            return self.check_shared(claims, held, place.at);
        }
        let Some(content) = Content::of(self.types, place.type_id) else {
            return Ok(());
        };
        match kind {
            Type::I64 | Type::Struct(_) | Type::Shared(_) => Ok(()),
            Type::Str | Type::Vec(_) => self.check_buffer(claims, &content, place.at),
            Type::FlatMap(_) => self.check_flat_map(claims, &content, place.at),
            Type::List(_) => self.check_list(claims, &content, place.at),
            Type::Map(_) => self.check_map(claims, &content, place.at),
            Type::Own(_) => self.check_own(claims, &content, place.at),
        }
    }

    /// Checks a string or a vector, and claims its buffer.
    fn check_buffer<A: Allocator>(
        &self,
        claims: &mut Claims<A>,
        content: &Content,
        cell: CellAt,
    ) -> Result<(), ContentFault>
        ensures taken { claims.new.taken ≡ claims.old.taken }
        ensures steps { (T : ℕ) (form : Form) → IsStringOrVector form →
            CellsPointTo self.now.types.now T form content.now →
            IsReady self.now.bytes.bytes.now self.now.types.now claims.old →
            LiesAt self.now.bytes.bytes.now self.now.types.now (object_at cell T) →
            Steps self.now.bytes.bytes.now self.now.types.now claims.old claims.new
            (object_at cell T ∷ []) result }
    {
        if let Some(count) = self.counted(cell)? {
            self.claim_entries(claims, cell, content, count)?;
        }
        Ok(())
    }

    /// Checks an own, and claims its object.
    fn check_own<A: Allocator>(
        &self,
        claims: &mut Claims<A>,
        content: &Content,
        cell: CellAt,
    ) -> Result<(), ContentFault>
        ensures taken { claims.new.taken ≡ claims.old.taken }
        ensures steps { (T U : ℕ) → CellsPointTo self.now.types.now T (Form.own U) content.now →
            IsReady self.now.bytes.bytes.now self.now.types.now claims.old →
            LiesAt self.now.bytes.bytes.now self.now.types.now (object_at cell T) →
            Steps self.now.bytes.bytes.now self.now.types.now claims.old claims.new
            (object_at cell T ∷ []) result }
    {
        if count_in(self.bytes, cell) > 1 {
            return Err(ContentFault::BadValue(cell));
        }
        if self.counted_blocks(cell)?.is_some() {
            self.claim_entries(claims, cell, content, 1)?;
        }
        Ok(())
    }

    /// Checks a shared cell, and counts it for the frozen object that it points to. If a frozen object owns the cell,
    /// the one that the cell points to must have a lower number.
    fn check_shared<A: Allocator>(
        &self,
        claims: &mut Claims<A>,
        held: TypeId,
        cell: CellAt,
    ) -> Result<(), ContentFault>
        ensures taken { claims.new.taken ≡ claims.old.taken }
        ensures steps { (T : ℕ) → form_at self.now.types.now T ≡ Some (Form.shared held) →
            IsReady self.now.bytes.bytes.now self.now.types.now claims.old →
            LiesAt self.now.bytes.bytes.now self.now.types.now (object_at cell T) →
            Steps self.now.bytes.bytes.now self.now.types.now claims.old claims.new
            (object_at cell T ∷ []) result }
    {
        if count_in(self.bytes, cell) > 1 {
            return Err(ContentFault::BadValue(cell));
        }
        if self.counted_blocks(cell)?.is_none() {
            return Ok(());
        }
        let content = Content::frozen(self.types, held);
        let size = u64::from(content.entry.size);
        let object = claims.name(self.bytes, cell, content.tag, size)?;
        if claims.may_name(frozen_number(self.bytes, object)) {
            Ok(())
        } else {
            Err(ContentFault::BadValue(cell))
        }
    }

    /// The count of a cell, or `None` if the cell is empty. `BadPointer` if it counts something and its pointer is
    /// null.
    pub(crate) fn counted(&self, cell: CellAt) -> Result<Option<u32>, ContentFault>
        ensures { result ≡ counted_by cell (target self.now.bytes.bytes.now cell)
            (count_at self.now.bytes.bytes.now cell) }
    {
        match (self.bytes.target(cell as usize), count_in(self.bytes, cell)) {
            (None, 0) => Ok(None),
            (None, _) => Err(ContentFault::BadPointer(cell)),
            (Some(_), count) => Ok(Some(count)),
        }
    }

    /// Like [`counted`](TypedImage::counted), of a cell that counts the blocks it points to: `BadValue` if it points to one
    /// and counts none.
    pub(crate) fn counted_blocks(&self, cell: CellAt) -> Result<Option<u32>, ContentFault>
        ensures { result ≡ blocks_counted_by cell (target self.now.bytes.bytes.now cell)
            (count_at self.now.bytes.bytes.now cell) }
    {
        match self.counted(cell)? {
            Some(0) => Err(ContentFault::BadValue(cell)),
            count => Ok(count),
        }
    }
}
