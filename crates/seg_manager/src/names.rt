ghost use Rattle.std.specs.Prelude.{◌≡◌, ◌+◌, ◌*◌, ◌%◌, ◌^◌, ◌<◌, ◌≤◌, false, [], ◌++◌, length, None, Some, Err, IfOk, IfSome, IfNone, MatchResult, IsOkUnless, is_ok, ℕ, List, IsTrue};
ghost use Rattle.seg_spec.specs.Bytes.{ChangesOnly};
ghost use Rattle.seg_spec.specs.Calls.{Refuses};
ghost use Rattle.seg_spec.specs.Clearing.{BesideShared};
ghost use Rattle.seg_spec.specs.Destroying.{Destroys};
ghost use Rattle.seg_spec.specs.Frozen.{blocks_by};
ghost use Rattle.seg_spec.specs.Heap.{IsHeap};
ghost use Rattle.seg_spec.specs.Index.{Root, IsName, root_named};
ghost use Rattle.seg_spec.specs.Reads.{items, HoldsEach};
ghost use Rattle.seg_spec.specs.Shared.{named_each};
ghost use Rattle.seg_spec.specs.Sound.{Picture};
ghost use Rattle.seg_spec.specs.Spending.{object_asks};
ghost use Rattle.seg_spec.specs.Types.{IsTable, size};
ghost use Rattle.seg_spec.specs.Value.{copies, default_of};
ghost use Rattle.seg_spec.specs.Window.{KeepsHost};
ghost use Rattle.seg_index.specs.Lists.{IsNamed, IsVacant, entry_of};
ghost use Rattle.seg_manager.specs.NamedObjects.{found_as, IsMissing, IsCount, RefusesName, FindsOrMakesNamed, RefusesToFind, found_of};
ghost use Rattle.seg_manager.specs.NewNamed.{HasValuesRoom, GivesNamed, MakesNamed, FindsNoRoom, root_asks};
ghost use Rattle.seg_manager.specs.LeavingNamed.{IsUnlisted, LosesNamed};
ghost use Rattle.seg_manager.specs.Segments.{IsSegment, new_root};

use crate::segment::Segment;
use seg_index::{MAX_NAME, NameEntry, Vacant, look_up};
use seg_raw::Code;
use seg_value::{Fit, Kind, PayloadAt, Place, SegmentRead, Tag, TypeId, UNIT, need};
use std::alloc::Allocator;

/// A named object: the position of its first value, and the number of its values.
#[derive(Debug, Clone, Copy, PartialEq, Eq)]
pub struct Found {
    pub at: PayloadAt,
    pub count: u16,
}

/// The bytes of a name: 1 to 63, each a visible ASCII character.
#[derive(Debug, Clone, Copy)]
struct Name<'a> {
    bytes: &'a [u8],
    len: u8,
}

impl<'a> Name<'a> {
    fn of(bytes: &'a [u8]) -> Option<Name<'a>>
        ensures name { IfSome result (λ name. IsName bytes.now × (name.bytes.now ≡ bytes.now)
            × (name.len ≡ length bytes.now)) }
        ensures none { IfNone result (IsName bytes.now → ⊥) }
    {
        let len = u8::try_from(bytes.len()).ok()?;
        if (1..=MAX_NAME).contains(&len) && bytes.iter().all(|byte| byte.is_ascii_graphic()) {
            Some(Name { bytes, len })
        } else {
            None
        }
    }
}

/// Named objects.
impl<F: Fit, A: Allocator> Segment<F, A> {
    /// Makes an object of `count` default values, and returns the position of the first one. `OutOfRange` if the name
    /// isn't allowed or the count isn't from 1 to 65535, `AlreadyExists` if an object has the name, `BadAlloc` if there
    /// is no room for the object or its entry in the index; then nothing changes.
    pub fn construct(&mut self, name: &[u8], t: TypeId, count: u32) -> Result<PayloadAt, Code>
        ensures window { KeepsHost self.old.window self.new.window }
        ensures types { self.new.types ≡ self.old.types }
        ensures tells { (picture : Picture) → IsSegment F.allocator self.old picture →
            MatchResult result (λ _. IsMissing picture.names name.now × IsCount count)
            (RefusesName self.old self.new picture.names name.now count) }
        ensures makes { (picture : Picture) → (s : IsSegment F.allocator self.old picture) →
            t < length self.old.types →
            IfOk result (MakesNamed F.allocator self.old self.new picture s.held.index_blocks
            name.now t count) }
        ensures no_room { (picture : Picture) → IsSegment F.allocator self.old picture →
            t < length self.old.types → result ≡ Err Code.BadAlloc →
            FindsNoRoom F.allocator self.old self.new picture
            (object_asks self.old.window.bytes self.old.types t count name.now) }
    {
        let Ok(count) = u16::try_from(count) else {
            return Err(Code::OutOfRange);
        };
        let Some(name) = Name::of(name) else {
            return Err(Code::OutOfRange);
        };
        if count == 0 {
            return Err(Code::OutOfRange);
        }
        match look_up(self.heap(), name.bytes) {
            Ok(_) => Err(Code::AlreadyExists),
            Err(vacant) => self.construct_at(vacant, name, t, count),
        }
    }

    /// Makes the object of a name that the index doesn't have, and adds its entry.
    fn construct_at(
        &mut self,
        vacant: Vacant,
        name: Name,
        t: TypeId,
        count: u16,
    ) -> Result<PayloadAt, Code>
        ensures window { KeepsHost self.old.window self.new.window }
        ensures types { self.new.types ≡ self.old.types }
        ensures code { IsOkUnless result Code.BadAlloc }
        ensures makes { (picture : Picture) → (s : IsSegment F.allocator self.old picture) →
            t < length self.old.types → IsName name.entry.bytes.now →
            name.entry.len ≡ length name.entry.bytes.now → 1 ≤ count →
            IsVacant self.old.window.bytes self.old.types picture.names name.entry.bytes.now
            vacant →
            MatchResult result
            (MakesNamed F.allocator self.old self.new picture s.held.index_blocks
            name.entry.bytes.now t count)
            (λ _. FindsNoRoom F.allocator self.old self.new picture
            (object_asks self.old.window.bytes self.old.types t count name.entry.bytes.now)) }
    {
        let object = self.new_named(name, t, count)?;
        match vacant.insert(self.heap_mut(), object, count, name.len) {
            Ok(()) => Ok(object),
            Err(code) => {
                self.heap_mut().free_block(object);
                Err(code)
            }
        }
    }

    /// A block for a named object: default values, followed by the name.
    fn new_named(&mut self, name: Name, t: TypeId, count: u16) -> Result<PayloadAt, Code>
        ensures window { KeepsHost self.old.window self.new.window }
        ensures types { self.new.types ≡ self.old.types }
        ensures code { IsOkUnless result Code.BadAlloc }
        ensures gives { IsHeap F.allocator self.old.window.bytes → IsTable self.old.types →
            t < length self.old.types → name.entry.len ≡ length name.entry.bytes.now →
            1 ≤ name.entry.len →
            MatchResult result
            (λ object. GivesNamed F.allocator self.old.window.bytes self.new.window.bytes
            self.old.types (new_root self.old.types name.entry.bytes.now t count object))
            (λ code. Refuses F.allocator self.old.window.bytes self.new.window.bytes
            (root_asks self.old.types (new_root self.old.types name.entry.bytes.now t count 0))) }
    {
        let size = self.types().size(t);
        let values = u32::from(count).saturating_mul(size);
        let units = need(values.saturating_add(u32::from(name.len)));
        let w = self.heap_mut().window_mut();
        let Some(block) = F::allocate(w, units) else {
            return Err(Code::BadAlloc);
        };
        let tag = Tag {
            kind: Kind::Named,
            type_id: t,
        };
        tag.write(w, block);
        let object = block.wrapping_add(UNIT);
        w.copy_in(object as usize + values as usize, name.bytes);
        self.init_values(object, t, count);
        Ok(object)
    }

    /// Writes `count` default values of a type from a position on.
    fn init_values(&mut self, object: PayloadAt, t: TypeId, count: u16)
        ensures window { KeepsHost self.old.window self.new.window }
        ensures types { self.new.types ≡ self.old.types }
        ensures changes { HasValuesRoom self.old.window.bytes self.old.types object t count →
            ChangesOnly self.old.window.bytes self.new.window.bytes object
            (count * size self.old.types t) }
        ensures default { HasValuesRoom self.old.window.bytes self.old.types object t count →
            HoldsEach self.new.window.bytes self.old.types (items self.old.types object t count)
            (copies count (default_of self.old.types t)) [] }
    {
        let size = self.types().size(t);
        for index in 0..count {
            let value = value_of(object, t, size, index);
            self.heap_mut().init_default(value);
        }
    }

    /// The object with this name. `Absent` if there is none, `OtherType` if it has another type.
    pub fn find(&self, name: &[u8], t: TypeId) -> Result<Found, Code>
        ensures { (picture : Picture) → IsSegment F.allocator self.now picture →
            result ≡ found_as t (root_named picture.names name.now) }
    {
        find(self, name, t)
    }

    /// The position of the first value of the object with this name. If there is none, it is made with one default
    /// value. `OutOfRange` if the name isn't allowed, `OtherType` if the object has another type, `BadAlloc` if there
    /// is no room.
    pub fn find_or_construct(&mut self, name: &[u8], t: TypeId) -> Result<PayloadAt, Code>
        ensures window { KeepsHost self.old.window self.new.window }
        ensures types { self.new.types ≡ self.old.types }
        ensures tells { (picture : Picture) → IsSegment F.allocator self.old picture →
            MatchResult result
            (FindsOrMakesNamed self.old self.new picture.names name.now t)
            (RefusesToFind self.old self.new picture.names name.now t) }
        ensures makes { (picture : Picture) → (s : IsSegment F.allocator self.old picture) →
            t < length self.old.types → root_named picture.names name.now ≡ None →
            IfOk result (MakesNamed F.allocator self.old self.new picture s.held.index_blocks
            name.now t 1) }
        ensures no_room { (picture : Picture) → IsSegment F.allocator self.old picture →
            t < length self.old.types → result ≡ Err Code.BadAlloc →
            FindsNoRoom F.allocator self.old self.new picture
            (object_asks self.old.window.bytes self.old.types t 1 name.now) }
    {
        match look_up(self.heap(), name) {
            Ok(occupied) => match named_object(self, occupied.entry(), t) {
                Ok(found) => Ok(found.at),
                Err(code) => Err(code),
            },
            Err(vacant) => {
                let Some(name) = Name::of(name) else {
                    return Err(Code::OutOfRange);
                };
                self.construct_at(vacant, name, t, 1)
            }
        }
    }

    /// Destroys the object with this name, and everything that its values own. False if there is none of this type.
    pub fn destroy(&mut self, name: &[u8], t: TypeId) -> bool
        ensures window { KeepsHost self.old.window self.new.window }
        ensures types { self.new.types ≡ self.old.types }
        ensures tells { (picture : Picture) → IsSegment F.allocator self.old picture →
            result ≡ is_ok (found_as t (root_named picture.names name.now)) }
        ensures loses { (picture : Picture) → (s : IsSegment F.allocator self.old picture) →
            IsTrue result →
            LosesNamed F.allocator self.old self.new picture s.held.index_blocks name.now t }
        ensures unchanged { result ≡ false → self.new ≡ self.old }
    {
        let Ok(occupied) = look_up(self.heap(), name) else {
            return false;
        };
        let Ok(found) = named_object(self, occupied.entry(), t) else {
            return false;
        };
        occupied.remove(self.heap_mut());
        self.destroy_named(found, t);
        true
    }

    /// Destroys a named object whose entry was removed from the index.
    fn destroy_named(&mut self, found: Found, t: TypeId)
        ensures window { KeepsHost self.old.window self.new.window }
        ensures types { self.new.types ≡ self.old.types }
        ensures frees { (root : Root) (blocks : List ℕ) →
            IsUnlisted F.allocator self.old.window.bytes self.old.types root blocks →
            found ≡ found_of root → root.type ≡ t →
            BesideShared self.old.window.bytes self.old.types blocks (named_each root.values)
            (λ theirs now. Destroys F.allocator self.old.window.bytes self.new.window.bytes
            self.old.types (blocks ++ blocks_by theirs now) theirs) }
    {
        let size = self.types().size(t);
        for index in 0..found.count {
            let value = value_of(found.at, t, size, index);
            self.heap_mut().clear(value);
        }
        self.heap_mut().free_block(found.at);
    }
}

/// Like [`Segment::find`], in any source of values.
pub fn find<S: SegmentRead>(source: &S, name: &[u8], t: TypeId) -> Result<Found, Code>
    ensures { (picture : Picture) →
        IsSegment (S.allocator source.now) (S.stored source.now) picture →
        result ≡ found_as t (root_named picture.names name.now) }
{
    match seg_index::find(source, name) {
        Some(entry) => named_object(source, entry, t),
        None => Err(Code::Absent),
    }
}

/// The object of an entry. `OtherType` if it has another type.
fn named_object<S: SegmentRead>(source: &S, entry: NameEntry, t: TypeId) -> Result<Found, Code>
    ensures { (root : Root) →
        IsNamed (S.stored source.now).window.bytes (S.stored source.now).types root →
        root.type < 32 → entry ≡ entry_of root → result ≡ found_as t (Some root) }
{
    let Some(at) = entry.object else {
        return Err(Code::Absent);
    };
    if entry.type_in(source.view()) != Some(t) {
        return Err(Code::OtherType);
    }
    Ok(Found {
        at,
        count: entry.count,
    })
}

/// The place of a value of an object, by its index. Each value has `size` bytes.
fn value_of(object: PayloadAt, type_id: TypeId, size: u32, index: u16) -> Place
    ensures at { result.at ≡ (object + index * size) % 2 ^ 32 }
    ensures type_id { result.type_id ≡ type_id }
{
    Place {
        at: object.wrapping_add(u32::from(index).wrapping_mul(size)),
        type_id,
    }
}
