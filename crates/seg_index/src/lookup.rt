ghost use Rattle.std.specs.Prelude.{◌≡◌, ℕ, List, IsOkUnless, MatchResult};
ghost use Rattle.seg_spec.specs.Index.{Root};
ghost use Rattle.seg_spec.specs.Window.{KeepsHost};
ghost use Rattle.seg_index.specs.Lists.{WhereNames, IsOccupied, IsVacant, IsRootOf, MayEnter, EntersOrNot, LeavesName};

use crate::{flat, tree};
use seg_cells::{IndexKind, NameEntry};
use seg_rbtree::Path;
use seg_value::{Code, Fit, Heap, PayloadAt};
use std::alloc::Allocator;

/// Where a search for a name ended.
#[derive(Drop)]
enum Spot {
    /// An index in the buffer.
    Flat(u32),
    /// The end of a path in the tree.
    Tree(Path),
}

/// A name that the index has. Only valid until the index changes.
#[derive(Drop)]
pub struct Occupied {
    spot: Spot,
    entry: NameEntry,
}

/// A name that the index doesn't have, with the place to insert it at. Only valid until the index changes.
#[derive(Drop)]
pub struct Vacant {
    spot: Spot,
}

impl Occupied {
    /// The name's entry.
    pub fn entry(&self) -> NameEntry
        ensures { result ≡ self.now.entry }
    {
        self.entry
    }

    /// Removes the entry from the index. The object stays.
    pub fn remove<F: Fit, A: Allocator>(mut self, heap: &mut Heap<F, A>)
        ensures window { KeepsHost heap.old.window heap.new.window }
        ensures types { heap.new.types ≡ heap.old.types }
        ensures leaves { WhereNames F.allocator heap.old.window.bytes heap.old.types
            (λ names blocks. (name : List ℕ) (root : Root) →
            IsOccupied heap.old.window.bytes heap.old.types names name root self →
            LeavesName heap.old.window.bytes heap.new.window.bytes heap.old.types
            names blocks root) }
    {
        match &mut self.spot {
            Spot::Flat(index) => flat::remove(heap, *index),
            Spot::Tree(path) => tree::remove(heap, path),
        }
    }
}

impl Vacant {
    /// Adds the name to the index, for the object at a position. The object is `count` values, followed by the name of
    /// `name_len` bytes. `BadAlloc` if there is no room for the entry; then nothing changes.
    pub fn insert<F: Fit, A: Allocator>(
        mut self,
        heap: &mut Heap<F, A>,
        object: PayloadAt,
        count: u16,
        name_len: u8,
    ) -> Result<(), Code>
        ensures window { KeepsHost heap.old.window heap.new.window }
        ensures types { heap.new.types ≡ heap.old.types }
        ensures code { IsOkUnless result Code.BadAlloc }
        ensures enters { WhereNames F.allocator heap.old.window.bytes heap.old.types
            (λ names blocks. (root : Root) →
            MayEnter heap.old.window.bytes heap.old.types blocks root →
            IsRootOf object count name_len root →
            IsVacant heap.old.window.bytes heap.old.types names root.name self →
            EntersOrNot F.allocator heap.old.window.bytes heap.new.window.bytes heap.old.types
            names blocks root result) }
    {
        let entry = NameEntry::new(object, count, name_len);
        match &mut self.spot {
            Spot::Flat(index) => flat::insert(heap, *index, entry),
            Spot::Tree(path) => tree::insert(heap, path, entry),
        }
    }
}

/// Looks up a name: `Ok` to read or remove its entry, `Err` to insert one.
pub fn look_up<F: Fit, A: Allocator>(heap: &Heap<F, A>, name: &[u8]) -> Result<Occupied, Vacant>
    ensures { WhereNames F.allocator heap.now.window.bytes heap.now.types
        (λ names _. MatchResult result
        (λ occupied. (root : Root) × IsOccupied heap.now.window.bytes heap.now.types names name.now
        root occupied)
        (IsVacant heap.now.window.bytes heap.now.types names name.now)) }
{
    let (spot, entry) = match IndexKind::of(heap.window()) {
        IndexKind::Flat => {
            let (index, entry) = flat::look_up(heap, name);
            (Spot::Flat(index), entry)
        }
        IndexKind::Tree => {
            let (path, entry) = tree::look_up(heap, name);
            (Spot::Tree(path), entry)
        }
    };
    match entry {
        Some(entry) => Ok(Occupied { spot, entry }),
        None => Err(Vacant { spot }),
    }
}
