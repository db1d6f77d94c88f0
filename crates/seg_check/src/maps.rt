ghost use Rattle.std.specs.Prelude.{◌≡◌, ℕ, ◌+◌, ◌*◌, ◌-◌, ◌≤◌, ◌↔◌, ◌∷◌, [], length, IsTrue, MatchResult};
ghost use Rattle.seg_spec.specs.Bytes.{signed_long};
ghost use Rattle.seg_spec.specs.Types.{Form};
ghost use Rattle.seg_spec.specs.Reads.{keys_at, spaced};
ghost use Rattle.seg_spec.specs.Value.{IsAscending};
ghost use Rattle.seg_cells.specs.Places.{object_at};
ghost use Rattle.seg_check.specs.Turns.{LiesAt};
ghost use Rattle.seg_check.specs.Resolving.{IsReady, Steps};
ghost use Rattle.seg_check.specs.Cells.{CellsPointTo};
ghost use Rattle.seg_check.specs.Keys.{HasKeys};

use crate::claims::Claims;
use crate::fault::ContentFault;
use crate::image::TypedImage;
use crate::walk::{Tree, Visit};
use seg_block::PayloadAt;
use seg_cells::{CellAt, Content, Entry, KEY, ValueAt};
use seg_ptr::View;
use std::alloc::Allocator;

impl TypedImage<'_> {
    /// Checks a flat map: its buffer, and then the order of its keys.
    pub(crate) fn check_flat_map<A: Allocator>(
        &self,
        claims: &mut Claims<A>,
        content: &Content,
        cell: CellAt,
    ) -> Result<(), ContentFault>
        ensures taken { claims.new.taken ≡ claims.old.taken }
        ensures steps { (T U : ℕ) →
            CellsPointTo self.now.types.now T (Form.flat_map U) content.now →
            IsReady self.now.bytes.bytes.now self.now.types.now claims.old →
            LiesAt self.now.bytes.bytes.now self.now.types.now (object_at cell T) →
            Steps self.now.bytes.bytes.now self.now.types.now claims.old claims.new
            (object_at cell T ∷ []) result }
    {
        let Some(count) = self.counted(cell)? else {
            return Ok(());
        };
        let start = self.claim_entries(claims, cell, content, count)?;
        in_order(self.keys_ascend(content.entry, start, count), cell)
    }

    /// Whether the keys of the entries of a flat map ascend. Each entry begins with its key.
    fn keys_ascend(&self, entry: Entry, start: PayloadAt, count: u32) -> bool
        ensures { 8 ≤ entry.size →
            start + count * entry.size ≤ length self.now.bytes.bytes.now → IsTrue result
            ↔ IsAscending (keys_at self.now.bytes.bytes.now (spaced start entry.size count)) }
    {
        let size = entry.size as usize;
        let entries = self.bytes.slice(start as usize, count as usize * size);
        let mut keys = Keys::new();
        for bytes in entries.chunks_exact(size) {
            keys.add(View::new(bytes).get64(0).cast_signed());
            if !keys.ascend {
                return false;
            }
        }
        true
    }

    /// Checks a map: claims its nodes, and then checks the tree and the order of its keys.
    pub(crate) fn check_map<A: Allocator>(
        &self,
        claims: &mut Claims<A>,
        content: &Content,
        cell: CellAt,
    ) -> Result<(), ContentFault>
        ensures taken { claims.new.taken ≡ claims.old.taken }
        ensures steps { (T U : ℕ) → CellsPointTo self.now.types.now T (Form.map U) content.now →
            IsReady self.now.bytes.bytes.now self.now.types.now claims.old →
            LiesAt self.now.bytes.bytes.now self.now.types.now (object_at cell T) →
            Steps self.now.bytes.bytes.now self.now.types.now claims.old claims.new
            (object_at cell T ∷ []) result }
    {
        let Some(count) = self.counted_blocks(cell)? else {
            return Ok(());
        };
        let tree = Tree {
            root: cell,
            nodes: count as usize,
        };
        let (bytes, owner) = (self.bytes, self.owner(content));
        let mut walk = tree.walk(bytes);
        let mut keys = Keys::new();
        while let Some(visit) = walk.next().map_err(ContentFault::BadValue)? {
            match visit {
                Visit::Enter(pointer) => {
                    owner.claim(claims, pointer, 1)?;
                    claims.look_ahead(bytes, pointer);
                }
                Visit::Pass(node) => keys.add(key(bytes, content.entry.value_at(node, 0))),
            }
        }
        keys.check(cell)
    }
}

/// The key right before the value at a position.
#[tactic(auto, unfolding(seg_spec::specs::Bytes::signed))]
fn key(bytes: View, value: ValueAt) -> i64
    ensures { KEY ≤ value → result ≡ signed_long bytes.entry.bytes.now (value - KEY) }
{
    bytes.get64(value.wrapping_sub(KEY) as usize).cast_signed()
}

/// `BadValue` with a map's cell unless its keys ascend.
fn in_order(ascend: bool, cell: CellAt) -> Result<(), ContentFault>
    ensures { MatchResult result (λ _. IsTrue ascend)
        (λ fault. (fault ≡ ContentFault.BadValue cell) × (IsTrue ascend → ⊥)) }
{
    if ascend {
        Ok(())
    } else {
        Err(ContentFault::BadValue(cell))
    }
}

/// The keys of a map so far: the last one, and whether they ascend.
#[derive(Clone, Copy)]
struct Keys {
    last: Option<i64>,
    ascend: bool,
}

impl Keys {
    ghost use Rattle.std.specs.Prelude.{⊤, ℤ, ◌<ℤ◌, ◌↔◌, List, ◌++◌, IsTrue, MatchOption, MatchResult};
    ghost use Rattle.seg_spec.specs.Value.{IsAscending};
    ghost use Rattle.seg_check.specs.Keys.{HasKeys};

    fn new() -> Keys
        ensures { HasKeys result [] }
    {
        Keys {
            last: None,
            ascend: true,
        }
    }

    fn add(&mut self, key: i64)
        ensures { (ks : List ℤ) → HasKeys self.old ks → HasKeys self.new (ks ++ key ∷ []) }
    {
        self.ascend = self.ascend && self.is_before(key);
        self.last = Some(key);
    }

    /// Whether a key is above the last one, if there is one.
    fn is_before(self, key: i64) -> bool
        ensures { IsTrue result ↔ MatchOption self.last ⊤ (λ last. last <ℤ key) }
    {
        match self.last {
            Some(last) => last < key,
            None => true,
        }
    }

    /// `BadValue` with the map's cell if a key wasn't above the one before.
    fn check(self, cell: CellAt) -> Result<(), ContentFault>
        ensures { (ks : List ℤ) → HasKeys self ks → MatchResult result (λ _. IsAscending ks)
            (λ fault. (fault ≡ ContentFault.BadValue cell) × (IsAscending ks → ⊥)) }
    {
        in_order(self.ascend, cell)
    }
}
