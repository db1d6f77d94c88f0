ghost use Rattle.std.specs.Prelude.{◌≡◌, ℕ, ◌+◌, ◌^◌, ◌≤◌, ◌↔◌, List, [], ◌∷◌, ◌++◌, All, IsTrue, IfOk, IfErr, OnOk, Some};
ghost use Rattle.seg_spec.specs.Bytes.{word, half, byte};
ghost use Rattle.seg_spec.specs.Pointer.{target};
ghost use Rattle.seg_spec.specs.Types.{form_at};
ghost use Rattle.seg_spec.specs.Header.{index_kind_word, index_cell};
ghost use Rattle.seg_spec.specs.Index.{Index, OpensIndex, Precedes, index_node_size};
ghost use Rattle.seg_spec.specs.Shapes.{tree_words};
ghost use Rattle.seg_spec.specs.Reads.{count_at};
ghost use Rattle.seg_layout.specs.Forms.{has_cells};
ghost use Rattle.seg_check.specs.Claiming.{Refutes, turns_where};
ghost use Rattle.seg_check.specs.Marks.{awaiting};
ghost use Rattle.seg_check.specs.Positions.{AreEntriesBefore, IsEntryAt, LacksAt};
ghost use Rattle.seg_check.specs.Resolving.{IsReady};
ghost use Rattle.seg_check.specs.Roots.{StepsIndex, AdvancesRoots, CanResolveRoots, names_ahead, ClaimsNamed, CanClaimNamed, ClaimsTree, CanClaimTree};

use crate::claims::Claims;
use crate::fault::ContentFault;
use crate::image::TypedImage;
use crate::marks::Turn;
use crate::walk::{Tree, Visit};
use seg_cells::{Content, ENTRY, IndexKind, MAX_NAME, NameEntry, name_count_in, named_tag};
use seg_layout::TypeId;
use seg_ptr::header;
use seg_rbtree::NodeAt;
use std::alloc::Allocator;

/// The position of the pointer to the entries, or to the root node.
const INDEX: u32 = header::INDEX as u32;

impl<'a> TypedImage<'a> {
    /// Checks the index, flat or a tree, and each entry with its object.
    pub(crate) fn check_index<A: Allocator>(
        &self,
        claims: &mut Claims<A>,
    ) -> Result<(), ContentFault>
        ensures { IsReady self.now.bytes.bytes.now self.now.types.now claims.old →
            word self.now.bytes.bytes.now index_kind_word ≤ 1 →
            StepsIndex self.now.bytes.bytes.now self.now.types.now claims.old claims.new result }
    {
        let count = name_count_in(self.bytes);
        match (self.bytes.target(header::INDEX), count) {
            (None, 0) => Ok(()),
            (None, _) => Err(ContentFault::BadPointer(INDEX)),
            (Some(_), _) => match IndexKind::read_in(self.bytes) {
                IndexKind::Flat => self.check_flat_index(claims, count),
                IndexKind::Tree => self.check_tree_index(claims, count),
            },
        }
    }

    fn check_flat_index<A: Allocator>(
        &self,
        claims: &mut Claims<A>,
        count: u32,
    ) -> Result<(), ContentFault>
        ensures { (p : ℕ) → target self.now.bytes.bytes.now index_cell ≡ Some p →
            count ≡ count_at self.now.bytes.bytes.now index_cell →
            IsReady self.now.bytes.bytes.now self.now.types.now claims.old →
            word self.now.bytes.bytes.now index_kind_word ≡ 0 →
            StepsIndex self.now.bytes.bytes.now self.now.types.now claims.old claims.new result }
    {
        let content = Content::index_buffer();
        let start = self.claim_entries(claims, INDEX, &content, count)?;
        if count == 0 {
            return Err(ContentFault::BadIndex(INDEX));
        }
        let mut before: &[u8] = &[];
        for index in 0..count {
            before = self.check_entry(claims, content.entry.at(start, index), before)?;
        }
        Ok(())
    }

    fn check_tree_index<A: Allocator>(
        &self,
        claims: &mut Claims<A>,
        count: u32,
    ) -> Result<(), ContentFault>
        ensures { count ≡ count_at self.now.bytes.bytes.now index_cell →
            IsReady self.now.bytes.bytes.now self.now.types.now claims.old →
            word self.now.bytes.bytes.now index_kind_word ≡ 1 →
            StepsIndex self.now.bytes.bytes.now self.now.types.now claims.old claims.new result }
    {
        let tree = Tree {
            root: INDEX,
            nodes: count as usize,
        };
        self.claim_index_nodes(claims, tree)?;
        let mut walk = tree.walk(self.bytes);
        let mut before: &[u8] = &[];
        while let Some(visit) = walk.next().map_err(ContentFault::BadIndex)? {
            match visit {
                Visit::Enter(pointer) => claims.look_ahead(self.bytes, pointer),
                Visit::Pass(node) => before = self.check_entry(claims, entry_in(node), before)?,
            }
        }
        Ok(())
    }

    /// Claims the nodes of the index. This is before any entry is read.
    fn claim_index_nodes<A: Allocator>(
        &self,
        claims: &mut Claims<A>,
        tree: Tree,
    ) -> Result<(), ContentFault>
        ensures claimed { tree.root ≡ index_cell →
            tree.nodes ≡ count_at self.now.bytes.bytes.now index_cell →
            IsReady self.now.bytes.bytes.now self.now.types.now claims.old →
            OnOk result (ClaimsTree self.now.bytes.bytes.now claims.old claims.new) }
        ensures refused { tree.root ≡ index_cell →
            tree.nodes ≡ count_at self.now.bytes.bytes.now index_cell →
            IsReady self.now.bytes.bytes.now self.now.types.now claims.old →
            IfErr result (λ fault. Refutes fault
            (CanClaimTree self.now.bytes.bytes.now claims.old.unclaimed)) }
        ensures lacks { tree.root ≡ index_cell →
            tree.nodes ≡ count_at self.now.bytes.bytes.now index_cell →
            word self.now.bytes.bytes.now index_kind_word ≡ 1 →
            IsReady self.now.bytes.bytes.now self.now.types.now claims.old →
            IfErr result (LacksAt self.now.bytes.bytes.now self.now.types.now) }
    {
        let content = Content::index_node();
        let mut walk = tree.walk(self.bytes);
        while let Some(visit) = walk.next().map_err(ContentFault::BadIndex)? {
            if let Visit::Enter(pointer) = visit {
                self.claim_entries(claims, pointer, &content, 1)?;
                claims.look_ahead(self.bytes, pointer);
            }
        }
        Ok(())
    }

    /// Checks the entry at a position and claims its object. Returns the entry's name, which must be above the name
    /// before.
    fn check_entry<A: Allocator>(
        &self,
        claims: &mut Claims<A>,
        at: u32,
        before: &[u8],
    ) -> Result<&'a [u8], ContentFault>
        ensures claimed { (rest : List ℕ) →
            IsReady self.now.bytes.bytes.now self.now.types.now claims.old → IfOk result (λ name.
            AdvancesRoots self.now.bytes.bytes.now self.now.types.now claims.old claims.new
            (names_ahead (at ∷ rest) before.now) (names_ahead rest name.now)) }
        ensures refused { (rest : List ℕ) →
            IsReady self.now.bytes.bytes.now self.now.types.now claims.old →
            IfErr result (λ fault. Refutes fault
            (CanResolveRoots self.now.bytes.bytes.now self.now.types.now claims.old
            (names_ahead (at ∷ rest) before.now))) }
        ensures lacks { IsReady self.now.bytes.bytes.now self.now.types.now claims.old →
            (index : Index) (rest : List ℕ) →
            OpensIndex self.now.bytes.bytes.now
            (word self.now.bytes.bytes.now index_kind_word) index →
            AreEntriesBefore self.now.bytes.bytes.now self.now.types.now
            index.entries (at ∷ rest) before.now →
            IfErr result (LacksAt self.now.bytes.bytes.now self.now.types.now) }
    {
        let entry = NameEntry::read_in(self.bytes, at as usize);
        let len = entry.name_len;
        if entry.count == 0 || len == 0 || len > MAX_NAME || entry.zero != 0 {
            return Err(ContentFault::BadIndex(at));
        }
        self.claim_named(claims, at, &entry)?;
        let name = entry.name_in(self.bytes, self.types);
        if is_before(before, name) && is_printable(name) {
            Ok(name)
        } else {
            Err(ContentFault::BadIndex(at))
        }
    }

    /// Claims the object of the entry at a position. Its block must have room for its values and its name.
    fn claim_named<A: Allocator>(
        &self,
        claims: &mut Claims<A>,
        at: u32,
        entry: &NameEntry,
    ) -> Result<(), ContentFault>
        ensures claimed { IsReady self.now.bytes.bytes.now self.now.types.now claims.old →
            entry.now.object ≡ target self.now.bytes.bytes.now at →
            OnOk result (ClaimsNamed self.now.bytes.bytes.now self.now.types.now claims.old claims.new
            at entry.now.count entry.now.name_len) }
        ensures refused { IsReady self.now.bytes.bytes.now self.now.types.now claims.old →
            entry.now.object ≡ target self.now.bytes.bytes.now at →
            IfErr result (λ fault. Refutes fault (CanClaimNamed self.now.bytes.bytes.now
            self.now.types.now claims.old at entry.now.count entry.now.name_len)) }
        ensures lacks { IsReady self.now.bytes.bytes.now self.now.types.now claims.old →
            entry.now.object ≡ target self.now.bytes.bytes.now at →
            entry.now.count ≡ half self.now.bytes.bytes.now (at + 4) →
            entry.now.name_len ≡ byte self.now.bytes.bytes.now (at + 6) →
            IsEntryAt self.now.bytes.bytes.now at →
            IfErr result (LacksAt self.now.bytes.bytes.now self.now.types.now) }
    {
        let Some(type_id) = entry.type_in(self.bytes) else {
            return Err(ContentFault::BadPointer(at));
        };
        let size = entry.values_len(self.types.size(type_id)) as u64 + u64::from(entry.name_len);
        let start = claims.claim(self.bytes, at, named_tag(type_id), size)?;
        let count = u32::from(entry.count);
        self.await_values(claims, type_id, Turn { start, count })
    }

    /// Puts a claimed object in the queue if its values may have pointers.
    #[inline]
    fn await_values<A: Allocator>(
        &self,
        claims: &mut Claims<A>,
        type_id: TypeId,
        turn: Turn,
    ) -> Result<(), ContentFault>
        ensures waits { OnOk result (claims.new ≡ record claims.old {
          turns =
              claims.old.turns ++ awaiting claims.old.naming.below
              (turns_where (has_cells (form_at self.now.types.now type_id)) turn.start turn.count);
        }) }
        ensures refused { IfErr result (λ fault. fault ≡ ContentFault.Memory) }
    {
        if self.types.has_pointers(type_id) {
            claims.await_turn(turn)
        } else {
            Ok(())
        }
    }
}

/// The position of the entry in a node of the index, after the tree words.
fn entry_in(node: NodeAt) -> u32
    ensures { node + index_node_size ≤ 2 ^ 32 → result ≡ node + tree_words }
{
    node.wrapping_add(Content::index_node().entry.size - ENTRY)
}

fn is_before(name: &[u8], other: &[u8]) -> bool
    ensures { IsTrue result ↔ Precedes name.now other.now }
{
    name.cmp(other).is_lt()
}

/// Whether all bytes of a name are printable, and none is a space.
fn is_printable(name: &[u8]) -> bool
    ensures { IsTrue result ↔ All (λ b. (33 ≤ b) × (b ≤ 126)) name.now }
{
    name.iter().all(|byte| byte.is_ascii_graphic())
}
