ghost use Rattle.std.specs.Prelude.{◌≡◌, ℕ, ◌<◌, ◌≤◌, ◌==◌, ◌↔◌, ◌%◌, ◌*◌, [], length, slice_get, IsOk, IfOk, IfErr, IfSome};
ghost use Rattle.seg_spec.specs.Types.{Table, Agree, IsFirstDifference, longer, fields_of, IsTable, form_at, entry_at, AreOfVersion, size, Spells, IsWrongEntry, IsFirstWrong};
ghost use Rattle.seg_layout.specs.Forms.{cell_of, form_of, map_option, has_cells};
ghost use Rattle.seg_layout.specs.Reading.{IsReading};

use crate::entry::{Entries, Entry, MAX_TYPES, Slot};
use crate::kind::{Cell, ENTRY, Type, TypeId};
use arrayvec::ArrayVec;
use seg_raw::Fault;
use std::marker::Model;

/// The types of a segment, at most 32. It allocates no memory.
#[derive(Drop)]
pub struct TypeTable {
    entries: Entries,
}

impl Model for TypeTable {
    ghost use Rattle.std.specs.Prelude.{List};
    ghost use Rattle.seg_spec.specs.Types.{Form};
    ghost use Rattle.seg_layout.specs.Entries.{forms, AreTypeEntries};

    ghost Value = { List Form };

    ghost view = { λ table. forms table.entries.items };

    ghost invariant = { λ table. AreTypeEntries table.entries.items };
}

impl TypeTable {
    /// A table with no types.
    pub fn new() -> TypeTable
        ensures { result ≡ [] }
    {
        TypeTable {
            entries: ArrayVec::new(),
        }
    }

    /// Reads a table of entries of 16 bytes, with the unused ones (all zero) last. `BadType` with the index of the
    /// first wrong entry: an incomplete one, a 33rd, or a type that images of version 1 don't have are wrong too.
    pub fn read(bytes: &[u8]) -> Result<TypeTable, Fault>
        ensures { IsReading 1 bytes.now result }
    {
        TypeTable::read_version(bytes, 1)
    }

    /// Reads a table as `read` does, but also allows the types of images of version 2.
    pub fn read_shared(bytes: &[u8]) -> Result<TypeTable, Fault>
        ensures { IsReading 2 bytes.now result }
    {
        TypeTable::read_version(bytes, 2)
    }

    /// Reads a table as `read` does, with the types that images of this version may have.
    fn read_version(bytes: &[u8], version: u32) -> Result<TypeTable, Fault>
        ensures right { IsOk result ↔ ((k : ℕ) → IsWrongEntry version bytes.now k → ⊥) }
        ensures table { IfOk result (λ table.
            IsTable table × AreOfVersion version table × Spells bytes.now table) }
        ensures wrong { IfErr result (λ fault.
            (k : ℕ) × (fault ≡ Fault.BadType k) × IsFirstWrong version bytes.now k) }
        ensures given { (table : Table) → IsTable table → AreOfVersion version table →
            Spells bytes.now table → length bytes.now % ENTRY ≡ 0 →
            length bytes.now ≤ ENTRY * MAX_TYPES → result ≡ Ok table }
    {
        let mut entries = ArrayVec::new();
        for index in 0..bytes.len().div_ceil(ENTRY) {
            match Slot::read(bytes, index, &entries, version) {
                Slot::Used(entry) => entries.push(entry),
                Slot::Unused => {}
                Slot::Wrong => return Err(Fault::BadType(index as u32)),
            }
        }
        Ok(TypeTable { entries })
    }

    pub fn len(&self) -> usize
        ensures len { result ≡ length self.now }
        ensures few { result ≤ MAX_TYPES }
    {
        self.entries.len()
    }

    pub fn is_empty(&self) -> bool
        ensures { result ≡ (length self.now == 0) }
    {
        self.entries.is_empty()
    }

    /// The type with this id, if the table has it.
    pub fn kind(&self, t: TypeId) -> Option<Type>
        ensures { form_at self.now t ≡ map_option form_of result }
    {
        let entry = self.entries.get(t as usize)?;
        Some(entry.kind)
    }

    /// Whether values of this type may have pointers: true for all types but `i64`, false if the table lacks the type.
    pub fn has_pointers(&self, t: TypeId) -> bool
        ensures cells { has_cells (form_at self.now t) ≡ result }
        ensures table { IsTable self.now }
    {
        // This opens the invariant: the table is valid.
        let _ = &self.entries;
        match self.kind(t) {
            None | Some(Type::I64) => false,
            Some(_) => true,
        }
    }

    /// The size of a value of this type in bytes, or 8 if the table lacks the type.
    pub fn size(&self, t: TypeId) -> u32
        ensures value { result ≡ size self.now t }
        ensures some { 8 ≤ result }
        ensures small { result ≤ 4096 }
        ensures table { IsTable self.now }
    {
        Entry::size_at(&self.entries, t)
    }

    /// The number of fields of this type, or 0 if it isn't a struct.
    pub fn field_count(&self, t: TypeId) -> u32
        ensures count { result ≡ length (fields_of self.now t) }
        ensures few { result ≤ 8 }
        ensures table { IsTable self.now }
    {
        // This opens the invariant: the table is valid.
        let _ = &self.entries;
        let Some(kind) = self.kind(t) else {
            return 0;
        };
        let Type::Struct(fields) = kind else {
            return 0;
        };
        fields.len() as u32
    }

    /// The field with this index, if this type is a struct that has one. The field's type comes before it in the table.
    pub fn field(&self, t: TypeId, index: u32) -> Option<Cell>
        ensures field { slice_get (fields_of self.now t) index ≡ map_option cell_of result }
        ensures before { IfSome result (λ cell. cell.type_id < t) }
    {
        let entry = self.entries.get(t as usize)?;
        let Type::Struct(fields) = &entry.kind else {
            return None;
        };
        let place = index as usize;
        let type_id = fields.get(place)?;
        let from = u32::from(entry.starts[place]);
        Some(Cell { from, type_id })
    }

    /// The bytes of this type's entry, all zero if the table lacks the type.
    pub fn entry(&self, t: TypeId) -> [u8; 16]
        ensures { result ≡ entry_at self.now t }
    {
        match self.kind(t) {
            Some(kind) => kind.entry(),
            None => [0; ENTRY],
        }
    }

    /// The longer of two tables if they agree on the types that both have, else `TypeMismatch` with the first id that
    /// differs.
    pub fn extends(&self, other: &TypeTable) -> Result<TypeTable, Fault>
        ensures agree { IsOk result ↔ Agree self.now other.now }
        ensures longer { IfOk result (λ table. table ≡ longer self.now other.now) }
        ensures differs { IfErr result (λ fault.
            (k : ℕ) × (fault ≡ Fault.TypeMismatch k) × IsFirstDifference self.now other.now k) }
        ensures table { IsTable self.now }
        ensures other { IsTable other.now }
    {
        self.agrees(other)?;
        if self.len() < other.len() {
            Ok(other.copy())
        } else {
            Ok(self.copy())
        }
    }

    /// Checks that two tables agree on the types that both have. `TypeMismatch` has the first id that differs.
    pub fn agrees(&self, other: &TypeTable) -> Result<(), Fault>
        ensures agree { IsOk result ↔ Agree self.now other.now }
        ensures differs { IfErr result (λ fault.
            (k : ℕ) × (fault ≡ Fault.TypeMismatch k) × IsFirstDifference self.now other.now k) }
        ensures table { IsTable self.now }
        ensures other { IsTable other.now }
    {
        let (mine, theirs) = (self.entries.as_slice(), other.entries.as_slice());
        for index in 0..mine.len().min(theirs.len()) {
            if mine[index].kind.entry() != theirs[index].kind.entry() {
                return Err(Fault::TypeMismatch(index as u32));
            }
        }
        Ok(())
    }

    /// A copy of the table.
    pub fn copy(&self) -> TypeTable
        ensures { result ≡ self.now }
    {
        let mut entries = ArrayVec::new();
        for entry in self.entries.as_slice() {
            entries.push(*entry);
        }
        TypeTable { entries }
    }
}
