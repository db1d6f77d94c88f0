ghost use Rattle.std.specs.Prelude.{◌≡◌, ℕ, false, Err, Some, IfErr, IfOk, OnOk};
ghost use Rattle.seg_spec.specs.Bytes.{slice, word};
ghost use Rattle.seg_spec.specs.Faulty.{HasFront};
ghost use Rattle.seg_spec.specs.Header.{version_word, types_start, types_size};
ghost use Rattle.seg_spec.specs.Sound.{HasHeader};
ghost use Rattle.seg_spec.specs.Types.{Form, form_at};
ghost use Rattle.seg_layout.specs.Forms.{form_of, map_option};
ghost use Rattle.seg_layout.specs.Reading.{IsReading};
ghost use Rattle.seg_raw.specs.declared.fault.Fault.TheVariants.{Memory};
ghost use Rattle.seg_check.specs.Faults.{IsImageOf, IsFaultOf, IsFrontRight};
ghost use Rattle.seg_check.specs.Owners.{IsOwnerFaultOf};
ghost use Rattle.seg_check.specs.Positions.{IsFaultAt};
ghost use Rattle.seg_check.specs.Stations.{KnowsNothing, KnowsHeap, FindsHeap, FindsOwners};

use crate::claims::Claims;
use crate::fault::ContentFault;
use crate::header::check_header;
use crate::image::TypedImage;
use seg_layout::{ENTRY, MAX_TYPES, Type, TypeId, TypeTable};
use seg_ptr::{View, header};
use seg_raw::Fault;
use std::alloc::{AllocError, Allocator};

/// Checks that a segment's bytes are a sound image, and returns its types. Otherwise it returns the first fault in this
/// order: the header, the types, the blocks, the free blocks, the names, the unique objects, the values, the counts of
/// frozen objects, blocks without an owner.
///
/// It allocates all its memory before it reads the heap: eight bytes and three bits for each unit of the heap, and four
/// bytes more if a type shares objects.
pub fn check<A: Allocator>(alloc: A, view: View) -> Result<TypeTable, Fault>
    ensures image { IfOk result (IsImageOf view.entry.bytes.now) }
    ensures fault { IfErr result (IsFaultOf view.entry.bytes.now) }
    ensures owner { IfErr result (IsOwnerFaultOf view.entry.bytes.now) }
    ensures position { IfErr result (IsFaultAt view.entry.bytes.now) }
    ensures memory { result ≡ Err Memory → IsFrontRight view.entry.bytes.now }
{
    check_header(view)?;
    let types = read_types(view)?;
    check_heap(&alloc, view, &types)?;
    Ok(types)
}

/// The types in an image's type table. Shared types are allowed only if the image's version may have frozen objects.
pub fn read_types(view: View) -> Result<TypeTable, Fault>
    ensures { HasHeader view.entry.bytes.now →
        IsReading (word view.entry.bytes.now version_word)
        (slice view.entry.bytes.now types_start types_size) result }
{
    let bytes = view.slice(header::TYPES, ENTRY * MAX_TYPES);
    if header::shares(view) {
        TypeTable::read_shared(bytes)
    } else {
        TypeTable::read(bytes)
    }
}

/// Whether the table has a shared type.
fn shares(types: &TypeTable) -> bool
    ensures { result ≡ false → (T U : ℕ) →
        form_at types.now T ≡ Some (Form.shared U) → ⊥ }
{
    for t in 0..types.len() {
        if is_shared(types.kind(t as TypeId)) {
            return true;
        }
    }
    false
}

fn is_shared(kind: Option<Type>) -> bool
    ensures { result ≡ false → (U : ℕ) →
        map_option form_of kind ≡ Some (Form.shared U) → ⊥ }
{
    matches!(kind, Some(Type::Shared(_)))
}

fn check_heap<A: Allocator + Copy>(alloc: A, bytes: View, types: &TypeTable) -> Result<(), Fault>
    ensures image { HasFront bytes.entry.bytes.now types.now →
        OnOk result (IsImageOf bytes.entry.bytes.now types.now) }
    ensures fault { HasFront bytes.entry.bytes.now types.now →
        IfErr result (IsFaultOf bytes.entry.bytes.now) }
    ensures owner { HasFront bytes.entry.bytes.now types.now →
        IfErr result (IsOwnerFaultOf bytes.entry.bytes.now) }
    ensures position { HasFront bytes.entry.bytes.now types.now →
        IfErr result (IsFaultAt bytes.entry.bytes.now) }
{
    let mut claims = no_claims(alloc, bytes, types)?;
    let image = TypedImage { bytes, types };
    image.check_structure(&mut claims)?;
    image.check_content(&mut claims)?;
    match claims.first_unowned() {
        Some(block) => Err(Fault::Unowned(block)),
        None => Ok(()),
    }
}

/// The claims of an image whose blocks aren't known yet.
fn no_claims<A: Allocator + Copy>(
    alloc: A,
    bytes: View,
    types: &TypeTable,
) -> Result<Claims<A>, AllocError>
    ensures { HasFront bytes.entry.bytes.now types.now →
        IfOk result (KnowsNothing bytes.entry.bytes.now types.now) }
{
    Claims::new(alloc, bytes, shares(types))
}

impl TypedImage<'_> {
    /// Checks the blocks of the heap, and the free structure.
    fn check_structure<A: Allocator>(&self, claims: &mut Claims<A>) -> Result<(), Fault>
        ensures { HasFront self.now.bytes.bytes.now self.now.types.now →
            KnowsNothing self.now.bytes.bytes.now self.now.types.now claims.old →
            FindsHeap self.now.bytes.bytes.now self.now.types.now claims.new result }
    {
        let free_list = self.check_tiles(claims).map_err(Fault::BadBlock)?;
        self.check_free(claims, free_list).map_err(Fault::BadFree)
    }

    /// Checks what owns the blocks: the names, the unique objects, the values, and the counts of frozen objects.
    fn check_content<A: Allocator>(&self, claims: &mut Claims<A>) -> Result<(), ContentFault>
        ensures { KnowsHeap self.now.bytes.bytes.now self.now.types.now claims.old →
            FindsOwners self.now.bytes.bytes.now self.now.types.now claims.new result }
    {
        self.check_index(claims)?;
        self.check_uniques(claims)?;
        self.check_values(claims)?;
        claims.check_counts(self.bytes, self.bytes.get32(header::NEXT_NUMBER))
    }
}
