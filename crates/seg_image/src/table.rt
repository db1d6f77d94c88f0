ghost use Rattle.std.specs.Prelude.{◌≡◌, ℕ, ◌<◌, ◌≤◌, ◌↔◌, length, map, Err, IsOk, IfOk, IfErr};
ghost use Rattle.seg_spec.specs.Types.{IsTable, IsFirstWrong};
ghost use Rattle.seg_layout.specs.Forms.{form_of};
ghost use Rattle.seg_image.specs.TypeLists.{entries_of};

use seg_layout::{ENTRY, MAX_TYPES, Type, TypeTable};
use seg_raw::Fault;

/// The table of these types; a type's id is its index. Fields of a struct must have lower ids; a container may have any
/// type of the table. `BadType` with the index of the first type that isn't allowed, or with 32 if there are more.
pub fn type_table(types: &[Type]) -> Result<TypeTable, Fault>
    ensures table { IfOk result (λ table. table ≡ map form_of types.now) }
    ensures accepts { IsOk result ↔ IsTable (map form_of types.now) }
    ensures wrong { length types.now ≤ MAX_TYPES → IfErr result (λ fault.
        (k : ℕ) × (fault ≡ Fault.BadType k) × IsFirstWrong 2 (entries_of types.now) k) }
    ensures many { MAX_TYPES < length types.now → result ≡ Err (Fault.BadType MAX_TYPES) }
{
    if types.len() > MAX_TYPES {
        return Err(Fault::BadType(MAX_TYPES as u32));
    }
    let mut entries = [0; ENTRY * MAX_TYPES];
    for (index, of) in types.iter().enumerate() {
        let from = index * ENTRY;
        entries[from..from + ENTRY].copy_from_slice(&of.entry());
    }
    TypeTable::read_shared(&entries)
}
