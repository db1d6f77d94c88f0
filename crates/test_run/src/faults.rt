//! What the faults of images mean.

ghost use Rattle.std.specs.Prelude.{◌≡◌, ℕ, List, [], ◌∷◌};
ghost use Rattle.seg_spec.specs.Types.{Form, Table};
ghost use Rattle.seg_spec.specs.Images.{IsSound};
ghost use Rattle.seg_spec.specs.Fixtures.{counter, other_magic, odd_type, linked, lost_gap, two_owners, no_owner};
ghost use Rattle.seg_check.specs.Faults.{IsImageOf, IsFaultOf, IsFaultOfOpening};
ghost use Rattle.seg_check.specs.Positions.{IsFaultAt};
ghost use Rattle.test_run.specs.WrongImages.{uncounted, pointless, overfull};

use seg_raw::Fault;

/// A sound image has one type table, and only one possible fault: that the host is out of memory.
pub fn sound_images()
    ensures sound { (bytes : List ℕ) (table : Table) → IsImageOf bytes table → IsSound bytes }
    ensures table { (bytes : List ℕ) (table other : Table) →
        IsImageOf bytes table → IsImageOf bytes other → table ≡ other }
    ensures no_fault { (bytes : List ℕ) (fault : Fault) →
        IsSound bytes → IsFaultOf bytes fault → fault ≡ Fault.Memory }
{}

/// Images with one fault each, and one without a fault.
pub fn small_images()
    ensures magic { IsFaultOf other_magic Fault.BadHeader }
    ensures no_type { IsFaultOf other_magic (Fault.BadType 0) → ⊥ }
    ensures odd_type { IsFaultOf odd_type (Fault.BadType 0) }
    ensures block { IsFaultOf linked (Fault.BadBlock 704) }
    ensures not_free { IsFaultOf linked (Fault.BadFree 24) → ⊥ }
    ensures free { IsFaultOf lost_gap (Fault.BadFree 24) }
    ensures not_block { IsFaultOf lost_gap (Fault.BadBlock 704) → ⊥ }
    ensures owners { IsFaultOf two_owners (Fault.DoubleOwner 704) }
    ensures unowned { IsFaultOf no_owner (Fault.Unowned 704) }
    ensures none { (fault : Fault) → IsFaultOf counter fault → fault ≡ Fault.Memory }
    ensures memory { IsFaultOf counter Fault.Memory }
    ensures image { IsImageOf counter (Form.i64 ∷ []) }
    ensures no_image { (table : Table) → IsImageOf no_owner table → ⊥ }
    ensures other_allocator { IsFaultOfOpening 1 counter Fault.BadHeader }
    ensures its_allocator { IsFaultOfOpening 0 counter Fault.BadHeader → ⊥ }
{}

/// What the faults of the content state about their positions: an entry, a pointer, a block and a value.
pub fn positions()
    ensures index { IsFaultAt uncounted (Fault.BadIndex 752) }
    ensures not_pointer { IsFaultAt uncounted (Fault.BadPointer 752) → ⊥ }
    ensures pointer { IsFaultAt pointless (Fault.BadPointer 752) }
    ensures owner { IsFaultAt two_owners (Fault.DoubleOwner 704) }
    ensures value { IsFaultAt overfull (Fault.BadValue 720) }
{}
