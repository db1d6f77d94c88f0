//! Worked examples: the requests of calls on small heaps.

ghost use Rattle.std.specs.Prelude.{◌≡◌, [], ◌∷◌, codes, Some, None};
ghost use Rattle.seg_spec.specs.Types.{Form};
ghost use Rattle.seg_spec.specs.Demand.{units_for, growth, after_asks, NoRoom};
ghost use Rattle.seg_spec.specs.Fixtures.{counter, greeting, empty};
ghost use Rattle.seg_spec.specs.Spending.{buffer_asks, entry_asks, object_asks, replaced, cut_to};

/// In an empty heap, a number named x requests 2 units, and its index 3 units, or at least 2. A second number needs no larger
/// index. A tree index requests a node of 3 units for each name.
#[tactic(auto, unfolding(seg_spec::specs::Fixtures::counter, seg_spec::specs::Fixtures::empty, seg_spec::specs::Bytes::slice, seg_spec::specs::Bytes::number, seg_spec::specs::Bytes::number_of, seg_spec::specs::Pointer::target, seg_spec::specs::Types::size))]
pub fn named_objects()
    ensures first { object_asks empty (Form.i64 ∷ []) 0 1 (codes "x") ≡
        units_for 2 ∷ record { old = None; preferred = 3; limit = 2 } ∷ [] }
    ensures second { object_asks counter (Form.i64 ∷ []) 0 1 (codes "y") ≡ units_for 2 ∷ [] }
    ensures tree { entry_asks 1 empty ≡ units_for 3 ∷ [] }
{}

/// Such a number fits in an empty heap that ends at 784. In one that ends at 768 the index gets 2 units. If the heap ends at 752
/// or 736, the number takes all of it, and there is no room for the index.
pub fn room_for_a_named_object()
    ensures at_784 { after_asks 0 [] 784
        (units_for 2 ∷ record { old = None; preferred = 3; limit = 2 } ∷ []) ≡
        Some (record { at = 704; units = 2 } ∷ record { at = 736; units = 3 } ∷ []) }
    ensures at_768 { after_asks 0 [] 768
        (units_for 2 ∷ record { old = None; preferred = 3; limit = 2 } ∷ []) ≡
        Some (record { at = 704; units = 2 } ∷ record { at = 736; units = 2 } ∷ []) }
    ensures at_752 { NoRoom 0 [] 752
        (units_for 2 ∷ record { old = None; preferred = 3; limit = 2 } ∷ []) }
    ensures at_736 { NoRoom 0 [] 736
        (units_for 2 ∷ record { old = None; preferred = 3; limit = 2 } ∷ []) }
{}

/// A text of 2 bytes in a buffer of 16 bytes grows to 16 bytes without a request, and to 17 bytes by a request for 3 units.
#[tactic(auto, unfolding(seg_spec::specs::Fixtures::greeting, seg_spec::specs::Bytes::slice, seg_spec::specs::Bytes::number, seg_spec::specs::Bytes::number_of, seg_spec::specs::Pointer::target))]
pub fn texts()
    ensures fits { buffer_asks greeting 720 1 16 ≡ [] }
    ensures grows { buffer_asks greeting 720 1 17 ≡
        record { old = Some 784; preferred = 3; limit = 3 } ∷ [] }
{}

/// A buffer of 2 units that can't grow in place gets a new block, and the old block is freed. An empty buffer that is cut is
/// freed.
pub fn old_buffers()
    ensures moved { replaced 0
        (record { at = 704; units = 2 } ∷ record { at = 736; units = 2 } ∷ []) 864
        (growth (Some 704) 8 2 3 ∷ []) ≡ 704 ∷ [] }
    ensures stays { replaced 0 (record { at = 704; units = 2 } ∷ []) 864
        (growth (Some 704) 8 2 3 ∷ []) ≡ [] }
    ensures cut { cut_to (record { at = 704; units = 5 } ∷ []) 864 (Some 720) 5 16 ≡
        record { at = 704; units = 2 } ∷ [] }
    ensures given_up { cut_to (record { at = 704; units = 5 } ∷ []) 864 (Some 720) 5 0 ≡ [] }
    ensures none { cut_to (record { at = 704; units = 5 } ∷ []) 864 None 0 0 ≡
        record { at = 704; units = 5 } ∷ [] }
{}
