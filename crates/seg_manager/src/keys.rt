//! The keys of a map, in order.

ghost use Rattle.std.specs.Prelude.{◌≡◌, true, false, Err, IsOkUnless};
ghost use Rattle.std.specs.Result.{result_ok};
ghost use Rattle.seg_spec.specs.Types.{form_at};
ghost use Rattle.seg_cells.specs.Places.{place_of};
ghost use Rattle.seg_map.specs.EitherMap.{has_keys, WhereMaps};
ghost use Rattle.seg_map.specs.Maps.{first_of, keys_above};

use crate::segment::Segment;
use seg_map::{first_key_by, next_key_by};
use seg_raw::Code;
use seg_value::{Fit, Place};
use std::alloc::Allocator;

impl<F: Fit, A: Allocator> Segment<F, A> {
    /// The least key of a map. `OtherType` if the place isn't a map, `Null` if the map is empty.
    pub fn first_key(&mut self, map: Place) -> Result<i64, Code>
        ensures stays { self.new ≡ self.old }
        ensures other { has_keys (form_at self.old.types map.type_id) ≡ false →
            result ≡ Err Code.OtherType }
        ensures code { has_keys (form_at self.old.types map.type_id) ≡ true →
            IsOkUnless result Code.Null }
        ensures first { WhereMaps F.allocator self.old.window.bytes self.old.types (place_of map)
            (λ U keys vs blocks. result_ok result ≡ first_of keys) }
    {
        self.cursor.keep();
        first_key_by(&self.heap, &mut self.cursor.key, map)
    }

    /// The least key above another, which need not exist. `OtherType` if the place isn't a map, `Null` if no key is
    /// above it. The key after the one returned last is found in one step, unless the segment was changed in between.
    pub fn next_key(&mut self, map: Place, after: i64) -> Result<i64, Code>
        ensures stays { self.new ≡ self.old }
        ensures other { has_keys (form_at self.old.types map.type_id) ≡ false →
            result ≡ Err Code.OtherType }
        ensures code { has_keys (form_at self.old.types map.type_id) ≡ true →
            IsOkUnless result Code.Null }
        ensures next { WhereMaps F.allocator self.old.window.bytes self.old.types (place_of map)
            (λ U keys vs blocks. result_ok result ≡ first_of (keys_above keys after)) }
    {
        self.cursor.keep();
        next_key_by(&self.heap, &mut self.cursor.key, map, after)
    }
}
