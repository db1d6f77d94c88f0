ghost use Rattle.std.specs.Prelude.{◌≡◌, Some, None, MatchOption, is_some, nat_eq};
ghost use Rattle.lezgauri_c.specs.KeptImages.{table_kept, table_of};

use crate::kept_image::KeptImage;
use crate::types_box::TypesBox;
use std::alloc::Global;
use std::mem::replace;

/// The types of a segment that C keeps, in an image without bytes, and how many images there are: 1 or 0.
// The number has as many bits as the pointer, since a `bool` would be written with its padding.
#[repr(C)]
pub struct KeptTypes {
    kept: TypesBox,
    count: u64,
    ghost told: { is_some kept.image ≡ nat_eq count 1 },
}

impl KeptTypes {
    /// Takes the types out, if there are any.
    pub(crate) fn take(&mut self, alloc: Global) -> Option<Box<KeptImage>>
        ensures types { MatchOption result (table_of self.old.kept.image ≡ None)
            (λ types. table_of self.old.kept.image ≡ Some (table_kept types.value)) }
        ensures none { table_of self.new.kept.image ≡ None }
    {
        let KeptTypes { kept, count } = replace(self, none());
        if count == 1 {
            Some(kept.into_box(alloc))
        } else {
            kept.let_go();
            None
        }
    }

    /// Keeps types. Types that were kept before are freed.
    pub(crate) fn keep(&mut self, alloc: Global, types: Box<KeptImage>)
        ensures { table_of self.new.kept.image ≡ Some (table_kept types.value) }
    {
        let made = KeptTypes {
            kept: TypesBox::of(types),
            count: 1,
        };
        close(alloc, replace(self, made));
    }

    /// Frees the types, if there are any.
    pub(crate) fn close(&mut self, alloc: Global)
        ensures { table_of self.new.kept.image ≡ None }
    {
        close(alloc, replace(self, none()));
    }
}

fn close(alloc: Global, types: KeptTypes) {
    let KeptTypes { kept, count } = types;
    if count == 1 {
        drop(kept.into_box(alloc));
    } else {
        kept.let_go();
    }
}

fn none() -> KeptTypes
    ensures { table_of result.kept.image ≡ None }
{
    KeptTypes {
        kept: TypesBox::none(),
        count: 0,
    }
}
