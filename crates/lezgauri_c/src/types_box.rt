ghost use Rattle.std.specs.Prelude.{◌≡◌, Option, Some, None, true, is_some};
ghost use Rattle.lezgauri_c.specs.declared.kept_image.KeptImage.{KeptImage};

use crate::box_parts::BoxParts;
use crate::kept_image::KeptImage;
use std::alloc::Global;
use std::marker::Model;
use std::ptr::null_mut;

/// The pointer to the types of a segment that C keeps, laid out in an image, or no pointer.
///
/// It isn't `Drop`, so the compiler refuses code that loses the types.
#[repr(C)]
pub struct TypesBox {
    at: *mut u8,
    pub ghost image: { Option KeptImage },
}

impl Model for TypesBox {
    ghost use Rattle.lezgauri_c.specs.Kept.{types_row, may_own};

    ghost also_owns = { λ types. may_own types_row types.at types.image };
}

unsafe impl Send for TypesBox {}

impl TypesBox {
    pub(crate) fn none() -> TypesBox
        ensures { result.image ≡ None }
    {
        TypesBox { at: null_mut() }
    }

    /// Drops a `TypesBox` without types.
    pub(crate) fn let_go(self)
        requires { self.image ≡ None }
    {
        let TypesBox { at: _ } = self;
    }

    pub(crate) fn of(types: Box<KeptImage>) -> TypesBox
        ensures { result.image ≡ Some types.value }
    {
        TypesBox::of_parts(BoxParts::of(types))
    }

    pub(crate) fn into_box(self, alloc: Global) -> Box<KeptImage>
        requires { is_some self.image ≡ true }
        ensures { self.image ≡ Some result.value }
    {
        self.into_parts(alloc).into_box()
    }

    fn of_parts(parts: BoxParts<KeptImage, Global>) -> TypesBox
        ensures { result.image ≡ Some parts.value }
    {
        let BoxParts { at, alloc: _ } = parts;
        TypesBox { at: at as *mut u8 }
    }

    fn into_parts(self, alloc: Global) -> BoxParts<KeptImage, Global>
        requires { is_some self.image ≡ true }
        ensures { self.image ≡ Some result.value }
    {
        let TypesBox { at } = self;
        BoxParts {
            at: at as *mut KeptImage,
            alloc,
        }
    }
}
