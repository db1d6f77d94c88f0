ghost use Rattle.std.specs.Prelude.{◌≡◌, Option, Some, None, true, is_some};
ghost use Rattle.std.specs.Global.{Global};
ghost use Rattle.client_vm.specs.declared.ready.Ready.{Ready};

use crate::box_parts::BoxParts;
use client_vm::Ready;
use std::alloc::Global;
use std::marker::Model;
use std::ptr::null_mut;

/// The pointer to a prepared client that C keeps, or no pointer.
///
/// It isn't `Drop`, so the compiler refuses code that loses the client.
#[repr(C)]
pub struct Kept {
    at: *mut u8,
    pub ghost value: { Option (Ready Global) },
}

impl Model for Kept {
    ghost use Rattle.lezgauri_c.specs.Kept.{kept_row, may_own};

    ghost also_owns = { λ kept. may_own kept_row kept.at kept.value };
}

unsafe impl Send for Kept {}

impl Kept {
    pub(crate) fn none() -> Kept
        ensures { result.value ≡ None }
    {
        Kept { at: null_mut() }
    }

    /// Drops a `Kept` without a client.
    pub(crate) fn let_go(self)
        requires { self.value ≡ None }
    {
        let Kept { at: _ } = self;
    }

    pub(crate) fn of(client: Box<Ready<'static, Global>>) -> Kept
        ensures { result.value ≡ Some client.entry.value }
    {
        Kept::of_parts(BoxParts::of(client))
    }

    pub(crate) fn into_box(self, alloc: Global) -> Box<Ready<'static, Global>>
        requires { is_some self.value ≡ true }
        ensures { self.value ≡ Some result.value }
    {
        self.into_parts(alloc).into_box()
    }

    fn of_parts(parts: BoxParts<Ready<'static, Global>, Global>) -> Kept
        ensures { result.value ≡ Some parts.entry.value }
    {
        let BoxParts { at, alloc: _ } = parts;
        Kept { at: at as *mut u8 }
    }

    fn into_parts(self, alloc: Global) -> BoxParts<Ready<'static, Global>, Global>
        requires { is_some self.value ≡ true }
        ensures { self.value ≡ Some result.value }
    {
        let Kept { at } = self;
        BoxParts {
            at: at as *mut Ready<'static, Global>,
            alloc,
        }
    }
}
