ghost use Rattle.std.specs.Prelude.{◌≡◌, Some, None, true, false, is_some};

use crate::kept::Kept;
use client_vm::Ready;
use std::alloc::Global;
use std::mem::replace;

/// A client that C keeps, and whether there is one.
#[repr(C)]
pub struct Prepared {
    kept: Kept,
    is_there: bool,
    ghost told: { is_some kept.value ≡ is_there },
}

impl Prepared {
    /// Whether there is a client.
    pub(crate) fn is_there(&self) -> bool
        ensures { result ≡ is_some self.now.kept.value }
    {
        self.is_there
    }

    /// Takes the client out.
    pub(crate) fn take(&mut self, alloc: Global) -> Box<Ready<'static, Global>>
        requires { is_some self.old.kept.value ≡ true }
        ensures client { self.old.kept.value ≡ Some result.value }
        ensures none { self.new.kept.value ≡ None }
    {
        let Prepared { kept, is_there: _ } = replace(self, none());
        kept.into_box(alloc)
    }

    /// Keeps a client. A client that was kept before is freed.
    pub(crate) fn keep(&mut self, alloc: Global, client: Box<Ready<'static, Global>>)
        ensures { self.new.kept.value ≡ Some client.entry.value }
    {
        let made = Prepared {
            kept: Kept::of(client),
            is_there: true,
        };
        close(alloc, replace(self, made));
    }

    /// Frees the client, if there is one.
    pub(crate) fn close(&mut self, alloc: Global)
        ensures { self.new.kept.value ≡ None }
    {
        close(alloc, replace(self, none()));
    }
}

fn none() -> Prepared
    ensures { result.kept.value ≡ None }
{
    Prepared {
        kept: Kept::none(),
        is_there: false,
    }
}

fn close(alloc: Global, prepared: Prepared) {
    let Prepared { kept, is_there } = prepared;
    if is_there {
        drop(kept.into_box(alloc));
    } else {
        kept.let_go();
    }
}
