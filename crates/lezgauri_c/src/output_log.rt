ghost use Rattle.std.specs.Prelude.{◌≡◌, ℕ, List, [], ◌++◌};
ghost use Rattle.std.specs.Borrow.{ftrue};

use std::marker::Model;

/// Bytes that only proofs read. It takes no memory, and its methods do nothing at run time.
#[derive(Drop)]
pub struct Log {
    pub ghost bytes: { List ℕ },
}

impl Model for Log {
    ghost also_owns = { λ _. ftrue };
}

impl Log {
    /// No bytes.
    pub fn none() -> Log
        ensures { result.bytes ≡ [] }
    {
        Log {}
    }

    /// The bytes of a log, followed by more.
    pub fn then(_before: &Log, _bytes: &[u8]) -> Log
        ensures { result.bytes ≡ _before.now.bytes ++ _bytes.now }
    {
        Log {}
    }
}
