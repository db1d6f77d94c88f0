ghost use Rattle.std.specs.Prelude.{◌≡◌, [], ◌∷◌, List, Option, None, IfOk, OnOk, OnErr};
ghost use Rattle.cli_host.specs.Accesses.{Access, AddsAccesses, access};

use crate::problem::FileProblem;
use std::alloc::Global;

/// Why a call on files failed.
#[derive(Clone, Copy)]
pub enum FileFault {
    /// The program is out of memory.
    Memory,
    /// The file can't be read or written.
    Failed(FileProblem),
}

/// Access to files by name.
pub trait Files {
    // What `read` returned so far, if this keeps it.
    ghost was_read: { Self → Option (List Access) } = { λ _. None };

    // What `write` wrote so far, if this keeps it.
    ghost was_written: { Self → Option (List Access) } = { λ _. None };

    /// The bytes of a file. Fails if it has more than `limit`.
    fn read(&mut self, alloc: Global, name: &str, limit: u64) -> Result<Vec<u8>, FileFault>
        ensures read { IfOk result (λ bytes. AddsAccesses (was_read self.old) (was_read self.new)
            (access name.now bytes.items ∷ [])) }
        ensures nothing_read { OnErr result (was_read self.new ≡ was_read self.old) }
        ensures nothing_written { was_written self.new ≡ was_written self.old };

    /// Makes or replaces a file. A file that has these bytes already may stay as it is. If it fails, an existing file is unchanged,
    /// except that a disk that fails at the very end can leave all the new bytes.
    fn write(&mut self, name: &str, bytes: &[u8]) -> Result<(), FileFault>
        ensures written { OnOk result (AddsAccesses (was_written self.old) (was_written self.new)
            (access name.now bytes.now ∷ [])) }
        ensures nothing_written { OnErr result (was_written self.new ≡ was_written self.old) }
        ensures nothing_read { was_read self.new ≡ was_read self.old };

    /// Whether both names refer to one plain file, through links as well. Two hard links are one file.
    fn is_same(&mut self, name: &str, other: &str) -> Result<bool, FileFault>
        ensures nothing_read { was_read self.new ≡ was_read self.old }
        ensures nothing_written { was_written self.new ≡ was_written self.old };

    /// The first bytes of a plain file, at most `len`. Empty if there is no such file. Devices and pipes have none: writing to
    /// them loses nothing.
    fn front(&mut self, alloc: Global, name: &str, len: u64) -> Result<Vec<u8>, FileFault>
        ensures nothing_read { was_read self.new ≡ was_read self.old }
        ensures nothing_written { was_written self.new ≡ was_written self.old };
}
