use crate::files::{FileFault, Files};
use crate::problem::FileProblem;
use crate::progress::Progress;
use cli_progress::{Watch, Work};
use std::alloc::Global;
use std::fs::{self, File, Metadata, OpenOptions, Permissions};
use std::io::{self, ErrorKind, Read, Take, Write};
use std::os::unix::fs::{MetadataExt, OpenOptionsExt, PermissionsExt, fchown};
use std::path::Path;
use std::rt::{self, Clock};

/// How many names are tried for the new file beside the one that it replaces.
const NAMES: u32 = 100;

/// The permissions to read, to write and to run, of the owner, the group and all others.
const ACCESS: u32 = 0o777;

/// The permissions of a new file that replaces none, before the system's mask is applied.
const ACCESS_OF_NEW: u32 = 0o666;

/// For the owner alone.
const ACCESS_OF_OWNER: u32 = 0o600;

/// How many bytes are read or written between two looks at the clock.
const PIECE: usize = 1 << 22;

/// How many bytes are compared at once: few enough to stay in the processor's cache.
const COMPARED: usize = 1 << 18;

/// The files of the host. Reading and writing them shows how far it is.
#[derive(Drop)]
pub struct HostFiles<'a, R> {
    rt: &'a R,
    progress: &'a Progress<'a, R>,
}

/// A new file beside the one that it will replace.
#[derive(Drop)]
struct Beside {
    name: String,
    file: File,
}

impl<'a, R: rt::Files<File = File> + AllocGlobal + Clock + Eprint> HostFiles<'a, R> {
    pub fn new(rt: &'a R, progress: &'a Progress<'a, R>) -> HostFiles<'a, R> {
        HostFiles { rt, progress }
    }

    fn read_at_most(&self, alloc: Global, name: &str, limit: u64) -> io::Result<Vec<u8>> {
        let file = fs::open(self.rt, name)?;
        let whole = file.metadata()?.len().min(limit);
        // one byte more than the file has, so that reading reaches its end in one request
        let mut bytes = Vec::with_capacity(alloc, whole.saturating_add(1) as usize)?;
        self.read_pieces(file.take(limit), whole, &mut bytes)?;
        Ok(bytes)
    }

    /// Reads a file to its end, in pieces.
    fn read_pieces(&self, mut file: Take<File>, whole: u64, bytes: &mut Vec<u8>) -> io::Result<()> {
        for _ in 0..=file.limit() / PIECE as u64 {
            let count = file.by_ref().take(PIECE as u64).read_to_end(bytes)?;
            if count < PIECE {
                break;
            }
            self.progress.show(Work::Reading, bytes.len() as u64, whole);
        }
        Ok(())
    }

    /// The metadata of the plain file with this name, through links. `None` if there is no plain file, or if permissions keep from
    /// it, since then it can't be written either.
    fn plain_file(&self, name: &str) -> Result<Option<Metadata>, FileFault> {
        match fs::metadata(self.rt, name) {
            Ok(there) if there.is_file() => Ok(Some(there)),
            Ok(_) => Ok(None),
            Err(error) => none_if_absent(unread(error)),
        }
    }

    /// Makes a file, or replaces the plain file with this name. Anything else but a link, for example a device or a pipe, is
    /// written to.
    fn write_file(&self, name: &str, bytes: &[u8]) -> io::Result<()> {
        match fs::symlink_metadata(self.rt, name) {
            Ok(there) if there.is_symlink() => self.write_through(name, bytes),
            Ok(there) if there.is_file() => self.replace(name, Some(&there), bytes),
            Ok(_) => fs::write(self.rt, name, bytes),
            Err(error) if error.kind() == ErrorKind::NotFound => self.replace(name, None, bytes),
            Err(error) => Err(error),
        }
    }

    /// Writes through a link, and all links that follow: a plain file is replaced in its own folder, and the links stay. A link
    /// to nothing or to itself is an error, because it is worse to make a file that nobody asked for.
    fn write_through(&self, link: &str, bytes: &[u8]) -> io::Result<()> {
        let there = fs::metadata(self.rt, link)?;
        if !there.is_file() {
            return fs::write(self.rt, link, bytes);
        }
        let target = fs::canonicalize(self.rt, link)?;
        self.replace(target.as_str(), Some(&there), bytes)
    }

    /// Writes a new file beside this name, and renames it to the name. So a reader sees either the old bytes or the new ones, and
    /// a failure changes nothing, except that a disk that fails at the very end can leave the new bytes with an error. The folder
    /// is opened first: if it can't be read, it can't be synced to the disk, and that is an error before anything is written.
    ///
    /// If the old file has another hard link, that keeps the old bytes. A file that has these bytes already stays as it is.
    fn replace(&self, name: &str, old: Option<&Metadata>, bytes: &[u8]) -> io::Result<()> {
        if old.is_some_and(|old| old.len() == bytes.len() as u64)
            && self.has_already(name, bytes).unwrap_or(false)
        {
            return Ok(());
        }
        let folder = fs::open(self.rt, folder_of(name))?;
        let Beside { name: beside, file } = self.make_beside(name, old)?;
        match self.place(file, beside.as_str(), name, old, bytes) {
            Ok(()) => sync_folder(&folder),
            Err(error) => {
                // report the first error, not this one's
                let _ = fs::remove_file(self.rt, beside.as_str());
                Err(error)
            }
        }
    }

    /// Whether a file begins with these bytes, on the disk too. It is read as far as the first difference.
    fn has_already(&self, name: &str, bytes: &[u8]) -> io::Result<bool> {
        let mut file = fs::open(self.rt, name)?;
        let mut there = Vec::with_capacity(self.rt.alloc(), bytes.len().min(COMPARED))?;
        for piece in bytes.chunks(COMPARED) {
            there.clear();
            Read::by_ref(&mut file)
                .take(piece.len() as u64)
                .read_to_end(&mut there)?;
            if there.as_slice() != piece {
                return Ok(false);
            }
        }
        file.sync_all()?;
        Ok(true)
    }

    /// Writes the bytes to a new file beside a name, and renames it to the name.
    fn place(
        &self,
        file: File,
        beside: &str,
        name: &str,
        old: Option<&Metadata>,
        bytes: &[u8],
    ) -> io::Result<()> {
        self.fill(file, old, bytes)?;
        fs::rename(self.rt, beside, name)
    }

    /// Writes the bytes to a new file and gives it the old file's permissions, and waits until they are on the disk.
    fn fill(&self, mut file: File, old: Option<&Metadata>, bytes: &[u8]) -> io::Result<()> {
        self.write_pieces(&mut file, bytes)?;
        if let Some(old) = old {
            keep_access(&file, old)?;
        }
        file.sync_all()
    }

    fn write_pieces(&self, file: &mut File, bytes: &[u8]) -> io::Result<()> {
        let mut written: u64 = 0;
        for piece in bytes.chunks(PIECE) {
            file.write_all(piece)?;
            written = written.saturating_add(piece.len() as u64);
            self.progress
                .show(Work::Writing, written, bytes.len() as u64);
        }
        Ok(())
    }

    /// Makes the first of the files `NAME.1.new`, `NAME.2.new` and so on that doesn't exist. Whatever exists with such a name,
    /// even a dangling link, is never opened, so nobody gains by guessing the name.
    fn make_beside(&self, name: &str, old: Option<&Metadata>) -> io::Result<Beside> {
        for number in 1..=NAMES {
            match self.make_numbered(name, number, old) {
                Err(error) if error.kind() == ErrorKind::AlreadyExists => {}
                made => return made,
            }
        }
        Err(io::Error::from(ErrorKind::AlreadyExists))
    }

    fn make_numbered(&self, name: &str, number: u32, old: Option<&Metadata>) -> io::Result<Beside> {
        let beside = format!(in self.rt.alloc(); "{name}.{number}.new")?;
        let file = self.make_new(beside.as_str(), old)?;
        Ok(Beside { name: beside, file })
    }

    /// Makes a file, or fails if something has its name. A file that will replace another is at first accessible only to its
    /// owner.
    fn make_new(&self, name: &str, old: Option<&Metadata>) -> io::Result<File> {
        let access = if old.is_some() {
            ACCESS_OF_OWNER
        } else {
            ACCESS_OF_NEW
        };
        OpenOptions::new()
            .write(true)
            .create_new(true)
            .mode(access)
            .open(self.rt, name)
    }
}

/// Gives a new file the old one's permissions, and its group and owner if the system allows this user to.
fn keep_access(file: &File, old: &Metadata) -> io::Result<()> {
    let _ = fchown(file, None, Some(old.gid()));
    let _ = fchown(file, Some(old.uid()), None);
    file.set_permissions(Permissions::from_mode(old.mode() & ACCESS))
}

/// Syncs a renaming to the disk, if the file system can: some can't sync a folder.
fn sync_folder(folder: &File) -> io::Result<()> {
    match folder.sync_all() {
        Err(error) if has_no_way(error.kind()) => Ok(()),
        synced => synced,
    }
}

/// Whether a call failed because the file system doesn't support it.
fn has_no_way(kind: ErrorKind) -> bool {
    matches!(kind, ErrorKind::InvalidInput | ErrorKind::Unsupported)
}

/// The folder of the file with this name.
fn folder_of(name: &str) -> Path<'_> {
    match Path::new(name).parent() {
        Some(folder) if !folder.as_os_str().is_empty() => folder,
        _ => Path::new("."),
    }
}

/// Refuses a file with more bytes than the limit.
fn test_len(len: u64, limit: u64) -> Result<(), FileFault> {
    if len > limit {
        return Err(FileFault::Failed(FileProblem::TooLong { limit }));
    }
    Ok(())
}

/// The failure for an error while reading a file.
fn unread(error: io::Error) -> FileFault {
    let problem = match error.kind() {
        ErrorKind::OutOfMemory => return FileFault::Memory,
        ErrorKind::NotFound | ErrorKind::NotADirectory => FileProblem::Missing,
        ErrorKind::IsADirectory => FileProblem::Folder,
        ErrorKind::PermissionDenied => FileProblem::Unreadable,
        _ => FileProblem::System,
    };
    FileFault::Failed(problem)
}

/// `None`, unless the system couldn't tell whether there is a file.
fn none_if_absent<T>(fault: FileFault) -> Result<Option<T>, FileFault> {
    match fault {
        FileFault::Failed(FileProblem::Missing | FileProblem::Folder | FileProblem::Unreadable) =>
            Ok(None),
        _ => Err(fault),
    }
}

/// The failure for an error while writing a file.
fn unwritten(error: io::Error) -> FileFault {
    let problem = match error.kind() {
        ErrorKind::OutOfMemory => return FileFault::Memory,
        ErrorKind::NotFound | ErrorKind::NotADirectory => FileProblem::NoFolder,
        ErrorKind::IsADirectory => FileProblem::Folder,
        ErrorKind::PermissionDenied | ErrorKind::ReadOnlyFilesystem => FileProblem::Unwritable,
        ErrorKind::StorageFull | ErrorKind::QuotaExceeded | ErrorKind::FileTooLarge => {
            FileProblem::NoSpace
        }
        _ => FileProblem::System,
    };
    FileFault::Failed(problem)
}

impl<R: rt::Files<File = File> + AllocGlobal + Clock + Eprint> Files for HostFiles<'_, R> {
    fn read(&mut self, alloc: Global, name: &str, limit: u64) -> Result<Vec<u8>, FileFault> {
        // don't read a plain file that is too long; other files have no known length
        if let Some(there) = self.plain_file(name)? {
            test_len(there.len(), limit)?;
        }
        let bytes = self
            .read_at_most(alloc, name, limit.saturating_add(1))
            .map_err(unread)?;
        test_len(bytes.len() as u64, limit)?;
        Ok(bytes)
    }

    fn write(&mut self, name: &str, bytes: &[u8]) -> Result<(), FileFault> {
        self.write_file(name, bytes).map_err(unwritten)
    }

    fn is_same(&mut self, name: &str, other: &str) -> Result<bool, FileFault> {
        let (Some(one), Some(two)) = (self.plain_file(name)?, self.plain_file(other)?) else {
            return Ok(false);
        };
        Ok(one.dev() == two.dev() && one.ino() == two.ino())
    }

    fn front(&mut self, alloc: Global, name: &str, len: u64) -> Result<Vec<u8>, FileFault> {
        match self.plain_file(name)? {
            Some(there) if there.len() > 0 => {
                self.read_at_most(alloc, name, len).map_err(unread)
            }
            _ => Ok(Vec::new(alloc)),
        }
    }
}
