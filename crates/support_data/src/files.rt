//! Files in memory.

use crate::images::front;
use cli_host::{FileFault, FileProblem, Files};
use std::alloc::{AllocError, Global};

/// Files in memory. A command can write those that there are, and make `saved` and `copy`.
#[derive(Drop)]
pub struct Stored {
    files: Vec<(String, Vec<u8>)>,
    /// Other names of files, each with the file's own name.
    links: Vec<(String, String)>,
    /// Files that can't be read or written, and why.
    problems: Vec<(String, FileProblem)>,
    /// The read and the write that fail, counted from 1.
    pub failing_read: u32,
    pub failing_write: u32,
    reads: u32,
    pub writes: u32,
}

impl Stored {
    pub fn new(alloc: Global) -> Stored {
        Stored {
            files: Vec::new(alloc),
            links: Vec::new(alloc),
            problems: Vec::new(alloc),
            failing_read: 0,
            failing_write: 0,
            reads: 0,
            writes: 0,
        }
    }

    /// Adds a file, or replaces the one with this name.
    pub fn add(&mut self, name: &str, bytes: &[u8]) -> Result<(), AllocError> {
        let alloc = *self.files.allocator();
        let name = String::from_str(alloc, name)?;
        self.files.push((name, Vec::from_slice(alloc, bytes)?))?;
        Ok(())
    }

    /// Adds another name of a file.
    pub fn link(&mut self, name: &str, file: &str) -> Result<(), AllocError> {
        let alloc = *self.files.allocator();
        let link = (
            String::from_str(alloc, name)?,
            String::from_str(alloc, file)?,
        );
        self.links.push(link)?;
        Ok(())
    }

    /// Makes a file one that can't be read or written.
    pub fn fail(&mut self, name: &str, problem: FileProblem) -> Result<(), AllocError> {
        let name = String::from_str(*self.files.allocator(), name)?;
        self.problems.push((name, problem))?;
        Ok(())
    }

    /// The bytes that were last written to a file. Empty if there is no such file.
    pub fn get(&self, name: &str) -> &[u8] {
        for (other, bytes) in self.files.iter().rev() {
            if other.as_str() == name {
                return bytes.as_slice();
            }
        }
        &[]
    }

    pub fn has(&self, name: &str) -> bool {
        self.files.iter().any(|file| file.0.as_str() == name)
    }

    /// The own name of the file with this name.
    fn file_of<'a>(&'a self, name: &'a str) -> &'a str {
        for (link, file) in self.links.iter() {
            if link.as_str() == name {
                return file.as_str();
            }
        }
        name
    }

    /// Fails if the file can't be read or written.
    fn try_file(&self, name: &str) -> Result<(), FileFault> {
        for (other, problem) in self.problems.iter() {
            if other.as_str() == name {
                return Err(FileFault::Failed(*problem));
            }
        }
        Ok(())
    }

    /// Reads a file, or fails if this is the read that does.
    fn read_file(&self, alloc: Global, name: &str, limit: u64) -> Result<Vec<u8>, FileFault> {
        let name = self.file_of(name);
        self.try_file(name)?;
        if self.reads == self.failing_read {
            return Err(FileFault::Failed(FileProblem::System));
        }
        if !self.has(name) {
            return Err(FileFault::Failed(FileProblem::Missing));
        }
        let bytes = self.get(name);
        if bytes.len() as u64 > limit {
            return Err(FileFault::Failed(FileProblem::TooLong { limit }));
        }
        Vec::from_slice(alloc, bytes).map_err(|_| FileFault::Memory)
    }

    /// The own name of a file, if a command may write it.
    fn writable(&self, name: &str) -> Result<String, FileFault> {
        let name = self.file_of(name);
        self.try_file(name)?;
        if self.writes == self.failing_write {
            return Err(FileFault::Failed(FileProblem::System));
        }
        if !self.has(name) && name != "saved" && name != "copy" {
            return Err(FileFault::Failed(FileProblem::NoFolder));
        }
        String::from_str(*self.files.allocator(), name).map_err(|_| FileFault::Memory)
    }
}

impl Files for Stored {
    fn read(&mut self, alloc: Global, name: &str, limit: u64) -> Result<Vec<u8>, FileFault> {
        self.reads = self.reads.saturating_add(1);
        self.read_file(alloc, name, limit)
    }

    fn write(&mut self, name: &str, bytes: &[u8]) -> Result<(), FileFault> {
        self.writes = self.writes.saturating_add(1);
        let name = self.writable(name)?;
        self.add(name.as_str(), bytes)
            .map_err(|_| FileFault::Memory)
    }

    fn is_same(&mut self, name: &str, other: &str) -> Result<bool, FileFault> {
        let name = self.file_of(name);
        Ok(self.has(name) && name == self.file_of(other))
    }

    fn front(&mut self, alloc: Global, name: &str, len: u64) -> Result<Vec<u8>, FileFault> {
        let name = self.file_of(name);
        self.try_file(name)?;
        let bytes = front(self.get(name), usize::try_from(len).unwrap_or(usize::MAX));
        Vec::from_slice(alloc, bytes).map_err(|_| FileFault::Memory)
    }
}
