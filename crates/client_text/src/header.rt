ghost use Rattle.std.specs.Prelude.{◌≡◌, ◌+◌, ◌++◌, OnOk};
ghost use Rattle.client_spec.specs.Bytes.{spelling};
ghost use Rattle.client_text.specs.Headers.{header_bytes};

use client_code::{FileHeader, MAGIC};
use std::alloc::{AllocError, Allocator};

fn append_word<A: Allocator>(file: &mut Vec<u8, A>, word: u32) -> Result<(), AllocError>
    ensures { OnOk result (file.new.items ≡ file.old.items ++ spelling 4 word) }
{
    file.extend_from_slice(&word.to_le_bytes())
}

/// Adds the bytes of a header with a file version.
pub fn append_header<A: Allocator>(
    header: FileHeader,
    version: u32,
    file: &mut Vec<u8, A>,
) -> Result<(), AllocError>
    ensures { OnOk result (file.new.items ≡ file.old.items
        ++ header_bytes version header.types header.constants header.instructions) }
{
    file.extend_from_slice(MAGIC)?;
    append_word(file, version)?;
    append_word(file, header.types)?;
    append_word(file, header.constants)?;
    append_word(file, header.instructions)
}

/// How many types, constants and instructions there are together.
pub fn entries(header: FileHeader) -> u32
    ensures { result ≡ header.types + header.constants + header.instructions }
{
    header.types + header.constants + header.instructions
}
