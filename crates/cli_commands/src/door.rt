//! The library calls that the commands make. They have no contracts here: the commands are tested, not proved.

pub(crate) use cli_images::{assembled, checked, opened, parsed};
use cli_program::Failure;
use lezgauri::{
    Fault, Image, Ready, TypeTable, Verified, parse_typed, prepare, print, verify, verify_typed,
};
use script_compile::{Refusal, client_of};
use std::alloc::Global;

/// A client that is verified for an image.
pub(crate) fn verified<'a>(image: &Image<Global>, client: &'a [u8]) -> Result<Verified<'a>, Fault> {
    verify(image, client)
}

/// The types of an image after a client has run on it, if it had these. Fails if the client can't run.
pub(crate) fn types_left(types: &TypeTable, client: &[u8]) -> Result<TypeTable, Fault> {
    let verified = verify_typed(parse_typed(client)?, types)?;
    types.extends(&verified.client().types())
}

/// A client that is verified for an image, and prepared.
pub(crate) fn ready<'a>(
    alloc: Global,
    image: &Image<Global>,
    client: &'a [u8],
) -> Result<Ready<'a, Global>, Fault> {
    Ok(prepare(alloc, verified(image, client)?)?)
}

/// The client of the program in a file with this name, for an image with these types.
pub(crate) fn compiled<'a>(
    alloc: Global,
    file: &str,
    program: &[u8],
    types: &TypeTable,
) -> Result<script_compile::Client, Failure<'a>> {
    match client_of(alloc, file, program, types) {
        Ok(client) => Ok(client),
        Err(Refusal::Errors(lines)) => Err(Failure::Program(lines)),
        Err(Refusal::Memory) => Err(Failure::from(Fault::Memory)),
    }
}

/// The canonical text of a client.
pub(crate) fn printed(alloc: Global, client: &[u8]) -> Result<Vec<u8>, Fault> {
    let client = parsed(client)?;
    print(alloc, &client)
}
