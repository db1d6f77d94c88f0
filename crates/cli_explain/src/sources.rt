use client_code::{Client, ENTRY, MAX_TYPES, TypeTable, parse};
use seg_index::header;

/// The files that a refused command read, as far as they can be read again.
#[derive(Clone, Copy)]
pub struct Sources<'a> {
    /// The image's bytes.
    pub image: Option<&'a [u8]>,
    /// The files of the clients, in the order of their runs.
    pub clients: &'a [&'a [u8]],
    /// The assembler text of the client with the fault, if the user wrote one.
    pub text: Option<&'a [u8]>,
}

/// The bytes of an image's type table, as far as it has them.
pub(crate) fn type_bytes(image: &[u8]) -> &[u8] {
    let from = header::TYPES.min(image.len());
    let to = (header::TYPES + ENTRY * MAX_TYPES).min(image.len());
    &image[from..to]
}

impl<'a> Sources<'a> {
    /// The file of a client; of the first if no number is given.
    pub(crate) fn file(&self, client: Option<usize>) -> Option<&'a [u8]> {
        self.clients.get(client.unwrap_or(0)).copied()
    }

    /// The client with the fault, if its file is valid.
    pub(crate) fn client(&self, client: Option<usize>) -> Option<Client<'a>> {
        client_of(self.file(client)?)
    }

    /// The types in the segment before a client: the image's, and those of the clients before it.
    pub(crate) fn types_before(&self, client: Option<usize>) -> Option<TypeTable> {
        let mut types = types_of(self.image?)?;
        for file in self.clients.iter().take(client.unwrap_or(0)) {
            if let Some(client) = client_of(file) {
                types = with_types_of(types, &client)?;
            }
        }
        Some(types)
    }
}

fn client_of(file: &[u8]) -> Option<Client<'_>> {
    parse(file).ok()
}

/// The types of an image, if its table is valid.
pub(crate) fn types_of(image: &[u8]) -> Option<TypeTable> {
    TypeTable::read_shared(type_bytes(image)).ok()
}

fn with_types_of(types: TypeTable, client: &Client) -> Option<TypeTable> {
    types.extends(&client.types()).ok()
}
