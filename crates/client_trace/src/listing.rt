use client_code::Client;
use client_text::print;
use std::alloc::{AllocError, Global};

/// The canonical text of a client's instructions.
#[derive(Drop)]
pub(crate) struct Listing {
    text: Vec<u8>,
    /// The end of each line. The lines of types and constants come first.
    ends: Vec<usize>,
    /// The number of lines before the instructions.
    header: usize,
    /// The length of the longest instruction, in bytes.
    width: usize,
}

impl Listing {
    pub(crate) fn new(alloc: Global, client: &Client) -> Result<Listing, AllocError> {
        let text = printed(alloc, client)?;
        let ends = line_ends(alloc, text.as_slice())?;
        let types = client.type_count() as usize;
        let mut listing = Listing {
            text,
            ends,
            header: types.saturating_add(client.constants().len()),
            width: 0,
        };
        listing.width = listing.longest(client);
        Ok(listing)
    }

    /// The line of an instruction, without its end.
    pub(crate) fn line(&self, at: u16) -> &[u8] {
        let line = self.header.saturating_add(usize::from(at));
        let start = match line.checked_sub(1) {
            Some(before) => self.end(before).saturating_add(1),
            None => 0,
        };
        self.text
            .as_slice()
            .get(start..self.end(line))
            .unwrap_or_default()
    }

    pub(crate) fn width(&self) -> usize {
        self.width
    }

    fn longest(&self, client: &Client) -> usize {
        let mut longest = 0usize;
        for at in 0..client.instruction_count() as u16 {
            longest = longest.max(self.line(at).len());
        }
        longest
    }

    fn end(&self, line: usize) -> usize {
        self.ends
            .as_slice()
            .get(line)
            .copied()
            .unwrap_or(self.text.len())
    }
}

fn printed(alloc: Global, client: &Client) -> Result<Vec<u8>, AllocError> {
    match print(alloc, client) {
        Ok(text) => Ok(text),
        Err(_) => Err(AllocError),
    }
}

fn line_ends(alloc: Global, text: &[u8]) -> Result<Vec<usize>, AllocError> {
    let mut ends = Vec::new(alloc);
    for (i, byte) in text.iter().enumerate() {
        if *byte == b'\n' {
            ends.push(i)?;
        }
    }
    Ok(ends)
}
