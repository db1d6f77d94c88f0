//! Files of one format in the place of another.

use crate::text::begins_as_text;

/// The format of a file, if it can be told from how it begins.
#[derive(Clone, Copy)]
pub(crate) enum Format {
    Image,
    Client,
    /// The assembler text of a client.
    Text,
}

impl Format {
    pub(crate) fn of(bytes: &[u8]) -> Option<Format> {
        if bytes.starts_with(b"SEGIMAGE") {
            Some(Format::Image)
        } else if bytes.starts_with(b"SEGC") {
            Some(Format::Client)
        } else if begins_as_text(bytes) {
            Some(Format::Text)
        } else {
            None
        }
    }
}

/// Why a file isn't a client file.
pub(crate) fn no_client(bytes: &[u8]) -> &'static str {
    match Format::of(bytes) {
        Some(Format::Text) => {
            "this is the text of a client: assemble it first, with `segtool asm`; a client file begins with `SEGC`"
        }
        Some(Format::Image) => "this is an image; a client file begins with `SEGC`",
        Some(Format::Client) | None => {
            "a client file begins with `SEGC`; the name of a program should end in `.lez`"
        }
    }
}

/// Why a file isn't an image.
pub(crate) fn no_image(bytes: &[u8]) -> &'static str {
    match Format::of(bytes) {
        Some(Format::Client) => "the file is a client; an image begins with `SEGIMAGE`\n",
        Some(Format::Text) => "the file is the text of a client; an image begins with `SEGIMAGE`\n",
        Some(Format::Image) | None => {
            "the file isn't an image: its first 8 bytes should be `SEGIMAGE`\n"
        }
    }
}

/// Why a file isn't the text of a client, if it is another file.
pub(crate) fn no_text(bytes: &[u8]) -> Option<&'static str> {
    match Format::of(bytes)? {
        Format::Client => Some(
            "this is a client file already, and no text; `segtool print` prints its text\n",
        ),
        Format::Image => Some("this is an image, and no text of a client\n"),
        Format::Text => None,
    }
}
