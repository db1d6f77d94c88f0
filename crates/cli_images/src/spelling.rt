//! Texts as arguments and in dumps.

ghost use Rattle.std.specs.Prelude.{◌<◌, IfSome};

use std::alloc::{AllocError, Global};

/// The bytes of a text with this spelling: `\` and two hexadecimal digits are a byte, and all other bytes are themselves. `None`
/// if other bytes follow a `\`.
pub(crate) fn unspelled(alloc: Global, spelling: &[u8]) -> Result<Option<Vec<u8>>, AllocError> {
    let mut bytes = Vec::new(alloc);
    let mut rest = spelling;
    for _ in 0..spelling.len() {
        if rest.is_empty() {
            break;
        }
        let Some((byte, following)) = first(rest) else {
            return Ok(None);
        };
        bytes.push(byte)?;
        rest = following;
    }
    Ok(Some(bytes))
}

/// The first byte, and the rest of the spelling.
fn first(spelling: &[u8]) -> Option<(u8, &[u8])> {
    match spelling {
        [b'\\', high, low, rest @ ..] => Some((16 * digit(*high)? + digit(*low)?, rest)),
        [b'\\', ..] | [] => None,
        [byte, rest @ ..] => Some((*byte, rest)),
    }
}

/// The value of a hexadecimal digit.
fn digit(byte: u8) -> Option<u8>
    ensures { IfSome result (λ value. value < 16) }
{
    match byte {
        b'0'..=b'9' => Some(byte - b'0'),
        b'a'..=b'f' => Some(byte - b'a' + 10),
        b'A'..=b'F' => Some(byte - b'A' + 10),
        _ => None,
    }
}
