//! Changes of an image, written as text with spaces between them:
//!
//!     724=33          a word of 32 bits; a word is also `0x21`, `33,0` (its halves), or `'!'` or `'!a'` (its bytes)
//!     768:-9          a number of 64 bits
//!     720->752        the pointer at 720 points to 752
//!     720->null       it is null

use crate::images::{counter, write, write_words};
use std::alloc::Global;
use std::test::Fail;

/// Makes the changes of a text. Returns `None` if a change isn't understood.
pub fn change(bytes: &mut [u8], changes: &str) -> Option<()> {
    for change in changes.split_whitespace() {
        change_one(bytes, change)?;
    }
    Some(())
}

/// The image of `examples/counter.image` with the changes of a text.
pub fn counter_where(alloc: Global, changes: &str) -> Result<Vec<u8>, Fail> {
    let mut image = counter(alloc)?;
    change(image.as_mut_slice(), changes).ok_or("no changes")?;
    Ok(image)
}

fn change_one(bytes: &mut [u8], change: &str) -> Option<()> {
    if let Some((at, named)) = change.split_once("->") {
        let at = number(at)?;
        let distance = match named {
            "null" => 1,
            _ => number(named)?.wrapping_sub(at),
        };
        write_words(bytes, at as usize, &[distance]);
    } else if let Some((at, long)) = change.split_once(':') {
        let long: i64 = long.parse().ok()?;
        write(bytes, number(at)? as usize, &long.to_le_bytes());
    } else {
        let (at, word) = change.split_once('=')?;
        write_words(bytes, number(at)? as usize, &[word_of(word)?]);
    }
    Some(())
}

/// A number in decimal, or in hexadecimal after `0x`.
pub fn number(word: &str) -> Option<u32> {
    match word.strip_prefix("0x") {
        Some(digits) => u32::from_str_radix(digits, 16).ok(),
        None => word.parse().ok(),
    }
}

fn word_of(word: &str) -> Option<u32> {
    if let Some((low, high)) = word.split_once(',') {
        return Some(number(low)?.wrapping_add(number(high)?.wrapping_mul(1 << 16)));
    }
    match word.as_bytes() {
        [b'\'', letter, b'\''] => Some(u32::from(*letter)),
        [b'\'', first, second, b'\''] => Some(u32::from_le_bytes([*first, *second, 0, 0])),
        _ => number(word),
    }
}
