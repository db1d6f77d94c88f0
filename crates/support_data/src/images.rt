use std::alloc::{AllocError, Global};

/// The first `n` bytes, or all bytes if there are fewer.
pub fn front(bytes: &[u8], n: usize) -> &[u8] {
    &bytes[..n.min(bytes.len())]
}

/// Writes bytes if they fit.
pub fn write(to: &mut [u8], at: usize, bytes: &[u8]) {
    for (i, byte) in bytes.iter().enumerate() {
        if let Some(slot) = to.get_mut(at.saturating_add(i)) {
            *slot = *byte;
        }
    }
}

/// Writes little-endian 32-bit numbers if they fit.
pub fn write_words(to: &mut [u8], at: usize, words: &[u32]) {
    for (i, word) in words.iter().enumerate() {
        write(
            to,
            at.saturating_add(i.saturating_mul(4)),
            &word.to_le_bytes(),
        );
    }
}

/// The image of `examples/counter.image`: one number named x, with the value 41.
pub fn counter(alloc: Global) -> Result<Vec<u8>, AllocError> {
    let mut image = Vec::from_elem(alloc, 0u8, 784)?;
    let bytes = image.as_mut_slice();
    write(bytes, 0, b"SEGIMAGE");
    write_words(bytes, 8, &[1, 49, 0, 0, 1, 0, 720, 1]);
    write(bytes, 64, &[1]);
    write_words(bytes, 576, &[1; 32]);
    write_words(bytes, 704, &[0x8000_0002, 0, 1, 1, 41]);
    write(bytes, 728, b"x");
    write_words(bytes, 736, &[0x8000_0003, 2, 5, 1]);
    write_words(bytes, 752, &[0xffff_ffe0]);
    write(bytes, 756, &[1, 0, 1, 0]);
    Ok(image)
}

/// The counter's image as it is saved: of version 2, with this number.
pub fn counter_saved(alloc: Global, number: u32) -> Result<Vec<u8>, AllocError> {
    let mut image = counter(alloc)?;
    write_words(image.as_mut_slice(), 8, &[2]);
    write_words(image.as_mut_slice(), 720, &[number]);
    Ok(image)
}

/// An image of 1024 bytes with a frozen number, 7, which the cell named b shares. Another cell that shared it, named a, was
/// destroyed, and the number was moved when it was frozen.
pub fn sharing(alloc: Global) -> Result<Vec<u8>, AllocError> {
    let mut image = Vec::from_elem(alloc, 0u8, 1024)?;
    let bytes = image.as_mut_slice();
    write(bytes, 0, b"SEGIMAGE");
    write_words(bytes, 8, &[2, 64, 0, 0, 696, 1, 720, 1]);
    write(bytes, 64, &[1]);
    write(bytes, 80, &[9, 1]);
    write_words(bytes, 576, &[1; 32]);
    write_sharing_heap(bytes);
    Ok(image)
}

/// A free block, the index with its entry, the cell, a free block, the frozen object, and a free block.
fn write_sharing_heap(bytes: &mut [u8]) {
    write_words(bytes, 704, &[2, 0, 0, 116]);
    write_words(bytes, 736, &[0x8000_0003, 2, 5, 1, 48, 0x1_0001]);
    write_words(bytes, 784, &[0x8000_0002, 3, 0x101, 1, 64, 1]);
    write(bytes, 808, b"b");
    write_words(bytes, 816, &[2, 2, 0, 68]);
    write_words(bytes, 848, &[0x8000_0002, 2, 7, 1, 1, 0, 7]);
    write_words(bytes, 880, &[9, 2, 0, 1]);
}
